//! The cases of calls: what the core does event by event, what scripts answer, what plans open
//! with, and what the top call answers, puts and leaves.
//!
//! The top call is made by `commands`, over a shelf and an out that tell what they hold, for the
//! cases of `planning`, `running` and `failing`. Each of these says too how many reads, writes and
//! puts are made, so that none is made again and none comes after one that failed. The statuses 0,
//! 1, 2, 7 and 9 are each wanted somewhere, with ample memory, so no body that always wants memory
//! or meets a fault passes.
//!
//! The expected texts come from the definitions, the RFCs and the program's other description, its
//! acceptance cases; none is copied from an answer of the code.
#![tactic(auto)]

#[cfg(test)]
mod commands;
#[cfg(test)]
mod events;
#[cfg(test)]
mod failing;
#[cfg(test)]
mod opened;
#[cfg(test)]
mod planning;
#[cfg(test)]
mod running;
#[cfg(test)]
mod scripts;
#[cfg(test)]
mod texts;
