//! The cases of networks: what the crates below answer of small networks, of their islands,
//! boundaries, records and plans, and one call of each of their public functions with ample memory.
//!
//! A crate that has tests is proved twice, once without them and once with them. So what is tested
//! on a network is tested here and in `cn_calls`, and what is tested of values, of texts and of the
//! edge in `cn_values` and `cn_texts`. Each module has a table of named cases, with the text that
//! is expected; a test that fails prints the name of its case. What both crates use is `cn_given`.
//!
//! The expected texts come from the definitions, the RFCs and the program's other description, its
//! acceptance cases; none is copied from an answer of the code.
#![tactic(auto)]

#[cfg(test)]
mod boundaries;
#[cfg(test)]
mod changes;
#[cfg(test)]
mod decisions;
#[cfg(test)]
mod exchange;
#[cfg(test)]
mod faults;
#[cfg(test)]
mod growth;
#[cfg(test)]
mod islands;
#[cfg(test)]
mod lookups;
#[cfg(test)]
mod packing;
#[cfg(test)]
mod peers;
#[cfg(test)]
mod plans;
#[cfg(test)]
mod policies;
#[cfg(test)]
mod records;
#[cfg(test)]
mod sessions;
