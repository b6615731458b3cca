//! The tests of the edge and of the crates of texts: what a shelf and an out answer, and what is
//! read of the texts of atoms, tables, scripts and plans, and printed.
//!
//! A crate that has tests is proved twice, once without them and once with them. So the crates that
//! are tested here have none of their own, and what is tested on a network is tested in `cn_cases`.
//! `shelves` has calls on shelves and outs, `halting` readers and writers that give and take one
//! octet at a time; `atoms`, `tables`, `scripts`, `plans` and `policies` have texts. Each has
//! tables of named rows, or of rows that their text names, with what is expected. A function tells
//! what is found as a text, and `words` compares; an assertion that fails prints the name of its
//! row. What wants memory is called with ample memory, so no body that always wants it passes.
//!
//! The expected texts come from the definitions and the RFCs; none is copied from an answer of the
//! code.
#![tactic(auto)]

#[cfg(test)]
mod atoms;
#[cfg(test)]
mod halting;
#[cfg(test)]
mod plans;
#[cfg(test)]
mod policies;
#[cfg(test)]
mod scripts;
#[cfg(test)]
mod shelves;
#[cfg(test)]
mod tables;
#[cfg(test)]
mod words;
