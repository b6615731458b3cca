//! What cases are given: tables of named cases, small networks, openings of these, and their
//! answers in words.
//!
//! The tests of `cn_cases` and `cn_calls` stand on this crate, so that what they share is proved
//! once and without tests. `tables` reads tables, which are texts; `build` makes networks from
//! texts and knows alone what a draft is made of; `opening` emulates devices by their names and
//! records rows; `pieces` has the texts of plans, scripts, traces and answers; and `words` turns
//! answers into text and compares it with what a case wants.
//!
//! Nothing that the program does stands on it.
#![tactic(auto)]

pub mod build;
pub mod opening;
pub mod pieces;
pub mod tables;
pub mod words;
