//! The values: what the lowest crates answer, and one call of each of their public functions with
//! ample memory.
//!
//! A crate that has tests is proved twice, once without them and once with them, and each test is
//! proved too. So the crates below have none, and what they answer is tested here: lists that
//! ascend (`lists`), the values of BGP (`values`), prefix lists (`policies`), maps and sets of
//! prefixes (`maps`), the routes of sessions (`routes`), tallies (`tallies`), pools of paths
//! (`pools`), mailboxes (`mailboxes`), messages as octets (`messages`), and octets that are none
//! (`faults`). Each module has tables of
//! named cases, functions without clauses that put an answer into words, and a test that goes over
//! the tables and compares once a case; `words` has that one comparison.
//!
//! The expected texts come from the definitions and the RFCs; none is copied from an answer of the
//! code.
#![tactic(auto)]

#[cfg(test)]
mod faults;
#[cfg(test)]
mod lists;
#[cfg(test)]
mod mailboxes;
#[cfg(test)]
mod maps;
#[cfg(test)]
mod messages;
#[cfg(test)]
mod policies;
#[cfg(test)]
mod pools;
#[cfg(test)]
mod routes;
#[cfg(test)]
mod tallies;
#[cfg(test)]
mod values;
#[cfg(test)]
mod words;
