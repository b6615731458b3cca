//! The packing rule: what a session owes, as one UPDATE message at a time (RFC 4271, 4.3 and 9.2).
//!
//! `next_message` gives the message that the rule puts together; where more is owed than it says,
//! the next comes when its prefixes are owed no more. The rule is `IsPacked` of
//! `specs/Packing.antt`: withdrawals first, then the prefixes that share the path and the ORIGIN of
//! the first, in both cases as many as a message of 4,096 octets holds. `packed`, beside it,
//! computes the one message that is so. What a prefix takes in a message is the matter of
//! `cn_wire`; what a session owes is left to the crates above.
#![tactic(auto)]

mod laws;
mod owed;
mod packing;

pub use laws::packing_rule;
pub use owed::Owed;
pub use packing::next_message;
