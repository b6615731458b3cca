//! UPDATE messages as octets (RFC 4271, 4.1 and 4.3), with AS numbers of four octets (RFC 6793).
//!
//! `decode` reads a message and `encode` writes one; `fits` says which updates have a message.
//! Which octets are a message of which update is the relation `Spells` of `specs/Spelling.antt`.
//! The one message that is written is `spelling` of `specs/Writing.antt`, and the first fault of
//! octets that are no message is `fault_of` of `specs/Reading.antt`. `one_spelling` has the laws
//! that tie the three together.
//!
//! Of the path attributes (RFC 4271, 5) this profile has ORIGIN, AS_PATH as at most one
//! AS_SEQUENCE, and NEXT_HOP; every other type is a fault, and so are attributes without all three.
//! The sizes of the parts are for the crate that packs prefixes into messages. Whether a route is
//! wanted, and what a message does to a table, is left to the crates above.
#![tactic(auto)]

mod attributes;
mod fault;
mod laws;
mod message;
mod prefixes;
mod size;
mod update;
mod writing;

pub use fault::{AttrCause, WireAnswer, WireFault};
pub use laws::one_spelling;
pub use message::decode;
pub use size::{attrs_size, fits, prefix_size};
pub use update::{Attrs, Update};
pub use writing::encode;
