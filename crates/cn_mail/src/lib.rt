//! The mailbox of a session: the messages that one device sent to another and that the other hasn't
//! received yet, in the order in which they were sent.
//!
//! The layer above makes one `Mailbox` for each direction of a link, puts a message last when a
//! device sends and takes the first when the other receives. Contracts see a mailbox as the list of
//! its messages; no definition of this crate is cited. What a message is, and when one is sent, is
//! left to the layers above: a mailbox hands back what it holds.
#![tactic(auto)]

mod mailbox;

pub use mailbox::Mailbox;
