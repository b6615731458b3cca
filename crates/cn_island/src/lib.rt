//! The islands: the devices that aren't emulated, in groups that links between them join.
//!
//! An island is labelled by the least of its devices. The layer above calls `islands` and reads
//! each device's label by `Labels::of`; its contract cites `IsIslands` of `cn_net`'s
//! `specs/Islands.antt`, and `cn_net::laws::islands_are_one` says that there is one such labelling.
//! A link counts whether it is up or down, so that a link that comes up merges no islands. What a
//! boundary between islands and emulated devices has to meet is left to the certificate. The links
//! are single-hop eBGP sessions of the fabrics of RFC 7938, section 5.
#![tactic(auto)]

mod labelling;

pub use labelling::islands;
