//! The certificate of a boundary: whether it holds, and where it first fails.
//!
//! The devices that aren't emulated fall into islands. A boundary is certified where, for each
//! island, the emulated devices that face it are of one AS, the devices of the island that face the
//! emulated part are of one AS, and the prefixes that the island originates are originated nowhere
//! else. `cn_net` has the definition (`specs/Certificate.antt`); here `specs/Refusal.antt` says
//! what a refusal names and which one is the first. The layer above calls `certify`, or
//! `first_refusal` where it keeps the parts, and cites the laws.
//!
//! The way through: `first_refusal` labels each island by its least device (`islands::named`). Then
//! it takes the first refusal of each side (`sides`) and of the origins (`origins`), and the
//! earliest of the three (`first::earlier_of`). Either lists devices in groups, by group and device
//! (`members::Member`): those that face an island in the group of the island, those that originate
//! a prefix in the group of the prefix. `members::split` tells the groups whose devices differ, in
//! their AS numbers or their islands, and a search in the list finds the least devices.
//! `specs/Steps.antt` has the words of these functions.
//!
//! The sessions are those of RFC 7938, section 5; that an AS refuses a path which holds its own
//! number is RFC 4271, section 9.1.2.
#![tactic(auto)]

mod certificate;
mod first;
mod islands;
mod laws;
mod members;
mod origins;
mod refusal;
mod sides;

pub use certificate::{CertWhy, Uncertified, certify};
pub use first::first_refusal;
pub use laws::{labels_change_no_refusal, refused_is_not_certified};
pub use refusal::{Refusal, Side};
