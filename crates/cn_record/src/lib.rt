//! What is recorded of the devices that aren't emulated, and whether it is sound.
//!
//! A row says what a device held for a prefix (`Row`), and `Saved` keeps rows in order, at most one
//! for each device and prefix. Of the rows an outside device says those for the prefixes that its
//! island originates, and nothing else (`specs/Said.antt`). `check` answers them exactly where each
//! of these is what the device holds in the one stable state of the outside devices alone, and else
//! names the least device, and then the least prefix, of which that isn't so
//! (`specs/Unsound.antt`). It finds that state by letting the devices of an island decide again and
//! again (RFC 4271, 9.1.2), one prefix after another: `soundness` goes over the prefixes of the
//! `islands`, `converge` lets those decide that may decide otherwise, beginning with the
//! originators that `places` finds, and then rows and table are compared where there is something
//! to compare. So it costs what routes reach.
//!
//! The layer above makes a `Recorded`, which is a certified opening with sound records by its type
//! (`specs/Recorded.antt`), asks `Recorded::said`, and cites `laws::recorded_boundary` for what
//! then holds of the whole network. The definitions of stable states and of sound records, and the
//! laws that these follow from, are those of `cn_net`; whether a boundary is certified is left to
//! `cn_cert`.
#![tactic(auto)]

mod converge;
mod decision;
mod islands;
pub mod laws;
mod places;
mod recorded;
mod saved;
mod soundness;

pub use recorded::Recorded;
pub use saved::{Row, Saved, SavedFault};
pub use soundness::{RecordWhy, Unrecorded, check};
