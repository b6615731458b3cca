//! The network: its devices and links as a value, the drafts that stand for networks, what devices
//! offer and accept, and as definitions the candidates of a device and the best of them, stable
//! states, islands, the certificate of a boundary and sound records.
//!
//! A network is valid by its type: `specs/Valid.antt` says what that means, and `Net::make` is the
//! one way to make one. It answers a network, or the fault of the draft (`specs/Faults.antt`). The
//! crates above see a `Net` as the record of its devices and its links (`specs/Network.antt`), and
//! a `Certified`, whose boundary is certified by its type, as an `Opening`. They cite
//! `specs/Islands.antt` and `specs/Certificate.antt`, whose code stands in `cn_island` and
//! `cn_cert`. `Net::neighbours` takes the links of a device from the place where they are kept to
//! begin, `Net::link` halves among these, and `Net::own_origin` among what the device originates
//! (`specs/Neighbours.antt`, `specs/Kept.antt`). A `SessionIndex` has the directed sessions of an
//! emulation in order, and where those from and into each device stand (`specs/Sessions.antt`).
//! The links are single-hop eBGP sessions of the fabrics of RFC 7938, section 5.
//!
//! A network changes as a value: `Net::with_link` and `Net::with_body` give the network after a
//! link went up or down and after a device was reloaded (`specs/Changed.antt`), and `Net::copy` an
//! equal one. `changed` has the laws on what such a change is, and `alike` those on what it leaves
//! as it was (`specs/Alike.antt`): islands and the certificate where links go down or come up, the
//! sessions where the links have the same ends, and sound records where nothing changes outside.
//!
//! `laws` says what follows from the definitions: a device's candidates have one best choice, a
//! network has one stable state (`specs/OneState.antt`), and behind a certified boundary the
//! emulated devices hold that state, however the outside devices would have reacted
//! (`specs/Boundary.antt`). A rule of BGP stands in `specs/Exchange.antt` alone, and the laws use
//! of it what `proofs/Offering.antt` and `proofs/Restricted.antt` prove.
#![tactic(auto)]

pub mod alike;
mod certified;
pub mod changed;
mod copies;
mod device;
mod draft;
mod exchange;
mod fault;
pub mod laws;
mod limits;
mod make;
mod neighbours;
mod net;
mod originated;
mod repeat;
mod sessions;
mod sets;

pub use certified::Certified;
pub use device::{Body, Device, Link, Own, Peer, Policy};
pub use draft::{BodyDraft, DeviceDraft, Draft, LinkDraft, PeerDraft};
pub use fault::{NetAnswer, NetFault, What};
pub use limits::{Excess, passed_limit, row_count, session_count};
pub use neighbours::Neighbour;
pub use net::Net;
pub use sessions::{SessionEnds, SessionIndex};
pub use sets::{DeviceSet, Labels};
