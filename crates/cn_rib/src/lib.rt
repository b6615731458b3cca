//! What is kept for prefixes: the finite maps of which the Adj-RIB-In, the Adj-RIB-Out and the
//! Loc-RIB are made (RFC 4271, 3.2), sets of prefixes, and counts of what is left to do.
//!
//! The layer above keeps an `IdRib` for what was sent over a session and another for what came in
//! over it, a `PrefixMap` of its own choices for a device, and a `PrefixSet` of the prefixes that
//! wait for a decision. The paths of routes are held in a `Pool` of `cn_pool`, and a route has the
//! id of its path. An UPDATE changes the routes of a session by `apply`: first what it withdraws,
//! then what it announces (RFC 4271, 4.3). `take_in` also puts its prefixes into the set of those
//! that wait. Either is done whole, or not at all where there is no memory. A `Tally` counts what
//! is left to do in numbered slots: that layer adds to a slot when work for it comes and takes away
//! when it is done, or sets it to what is left, and `first` says where to go on.
//!
//! Contracts see a map as std's `FinMap` over `prefix_cmp` of `cn_base`, a set as the `PrefixSet`
//! of `specs/PrefixSet.antt`, and a tally as the list of its counts; how the rows lie in memory and
//! how one is found appears in no contract of a public call. A table of ids stands for an `AdjRib`
//! of `specs/Updates.antt` under the pool (`routes_under` of `specs/Interned.antt`), and under a
//! longer one for the same (`laws::same_routes`). `apply_update` of `specs/Updates.antt` says what
//! an update does. `proofs/Keyed.antt` has the laws of these maps and sets for the proofs of the
//! layers above, `proofs/Updates.antt` those of updates, `proofs/Mapped.antt` and
//! `proofs/IdRoutes.antt` those of maps under a function and of tables of ids. Which routes are put
//! in, the choice between them, and what a slot stands for, is left to those layers, and octets to
//! `cn_wire`.
#![tactic(auto)]

mod bits;
mod id_rib;
mod interned;
pub mod laws;
mod prefix_map;
mod prefix_set;
mod tally;

pub use id_rib::{IdRib, take_in};
pub use interned::Interned;
pub use prefix_map::{PrefixMap, Row};
pub use prefix_set::PrefixSet;
pub use tally::Tally;
