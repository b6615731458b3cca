//! Lists that ascend by a key, and lemmas on lists that several crates need: what isn't BGP.
//!
//! `places_at` finds where the items of a key stand in a list that ascends by it, and `part_at`
//! gives those items; `place_at` and `item_at` find the one item of a key where each key stands
//! once. All halve the list. Their contracts cite `IsSegment` of `specs/Segment.antt`, and say
//! which items they give in std's words `filter`, `position` and `find`. `specs/Steps.antt` has the
//! steps of a reader, of which the first that fails gives the answer.
//!
//! Each module of `proofs/` may be cited by other crates. They state lemmas once, over the type of
//! the items, the key and the order: `Segments` and `Halving` on what a search in an ascending list
//! gives, `Finding` and `Folding` on any list, `Loops` on steps and readers, `Order` on total
//! orders. This crate stands on `std` alone; what a list means is left to the crates above.
#![tactic(auto)]

mod segment;

pub use segment::{item_at, part_at, place_at, places_at};
