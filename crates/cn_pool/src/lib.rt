//! The paths of an emulation, each held once.
//!
//! The layer above hands a path to a `Pool` and keeps its `PathId` in place of the path: two ids
//! are equal exactly where their paths are (`laws::same_id_law`). Contracts see a pool as the list
//! of its distinct paths, and an id as the place of its path in it (`specs/Pool.antt`); how a path
//! is found again appears in no contract. No call removes a path, so a pool `Extends` what it was
//! before each call, and `path` gives the same for an id ever after. Which paths there are is left
//! to the layers above.
#![tactic(auto)]

pub mod laws;
mod pool;

pub use pool::{PathId, Pool};
