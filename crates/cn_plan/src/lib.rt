//! The plan: which devices are emulated, whether there are too many, and whether their boundary is
//! safe.
//!
//! `plan` takes a network, the devices that have to be emulated or all that are, and what is
//! recorded of the others. It looks in this order: at the limits on emulated devices and on rows
//! (`specs/Limits.antt`), at the certificate of the boundary, and at the records
//! (`specs/Boundary.antt`). A `Plan` has passed all three, and an answer names the first that
//! fails; `specs/Planned.antt` has both. The parts are those of `cn_grow`, `cn_island`, `cn_cert`
//! and `cn_record`, and each rule of BGP stands below them, in `cn_net`. The layer above calls
//! `plan`, and leaves to it what comes first.
#![tactic(auto)]

mod answer;
pub mod laws;
mod planning;
mod selection;

pub use answer::{Plan, PlanAnswer};
pub use planning::plan;
pub use selection::Selection;
