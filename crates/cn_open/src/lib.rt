//! From a plan's text to the opening that it stands for, in stages.
//!
//! The stages stand in this order, a function each: the text is read (`text.rt`); its network is
//! made, the names of its selection are looked up, then those of its rows (`selection.rt`,
//! `rows.rt`), and no row may be there twice (`naming.rt`: `name_plan`); the limits, the
//! certificate and the records are those of `cn_plan` (`opening.rt`: `open_plan`). The first stage
//! that fails names the fault, as a value; the layer above has its line.
//!
//! `specs/Emulation.antt` says what a text stands for, `specs/Opens.antt` what it opens with, and
//! `specs/OpenFaults.antt` why it doesn't, up to a depth (`specs/Depth.antt`) to which it is
//! opened. `laws.rt` has that the opening and the fault are one, and never both. What the layer
//! above may cite of the proofs stands in `proofs/OneOpening.antt`.
#![tactic(auto)]

mod fault;
pub mod laws;
mod naming;
mod opening;
mod rows;
mod selection;
mod text;

pub use fault::{OpenAnswer, OpenFault, PlanFault, TextFault};
pub use naming::{Named, name_plan};
pub use opening::open_plan;
pub use text::PLAN_LIMIT;
