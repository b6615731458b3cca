//! The plan that a text stands for: devices and links as they are written, the names that select
//! the emulated devices, and the records of outside devices.
//!
//! `specs/Plan.antt` has the format, one definition a table, with its keys in the order in which
//! they are read and their faults are told: `plan_of` gives the plan or the first fault of any
//! bytes. It stands on `cn_table` for the table that the bytes are as TOML (`specs/Document.antt`)
//! and for its values (`specs/Tables.antt`); `specs/Atoms.antt` has the two values that only plans
//! and reloads have, what a device originates and an entry of a prefix list. `read_net` computes
//! it. Whether the draft stands for a network, and whether the names of peers, those that select
//! devices and those in records are of devices, is left to the crates above.
#![tactic(auto)]

mod device;
mod entry;
mod link;
mod own;
mod peer;
mod plan;
mod record;
mod selection;

pub use plan::{NetText, read_net};
pub use record::RowDraft;
pub use selection::NameSelection;
