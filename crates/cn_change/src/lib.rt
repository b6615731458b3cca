//! What an emulation can be told: the commands of a script, and changes of its network.
//!
//! The layers above make a `Script` of commands that `Script::fits` has tested, and go through its
//! `items`. Contracts see a script as the list of its commands, which meets `IsScript` of
//! `specs/Script.antt`. How a script is written is the affair of `cn_readscript`; what a command
//! does is left to the crates above.
//!
//! A `Change` is a reload of a device, or a cut, a restore or a reset of a link
//! (`specs/Journal.antt`). `applied` gives the network after it, `changed`, or its first fault,
//! `fault_of`; `fault` looks for the fault alone, for those who change a network in place. `laws`
//! says what an accepted change leaves: the network is valid, nothing outside is touched, and the
//! sessions are the same. What a change does to sessions and tables, and whether the boundary is
//! certified after it, is left to the crates above. A `KeptChange` is a change in a history.
#![tactic(auto)]

mod change;
mod command;
mod counting;
mod faults;
mod journal;
mod kept;
pub mod laws;
mod script;

pub use change::{Change, ChangeAnswer, ChangeFault};
pub use command::Command;
pub use faults::fault;
pub use journal::applied;
pub use kept::KeptChange;
pub use script::Script;
