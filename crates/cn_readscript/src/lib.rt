//! The script that a text stands for: commands, in the order in which they are given.
//!
//! The layers above read a text by `read_script`. `specs/Script.antt` has the format of the text,
//! one definition a table, with its keys in the order in which they are read and their faults are
//! told: `script_of` gives the script or the first fault of any bytes. It stands on
//! `specs/Document.antt` of `cn_table`, the table that the bytes are as TOML, and on
//! `specs/Tables.antt` there for its values. A script and its commands are those of `cn_change`,
//! which are given on. What a command does, and how long a text may be, is left to the crates
//! above.
#![tactic(auto)]

mod kind;
mod read;

pub use cn_change::{Command, Script};
pub use read::read_script;
