//! A script run in the serial order.
//!
//! `run_serial` makes the core of a recorded opening and does one command of the script after
//! another: `work N` applies the first event in the serial order again and again, until N events
//! have happened or the state is quiet, and `pull` asks what the devices hold. `after_command` does
//! one command, for whoever keeps no answer until the next. `specs/Serial.antt` says which of the
//! plays of `cn_core` is the serial one, and `laws` that it is one and a play; `specs/Rounds.antt`
//! has rounds, the serial order of a command that goes on until the state is quiet. What is printed
//! of a history or an answer is left to `cn_trace` and `cn_report`, and reading a script to
//! `cn_readscript`.
#![tactic(auto)]

pub mod laws;
mod serial;

pub use serial::{Ran, after_command, run_serial};
