//! The trace of a history as a text: a line that names the format, and then a line for each step,
//! in the order in which they happened.
//!
//! The crates above use `write_trace`, whose result is `trace_text` of `specs/Trace.antt`;
//! `step_line` there is the line of one step. It cites a device's name from `cn_net` (`name_of`),
//! and from `cn_text` the two names of a session (`pair_text`) and the one spelling of a prefix
//! (`prefix_text`). Which histories there are is said in `cn_core`; where the text is kept is left
//! to the crates above.
#![tactic(auto)]

mod trace;

pub use trace::write_trace;
