//! The calls that the program makes: `command` reads the words, does what they ask for and puts the
//! answer.
//!
//! Its contract is where the program's promise stands. A command line is a form (`form.rt`,
//! `specs/Form.antt`), which says which names are read and which are written. What is meant by a
//! form and by what the named files hold is one value, a deed: a status, what is written, and the
//! texts that are put (`specs/Meaning.antt`; `commands.rt` makes it, from the readers, checks and
//! runs of the crates below). `deed.rt` carries it out, and `specs/Ending.antt` says how that can
//! end. `specs/Outcome.antt` puts the two together, and the clauses of `command` say of each status
//! when it comes, for any command; `laws.rt` says it of each command in its own words.
//!
//! A command is a form and its words, its two lists of names, a function in `commands.rt`, and an
//! arm each in `IsRight`, `IsWrong`, `GoesOn` and `IsValidInput`.
#![tactic(auto)]

mod commands;
mod deed;
mod fault_texts;
mod form;
mod islands;
pub mod laws;
mod read;
mod serial;
mod status;
pub mod status_bad_net;
pub mod status_bad_text;
pub mod status_done;
pub mod status_refused;
pub mod status_unbuilt;
mod text_faults;
mod texts;
mod top;
mod wrong;

pub use status::Status;
pub use top::command;
