//! The texts that commands are answered with.
//!
//! The crates above use `print_answer`, the whole text of an answer, and `put_choice`, which
//! appends what a device holds, `put_name` and `put_pair`. The text is `answer_text` of
//! `specs/Answers.antt`, which stands on `choice_text` of `specs/Choice.antt` and `pending_text` of
//! `specs/Standing.antt`; the crates above cite these too. A device's name comes from `cn_net`
//! (`name_of`), the spelling of numbers, prefixes and paths from `cn_text`. What an answer says is
//! the affair of `cn_core`; which command it answers and where the text goes is left to the crates
//! above.
#![tactic(auto)]

mod answers;
mod choice;
mod names;
mod tables;

pub use answers::{print_answer, print_done, print_pull};
pub use choice::put_choice;
pub use names::{put_name, put_pair};
