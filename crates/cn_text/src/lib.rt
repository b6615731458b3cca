//! What the project's texts are made of, and why a text stands for nothing.
//!
//! The atoms of texts are numbers, addresses, prefixes, paths and the words for an ORIGIN. `read_*`
//! reads one at a place of a text, and `put_*` appends one; a word stands alone. Each has one
//! spelling: `specs/Number.antt` and `specs/Atoms.antt` say what is read, `specs/Printed.antt` what
//! is printed, and the laws here that the two are the same. A string of a plan is an atom as a
//! whole, which `whole` tests. The crates above also take from here the one type of the first fault
//! of a text, `TextAnswer`, and what lines of all texts share: two names (`put_pair`) and their
//! end.
#![tactic(auto)]

mod answer;
mod atoms;
mod names;
mod number;
mod origin;
mod path;
mod print;

pub use answer::{PathText, TextAnswer};
pub use atoms::{
    address_has_one_spelling, address_of, prefix_has_one_spelling, prefix_of, read_address,
    read_prefix, whole,
};
pub use names::put_pair;
pub use number::{Bad, number_has_one_spelling, read_number};
pub use origin::{origin_has_one_spelling, origin_of, origin_text};
pub use path::{PathAnswer, path_has_one_spelling, path_of, read_path};
pub use print::{put_address, put_number, put_path, put_prefix};
