//! Reads the tables of a text that is TOML. The first fault is told with its path, as
//! `device[0].own[2]`.
//!
//! `specs/Reading.antt` says how reading goes on in steps, of which the first that fails gives the
//! fault, `specs/Document.antt` which table bytes are, and `specs/Tables.antt` what is read from a
//! value, a key, an array and a table. A crate that reads a kind of text writes one definition and
//! one function for each of its tables, key by key in the order in which faults are told, and a
//! `Reader` for each of its arrays; `only` comes last.
//!
//! A contract `Reads result definition` or `Gives view result definition` says that the call
//! answers what the definition does, both the value and the fault, unless memory ran out. Functions
//! whose name ends with `_in` take a value and its path, those with `_at` a table, a key, and the
//! `front` that stands before a key in its path: nothing at the top, and else the table's path and
//! a dot.
#![tactic(auto)]

mod atoms;
mod document;
mod fault;
mod items;
mod keys;
mod lookup;

pub use atoms::{
    address_at, address_in, name_at, name_if_at, name_in, number_at, origin_at, path_at, prefix_at,
    prefix_in,
};
pub use document::document_of;
pub use fault::{bad_key_at, bad_shape, bad_shape_at, bad_value, bad_value_at, front_of, key_path};
pub use items::{NameReader, Reader, each};
pub use keys::{keys_ascend, only, unlisted_is_least};
pub use lookup::{array_at, member, needed, table_of};
