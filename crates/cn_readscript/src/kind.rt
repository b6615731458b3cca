//! The kinds of commands.

ghost use Rattle.std.specs.Prelude.{◌≡◌};
ghost use Rattle.toml.specs.View.{table_view};
ghost use Rattle.cn_table.specs.Reading.{Reads};
ghost use Rattle.cn_readscript.specs.Script.{kind_of, kind_at};

use cn_table::{bad_shape_at, bad_value_at, needed};
use cn_text::TextAnswer;
use std::alloc::Global;
use toml::Table;

/// The kind of a command, on which its other keys depend.
#[derive(Clone, Copy)]
pub enum Kind {
    Pull,
    Work,
}

fn kind_of(word: &str) -> Option<Kind>
    ensures { result ≡ kind_of word.now }
{
    if word == "pull" {
        Some(Kind::Pull)
    } else if word == "work" {
        Some(Kind::Work)
    } else {
        None
    }
}

/// The kind of the command that a table is.
#[tactic(auto, unfolding(crate::specs::Script::kind_at))]
pub fn kind_at(alloc: Global, front: &[u8], table: &Table) -> Result<Kind, TextAnswer>
    ensures { Reads result (kind_at front.now (table_view table.now)) }
{
    let value = needed(alloc, front, "kind", table)?;
    match value.as_str() {
        None => Err(bad_shape_at(alloc, front, b"kind")),
        Some(word) => match kind_of(word) {
            Some(kind) => Ok(kind),
            None => Err(bad_value_at(alloc, front, b"kind")),
        },
    }
}
