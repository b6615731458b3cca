//! Reads the text of a script.

ghost use Rattle.std.specs.Prelude.{◌≡◌};
ghost use Rattle.toml.specs.View.{table_view, items_view};
ghost use Rattle.cn_table.specs.Reading.{Reads};
ghost use Rattle.cn_readscript.specs.Script.{version_at, command_in, command_of, at_most, commands_at, script_in, script_of};

use crate::kind::{Kind, kind_at};
use cn_base::Items;
use cn_change::{Command, Script};
use cn_table::{
    Reader, array_at, bad_shape, document_of, each, front_of, needed, number_at, only, table_of,
};
use cn_text::TextAnswer;
use std::alloc::Global;
use toml::{Table, Value};

#[tactic(auto, unfolding(crate::specs::Script::version_at))]
fn version_at(alloc: Global, table: &Table) -> Result<(), TextAnswer>
    ensures { Reads result (version_at (table_view table.now)) }
{
    let value = needed(alloc, b"", "version", table)?;
    match value.as_integer() {
        None => Err(bad_shape(alloc, b"version")),
        Some(version) => {
            if version == 1 {
                Ok(())
            } else {
                Err(TextAnswer::Version { value: version })
            }
        }
    }
}

#[tactic(auto, unfolding(crate::specs::Script::command_in))]
fn command_in(alloc: Global, kind: Kind, front: &[u8], table: &Table) -> Result<Command, TextAnswer>
    ensures { Reads result (command_in kind front.now (table_view table.now)) }
{
    match kind {
        Kind::Pull => {
            only(alloc, front, &["kind"], table)?;
            Ok(Command::Pull)
        }
        Kind::Work => {
            let count = number_at(alloc, 1, 1_000_000, front, "count", table)?;
            only(alloc, front, &["kind", "count"], table)?;
            Ok(Command::Work { count })
        }
    }
}

struct CommandReader;

impl Reader for CommandReader {
    type Item = Command;

    ghost reads = { λ _. command_of };

    #[tactic(auto, unfolding(crate::specs::Script::command_of))]
    fn read(&self, alloc: Global, path: &[u8], value: &Value) -> Result<Command, TextAnswer> {
        let table = table_of(alloc, path, value)?;
        let front = front_of(alloc, path)?;
        let kind = kind_at(alloc, &front, table)?;
        command_in(alloc, kind, &front, table)
    }
}

fn at_most(most: usize, values: &[Value]) -> Result<(), TextAnswer>
    ensures { Reads result (at_most most (items_view values.now)) }
{
    if values.len() <= most {
        Ok(())
    } else {
        Err(TextAnswer::TooLong {
            count: values.len() as u64,
        })
    }
}

#[tactic(auto, unfolding(crate::specs::Script::commands_at))]
fn commands_at(alloc: Global, table: &Table) -> Result<Items<Command>, TextAnswer>
    ensures { Reads result (commands_at (table_view table.now)) }
{
    let values = array_at(alloc, b"", "command", table)?;
    at_most(10_000, values)?;
    each(alloc, &CommandReader, b"command", values)
}

#[tactic(auto, unfolding(crate::specs::Script::script_in))]
fn script_in(alloc: Global, table: &Table) -> Result<Script, TextAnswer>
    ensures { Reads result (script_in (table_view table.now)) }
{
    version_at(alloc, table)?;
    let commands = commands_at(alloc, table)?;
    only(alloc, b"", &["version", "command"], table)?;
    Ok(Script::make(commands.into_vec()))
}

/// The script that the bytes stand for, or their first fault: bytes that aren't UTF-8, a text that
/// isn't TOML, and then, depth first, the keys in the order of the format. More than 10,000
/// commands are told before any of them is read. Memory may run out instead.
#[tactic(auto, unfolding(crate::specs::Script::script_of))]
pub fn read_script(alloc: Global, bytes: &[u8]) -> Result<Script, TextAnswer>
    ensures { Reads result (script_of bytes.now) }
{
    let table = document_of(alloc, bytes)?;
    script_in(alloc, &table)
}
