//! Arrays, whose items are read one after another.

ghost use Rattle.std.specs.Prelude.{List, ℕ, Result};
ghost use Rattle.toml.specs.Data.{Data};
ghost use Rattle.toml.specs.View.{view, items_view};
ghost use Rattle.cn_text.specs.declared.answer.TextAnswer.{TextAnswer};
ghost use Rattle.cn_table.specs.Reading.{Reads};
ghost use Rattle.cn_table.specs.Tables.{name_in, each};

use crate::atoms::name_in;
use crate::fault::item_path;
use cn_base::{Items, Name};
use cn_text::TextAnswer;
use std::alloc::Global;
use toml::Value;

/// Reads an item of an array. What it knows beside the text are its fields.
pub trait Reader {
    type Item: Drop;

    /// What is read from a value at a path.
    ghost reads: { Self → List ℕ → Data → Result Self.Item TextAnswer };

    /// The item that a value at a path is.
    fn read(&self, alloc: Global, path: &[u8], value: &Value) -> Result<Self::Item, TextAnswer>
        ensures { Reads result (reads self.now path.now (view value.now)) };
}

/// Reads names.
pub struct NameReader;

impl Reader for NameReader {
    type Item = Name;

    ghost reads = { λ _. name_in };

    fn read(&self, alloc: Global, path: &[u8], value: &Value) -> Result<Name, TextAnswer> {
        name_in(alloc, path, value)
    }
}

/// All items of the array at this path, each read whole before the next. The fault is that of the
/// first item that has one.
pub fn each<R: Reader>(
    alloc: Global,
    reader: &R,
    path: &[u8],
    values: &[Value],
) -> Result<Items<R::Item>, TextAnswer>
    ensures { Reads result (each (R.reads reader.now) path.now 0 (items_view values.now)) }
{
    let mut items = Vec::new(alloc);
    for (place, value) in values.iter().enumerate() {
        let here = item_path(alloc, path, place)?;
        let item = reader.read(alloc, &here, value)?;
        items.push(item)?;
    }
    Ok(Items::make(items))
}
