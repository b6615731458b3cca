//! Keys of a table, and the kinds of values that hold others.

ghost use Rattle.std.specs.Prelude.{◌≡◌, option_map};
ghost use Rattle.toml.specs.Data.{get_member};
ghost use Rattle.toml.specs.View.{view, table_view, items_view};
ghost use Rattle.cn_table.specs.Reading.{Gives};
ghost use Rattle.cn_table.specs.Tables.{needed, table_of, array_at};

use crate::fault::{bad_key_at, bad_shape, bad_shape_at};
use cn_text::TextAnswer;
use std::alloc::Global;
use toml::{Table, Value};

/// The value of a key. None comes exactly where the key is absent.
pub fn member<'a>(table: &'a Table, key: &str) -> Option<&'a Value>
    ensures { option_map (λ v. view v.now) result ≡ get_member key.now (table_view table.now) }
{
    table.get(key)
}

/// The value of a key that must be there. An absent key is `Key` at its path.
pub fn needed<'a>(
    alloc: Global,
    front: &[u8],
    key: &str,
    table: &'a Table,
) -> Result<&'a Value, TextAnswer>
    ensures { Gives (λ v. view v.now) result (needed front.now key.now (table_view table.now)) }
{
    match member(table, key) {
        Some(value) => Ok(value),
        None => Err(bad_key_at(alloc, front, key.as_bytes())),
    }
}

/// The table that a value is. Another kind is `Shape` at its path.
pub fn table_of<'a>(alloc: Global, path: &[u8], value: &'a Value) -> Result<&'a Table, TextAnswer>
    ensures { Gives (λ t. table_view t.now) result (table_of path.now (view value.now)) }
{
    match value.as_table() {
        Some(table) => Ok(table),
        None => Err(bad_shape(alloc, path)),
    }
}

/// The array at a key, without items where the key is absent. Another kind is `Shape` at its path.
#[tactic(auto, unfolding(crate::specs::Tables::array_at))]
pub fn array_at<'a>(
    alloc: Global,
    front: &[u8],
    key: &str,
    table: &'a Table,
) -> Result<&'a [Value], TextAnswer>
    ensures { Gives (λ v. items_view v.now) result
        (array_at front.now key.now (table_view table.now)) }
{
    match member(table, key) {
        None => Ok(&[]),
        Some(value) => match value.as_array() {
            Some(items) => Ok(items.as_slice()),
            None => Err(bad_shape_at(alloc, front, key.as_bytes())),
        },
    }
}
