//! Values that are one thing: names, addresses, prefixes, paths, the words for an ORIGIN, and
//! integers. Another kind of value is `Shape` at its path, a value outside its rule is `Value`, and
//! a key that isn't there is `Key`.

ghost use Rattle.std.specs.Prelude.{◌≡◌, ◌≤◌, IfOk, IfSome};
ghost use Rattle.toml.specs.View.{view, table_view};
ghost use Rattle.cn_table.specs.Reading.{Reads};
ghost use Rattle.cn_table.specs.Tables.{name_in, name_at, name_if_at, address_in, address_at, prefix_in, prefix_at, path_at, origin_at, number_within, number_at};

use crate::fault::{bad_shape, bad_shape_at, bad_value, bad_value_at};
use crate::lookup::{member, needed};
use cn_base::{AsPath, Name, Origin, Prefix};
use cn_text::{TextAnswer, address_of, origin_of, path_of, prefix_of};
use std::alloc::Global;
use toml::{Table, Value};

/// The name that a string is.
#[tactic(auto, unfolding(crate::specs::Tables::name_in))]
pub fn name_in(alloc: Global, path: &[u8], value: &Value) -> Result<Name, TextAnswer>
    ensures { Reads result (name_in path.now (view value.now)) }
{
    match value.as_str() {
        None => Err(bad_shape(alloc, path)),
        Some(text) => match Name::new(alloc, text)? {
            Some(name) => Ok(name),
            None => Err(bad_value(alloc, path)),
        },
    }
}

/// The name at a key that must be there.
#[tactic(auto, unfolding(crate::specs::Tables::name_at, crate::specs::Tables::name_in))]
pub fn name_at(alloc: Global, front: &[u8], key: &str, table: &Table) -> Result<Name, TextAnswer>
    ensures { Reads result (name_at front.now key.now (table_view table.now)) }
{
    let value = needed(alloc, front, key, table)?;
    match value.as_str() {
        None => Err(bad_shape_at(alloc, front, key.as_bytes())),
        Some(text) => match Name::new(alloc, text)? {
            Some(name) => Ok(name),
            None => Err(bad_value_at(alloc, front, key.as_bytes())),
        },
    }
}

/// The name at a key that may be absent.
#[tactic(auto, unfolding(crate::specs::Tables::name_if_at, crate::specs::Tables::name_in))]
pub fn name_if_at(
    alloc: Global,
    front: &[u8],
    key: &str,
    table: &Table,
) -> Result<Option<Name>, TextAnswer>
    ensures { Reads result (name_if_at front.now key.now (table_view table.now)) }
{
    let Some(value) = member(table, key) else {
        return Ok(None);
    };
    match value.as_str() {
        None => Err(bad_shape_at(alloc, front, key.as_bytes())),
        Some(text) => match Name::new(alloc, text)? {
            Some(name) => Ok(Some(name)),
            None => Err(bad_value_at(alloc, front, key.as_bytes())),
        },
    }
}

/// The address that a string is as a whole, its four octets as one number.
#[tactic(auto, unfolding(crate::specs::Tables::address_in))]
pub fn address_in(alloc: Global, path: &[u8], value: &Value) -> Result<u32, TextAnswer>
    ensures { Reads result (address_in path.now (view value.now)) }
{
    match value.as_str() {
        None => Err(bad_shape(alloc, path)),
        Some(text) => match address_of(text.as_bytes()) {
            Some(address) => Ok(address),
            None => Err(bad_value(alloc, path)),
        },
    }
}

/// The address at a key that must be there.
#[tactic(auto, unfolding(crate::specs::Tables::address_at, crate::specs::Tables::address_in))]
pub fn address_at(alloc: Global, front: &[u8], key: &str, table: &Table) -> Result<u32, TextAnswer>
    ensures { Reads result (address_at front.now key.now (table_view table.now)) }
{
    let value = needed(alloc, front, key, table)?;
    match value.as_str() {
        None => Err(bad_shape_at(alloc, front, key.as_bytes())),
        Some(text) => match address_of(text.as_bytes()) {
            Some(address) => Ok(address),
            None => Err(bad_value_at(alloc, front, key.as_bytes())),
        },
    }
}

/// The prefix that a string is as a whole.
#[tactic(auto, unfolding(crate::specs::Tables::prefix_in))]
pub fn prefix_in(alloc: Global, path: &[u8], value: &Value) -> Result<Prefix, TextAnswer>
    ensures { Reads result (prefix_in path.now (view value.now)) }
{
    match value.as_str() {
        None => Err(bad_shape(alloc, path)),
        Some(text) => match prefix_of(text.as_bytes()) {
            Some(prefix) => Ok(prefix),
            None => Err(bad_value(alloc, path)),
        },
    }
}

/// The prefix at a key that must be there.
#[tactic(auto, unfolding(crate::specs::Tables::prefix_at, crate::specs::Tables::prefix_in))]
pub fn prefix_at(
    alloc: Global,
    front: &[u8],
    key: &str,
    table: &Table,
) -> Result<Prefix, TextAnswer>
    ensures { Reads result (prefix_at front.now key.now (table_view table.now)) }
{
    let value = needed(alloc, front, key, table)?;
    match value.as_str() {
        None => Err(bad_shape_at(alloc, front, key.as_bytes())),
        Some(text) => match prefix_of(text.as_bytes()) {
            Some(prefix) => Ok(prefix),
            None => Err(bad_value_at(alloc, front, key.as_bytes())),
        },
    }
}

/// The path of AS numbers at a key that must be there.
#[tactic(auto, unfolding(crate::specs::Tables::path_at))]
pub fn path_at(alloc: Global, front: &[u8], key: &str, table: &Table) -> Result<AsPath, TextAnswer>
    ensures { Reads result (path_at front.now key.now (table_view table.now)) }
{
    let value = needed(alloc, front, key, table)?;
    match value.as_str() {
        None => Err(bad_shape_at(alloc, front, key.as_bytes())),
        Some(text) => match path_of(alloc, text.as_bytes())? {
            Some(path) => Ok(path),
            None => Err(bad_value_at(alloc, front, key.as_bytes())),
        },
    }
}

/// The ORIGIN at a key that must be there.
#[tactic(auto, unfolding(crate::specs::Tables::origin_at))]
pub fn origin_at(
    alloc: Global,
    front: &[u8],
    key: &str,
    table: &Table,
) -> Result<Origin, TextAnswer>
    ensures { Reads result (origin_at front.now key.now (table_view table.now)) }
{
    let value = needed(alloc, front, key, table)?;
    match value.as_str() {
        None => Err(bad_shape_at(alloc, front, key.as_bytes())),
        Some(text) => match origin_of(text.as_bytes()) {
            Some(origin) => Ok(origin),
            None => Err(bad_value_at(alloc, front, key.as_bytes())),
        },
    }
}

fn number_within(low: u32, high: u32, number: i64) -> Option<u32>
    ensures value { result ≡ number_within low high number }
    ensures within { IfSome result (λ n. (low ≤ n) × (n ≤ high)) }
{
    match u32::try_from(number) {
        Ok(number) if low <= number && number <= high => Some(number),
        _ => None,
    }
}

/// The integer from `low` to `high` at a key that must be there.
#[tactic(auto, unfolding(crate::specs::Tables::number_at))]
pub fn number_at(
    alloc: Global,
    low: u32,
    high: u32,
    front: &[u8],
    key: &str,
    table: &Table,
) -> Result<u32, TextAnswer>
    ensures reads { Reads result (number_at low high front.now key.now (table_view table.now)) }
    ensures within { IfOk result (λ n. (low ≤ n) × (n ≤ high)) }
{
    let value = needed(alloc, front, key, table)?;
    match value.as_integer() {
        None => Err(bad_shape_at(alloc, front, key.as_bytes())),
        Some(number) => match number_within(low, high, number) {
            Some(number) => Ok(number),
            None => Err(bad_value_at(alloc, front, key.as_bytes())),
        },
    }
}
