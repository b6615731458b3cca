//! The keys that a table may have.

ghost use Rattle.std.specs.Prelude.{◌≡◌, ◌++◌, List, ℕ, Some, map, string_bytes, IfOk};
ghost use Rattle.std.specs.List.{list_any};
ghost use Rattle.std.specs.Str.{bytes_eq};
ghost use Rattle.toml.specs.Data.{Members};
ghost use Rattle.toml.specs.View.{table_view};
ghost use Rattle.cn_text.specs.declared.answer.TextAnswer.{TextAnswer};
ghost use Rattle.cn_table.specs.Reading.{Reads, IsFault};
ghost use Rattle.cn_table.specs.Order.{KeysAscend, IsLeastUnlisted};
ghost use Rattle.cn_table.specs.Tables.{shown, only, unlisted};

use crate::fault::bad_key_at;
use cn_text::TextAnswer;
use std::alloc::{AllocError, Global};
use toml::Table;

fn is_listed(listed: &[&str], key: &str) -> bool
    ensures { result ≡ list_any (λ other. bytes_eq key.now other.now) listed.now }
{
    listed.iter().any(|other| key == *other)
}

fn shown(byte: u8) -> u8
    ensures { result ≡ shown byte }
{
    if byte >= 0x21 && byte <= 0x7E {
        byte
    } else {
        b'?'
    }
}

fn shown_key(alloc: Global, key: &[u8]) -> Result<Vec<u8>, AllocError>
    ensures { IfOk result (λ text. text.items ≡ map shown key.now) }
{
    key.iter().map(|byte| shown(*byte)).collect(alloc)
}

#[cold]
fn unlisted_key(alloc: Global, front: &[u8], key: &String) -> TextAnswer
    ensures { IsFault result (TextAnswer.Key (front.now ++ map shown (string_bytes key.now))) }
{
    match shown_key(alloc, key.as_bytes()) {
        Ok(shown) => bad_key_at(alloc, front, &shown),
        Err(_) => TextAnswer::Memory,
    }
}

/// The table has no keys but the listed ones, any of which may be absent. Another is `Key` at its
/// path, with `?` for each byte that isn't a visible character of ASCII; of several it is the
/// least.
pub fn only(alloc: Global, front: &[u8], listed: &[&str], table: &Table) -> Result<(), TextAnswer>
    ensures { Reads result (only front.now (map (λ k. k.now) listed.now) (table_view table.now)) }
{
    for (key, _value) in table {
        if !is_listed(listed, key.as_str()) {
            return Err(unlisted_key(alloc, front, key));
        }
    }
    Ok(())
}

/// Does nothing: the keys of a table ascend by its type, and a proof that needs to know so cites
/// this call.
pub fn keys_ascend(table: &Table)
    ensures { KeysAscend (table_view table.now) }
{
    let _ = table.len();
}

/// Of keys that ascend, the one that is told as unlisted is the least of those that aren't listed.
pub fn unlisted_is_least()
    ensures { (listed : List (List ℕ)) (ms : Members) (k : List ℕ) → KeysAscend ms
        → unlisted listed ms ≡ Some k → IsLeastUnlisted listed ms k }
{}
