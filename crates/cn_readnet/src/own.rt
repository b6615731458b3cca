//! What a device originates, as it is written.

ghost use Rattle.std.specs.Prelude.{◌≡◌};
ghost use Rattle.toml.specs.View.{view, table_view};
ghost use Rattle.cn_table.specs.Reading.{Reads};
ghost use Rattle.cn_readnet.specs.Atoms.{origin_behind, own_of};
ghost use Rattle.cn_readnet.specs.Plan.{own_in, own_at};

use cn_base::{Items, Origin};
use cn_net::Own;
use cn_table::{Reader, array_at, bad_shape, bad_value, each, key_path};
use cn_text::{TextAnswer, origin_of, read_prefix};
use std::alloc::Global;
use toml::{Table, Value};

/// The ORIGIN behind a prefix, which is igp where nothing is.
fn origin_behind(rest: &[u8]) -> Option<Origin>
    ensures { result ≡ origin_behind rest.now }
{
    match rest {
        [] => Some(Origin::Igp),
        [b' ', word @ ..] => origin_of(word),
        _ => None,
    }
}

/// The prefix that a text is as a whole, or a prefix, one space and an ORIGIN. None comes exactly
/// where it is neither.
fn own_of(text: &[u8]) -> Option<Own>
    ensures { result ≡ own_of text.now }
{
    match read_prefix(text, 0) {
        Ok((prefix, after)) => match origin_behind(&text[after..]) {
            Some(origin) => Some(Own { prefix, origin }),
            None => None,
        },
        Err(_) => None,
    }
}

struct OwnReader;

impl Reader for OwnReader {
    type Item = Own;

    ghost reads = { λ _. own_in };

    #[tactic(auto, unfolding(crate::specs::Plan::own_in))]
    fn read(&self, alloc: Global, path: &[u8], value: &Value) -> Result<Own, TextAnswer> {
        match value.as_str() {
            None => Err(bad_shape(alloc, path)),
            Some(text) => match own_of(text.as_bytes()) {
                Some(own) => Ok(own),
                None => Err(bad_value(alloc, path)),
            },
        }
    }
}

/// What a device originates, in the plan's order.
#[tactic(auto, unfolding(crate::specs::Plan::own_at))]
pub fn own_at(alloc: Global, front: &[u8], table: &Table) -> Result<Items<Own>, TextAnswer>
    ensures { Reads result (own_at front.now (table_view table.now)) }
{
    let values = array_at(alloc, front, "own", table)?;
    let path = key_path(alloc, front, b"own")?;
    each(alloc, &OwnReader, &path, values)
}
