//! The links of a plan.

ghost use Rattle.std.specs.Prelude.{◌≡◌};
ghost use Rattle.toml.specs.View.{view, table_view};
ghost use Rattle.cn_table.specs.Reading.{Reads};
ghost use Rattle.cn_readnet.specs.Plan.{link_in, link_of, links_at, up_at};

use cn_base::Items;
use cn_net::LinkDraft;
use cn_table::{Reader, array_at, bad_shape_at, each, front_of, member, name_at, only, table_of};
use cn_text::TextAnswer;
use std::alloc::Global;
use toml::{Table, Value};

/// Whether a link is up, which it is where the key is absent.
#[tactic(auto, unfolding(crate::specs::Plan::up_at))]
fn up_at(alloc: Global, front: &[u8], table: &Table) -> Result<bool, TextAnswer>
    ensures { Reads result (up_at front.now (table_view table.now)) }
{
    match member(table, "up") {
        None => Ok(true),
        Some(value) => match value.as_bool() {
            Some(up) => Ok(up),
            None => Err(bad_shape_at(alloc, front, b"up")),
        },
    }
}

#[tactic(auto, unfolding(crate::specs::Plan::link_in))]
fn link_in(alloc: Global, front: &[u8], table: &Table) -> Result<LinkDraft, TextAnswer>
    ensures { Reads result (link_in front.now (table_view table.now)) }
{
    let a = name_at(alloc, front, "a", table)?;
    let b = name_at(alloc, front, "b", table)?;
    let up = up_at(alloc, front, table)?;
    only(alloc, front, &["a", "b", "up"], table)?;
    Ok(LinkDraft { a, b, up })
}

struct LinkReader;

impl Reader for LinkReader {
    type Item = LinkDraft;

    ghost reads = { λ _. link_of };

    #[tactic(auto, unfolding(crate::specs::Plan::link_of))]
    fn read(&self, alloc: Global, path: &[u8], value: &Value) -> Result<LinkDraft, TextAnswer> {
        let table = table_of(alloc, path, value)?;
        let front = front_of(alloc, path)?;
        link_in(alloc, &front, table)
    }
}

/// The links of a plan, in its order.
#[tactic(auto, unfolding(crate::specs::Plan::links_at))]
pub fn links_at(alloc: Global, table: &Table) -> Result<Items<LinkDraft>, TextAnswer>
    ensures { Reads result (links_at (table_view table.now)) }
{
    let values = array_at(alloc, b"", "link", table)?;
    each(alloc, &LinkReader, b"link", values)
}
