//! The plan as a whole.

ghost use Rattle.std.specs.Prelude.{◌≡◌};
ghost use Rattle.toml.specs.View.{table_view};
ghost use Rattle.cn_table.specs.Reading.{Reads};
ghost use Rattle.cn_readnet.specs.Plan.{version_at, only_plan_keys, plan_in, plan_of};

use crate::device::devices_at;
use crate::link::links_at;
use crate::record::{RowDraft, records_at};
use crate::selection::{NameSelection, selection_at};
use cn_base::Items;
use cn_net::Draft;
use cn_table::{bad_shape, document_of, needed, only};
use cn_text::TextAnswer;
use std::alloc::Global;
use toml::Table;

/// A plan as it is written: a network, the names that select the emulated devices, and the records
/// of outside devices, each in the plan's order.
#[derive(Debug, Drop)]
pub struct NetText {
    pub draft: Draft,
    pub selection: NameSelection,
    pub rows: Items<RowDraft>,
}

#[tactic(auto, unfolding(crate::specs::Plan::version_at))]
fn version_at(alloc: Global, table: &Table) -> Result<(), TextAnswer>
    ensures { Reads result (version_at (table_view table.now)) }
{
    let value = needed(alloc, b"", "version", table)?;
    match value.as_integer() {
        None => Err(bad_shape(alloc, b"version")),
        Some(version) => {
            if version == 1 {
                Ok(())
            } else {
                Err(TextAnswer::Version { value: version })
            }
        }
    }
}

#[tactic(auto, unfolding(crate::specs::Plan::only_plan_keys))]
fn only_plan_keys(alloc: Global, table: &Table) -> Result<(), TextAnswer>
    ensures { Reads result (only_plan_keys (table_view table.now)) }
{
    let keys = ["version", "must", "emulate", "device", "link", "record"];
    only(alloc, b"", &keys, table)
}

#[tactic(auto, unfolding(crate::specs::Plan::plan_in))]
fn plan_in(alloc: Global, table: &Table) -> Result<NetText, TextAnswer>
    ensures { Reads result (plan_in (table_view table.now)) }
{
    version_at(alloc, table)?;
    let selection = selection_at(alloc, table)?;
    let devices = devices_at(alloc, table)?;
    let links = links_at(alloc, table)?;
    let rows = records_at(alloc, table)?;
    only_plan_keys(alloc, table)?;
    Ok(NetText {
        draft: Draft { devices, links },
        selection,
        rows,
    })
}

/// The plan that the bytes stand for, or their first fault: bytes that aren't UTF-8, a text that
/// isn't TOML, and then, depth first, the keys in the order of the format. Memory may run out
/// instead.
#[tactic(auto, unfolding(crate::specs::Plan::plan_of))]
pub fn read_net(alloc: Global, bytes: &[u8]) -> Result<NetText, TextAnswer>
    ensures { Reads result (plan_of bytes.now) }
{
    let table = document_of(alloc, bytes)?;
    plan_in(alloc, &table)
}
