//! The records of a plan: routes that outside devices hold, as they are written.

ghost use Rattle.std.specs.Prelude.{◌≡◌};
ghost use Rattle.toml.specs.View.{view, table_view};
ghost use Rattle.cn_table.specs.Reading.{Reads};
ghost use Rattle.cn_readnet.specs.Plan.{record_in, record_of, records_at};

use cn_base::{AsPath, Items, Name, Origin, Prefix};
use cn_table::{
    Reader, array_at, each, front_of, name_at, name_if_at, only, origin_at, path_at, prefix_at,
    table_of,
};
use cn_text::TextAnswer;
use std::alloc::Global;
use toml::{Table, Value};

/// What a device holds for a prefix, by names: the AS_PATH and the ORIGIN, and the device that sent
/// it. Without a sender the route is the device's own.
#[derive(Debug, Drop)]
pub struct RowDraft {
    pub device: Name,
    pub prefix: Prefix,
    pub path: AsPath,
    pub origin: Origin,
    pub from: Option<Name>,
}

#[tactic(auto, unfolding(crate::specs::Plan::record_in))]
fn record_in(alloc: Global, front: &[u8], table: &Table) -> Result<RowDraft, TextAnswer>
    ensures { Reads result (record_in front.now (table_view table.now)) }
{
    let device = name_at(alloc, front, "device", table)?;
    let prefix = prefix_at(alloc, front, "prefix", table)?;
    let path = path_at(alloc, front, "path", table)?;
    let origin = origin_at(alloc, front, "origin", table)?;
    let from = name_if_at(alloc, front, "from", table)?;
    only(
        alloc,
        front,
        &["device", "prefix", "path", "origin", "from"],
        table,
    )?;
    Ok(RowDraft {
        device,
        prefix,
        path,
        origin,
        from,
    })
}

struct RecordReader;

impl Reader for RecordReader {
    type Item = RowDraft;

    ghost reads = { λ _. record_of };

    #[tactic(auto, unfolding(crate::specs::Plan::record_of))]
    fn read(&self, alloc: Global, path: &[u8], value: &Value) -> Result<RowDraft, TextAnswer> {
        let table = table_of(alloc, path, value)?;
        let front = front_of(alloc, path)?;
        record_in(alloc, &front, table)
    }
}

/// The records of a plan, in its order.
#[tactic(auto, unfolding(crate::specs::Plan::records_at))]
pub fn records_at(alloc: Global, table: &Table) -> Result<Items<RowDraft>, TextAnswer>
    ensures { Reads result (records_at (table_view table.now)) }
{
    let values = array_at(alloc, b"", "record", table)?;
    each(alloc, &RecordReader, b"record", values)
}
