//! The devices of a plan.

ghost use Rattle.std.specs.Prelude.{◌≡◌};
ghost use Rattle.toml.specs.View.{view, table_view};
ghost use Rattle.cn_table.specs.Reading.{Reads};
ghost use Rattle.cn_readnet.specs.Plan.{device_in, device_of, devices_at};

use crate::own::own_at;
use crate::peer::peers_at;
use cn_base::{Asn, Items, RouterId};
use cn_net::{BodyDraft, DeviceDraft};
use cn_table::{Reader, address_at, array_at, each, front_of, name_at, number_at, only, table_of};
use cn_text::TextAnswer;
use std::alloc::Global;
use toml::{Table, Value};

#[tactic(auto, unfolding(crate::specs::Plan::device_in))]
fn device_in(alloc: Global, front: &[u8], table: &Table) -> Result<DeviceDraft, TextAnswer>
    ensures { Reads result (device_in front.now (table_view table.now)) }
{
    let name = name_at(alloc, front, "name", table)?;
    let layer = number_at(alloc, 0, 255, front, "layer", table)?;
    let asn = number_at(alloc, 1, 4_294_967_295, front, "asn", table)?;
    let id = address_at(alloc, front, "id", table)?;
    let own = own_at(alloc, front, table)?;
    let peers = peers_at(alloc, front, table)?;
    let keys = ["name", "layer", "asn", "id", "own", "peer"];
    only(alloc, front, &keys, table)?;
    Ok(DeviceDraft {
        name,
        layer: layer as u8,
        id: RouterId(id),
        body: BodyDraft {
            asn: Asn(asn),
            own,
            peers,
        },
    })
}

struct DeviceReader;

impl Reader for DeviceReader {
    type Item = DeviceDraft;

    ghost reads = { λ _. device_of };

    #[tactic(auto, unfolding(crate::specs::Plan::device_of))]
    fn read(&self, alloc: Global, path: &[u8], value: &Value) -> Result<DeviceDraft, TextAnswer> {
        let table = table_of(alloc, path, value)?;
        let front = front_of(alloc, path)?;
        device_in(alloc, &front, table)
    }
}

/// The devices of a plan, in its order.
#[tactic(auto, unfolding(crate::specs::Plan::devices_at))]
pub fn devices_at(alloc: Global, table: &Table) -> Result<Items<DeviceDraft>, TextAnswer>
    ensures { Reads result (devices_at (table_view table.now)) }
{
    let values = array_at(alloc, b"", "device", table)?;
    each(alloc, &DeviceReader, b"device", values)
}
