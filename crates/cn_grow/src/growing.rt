//! Growth by following links: each member is looked at once, in the order in which the members were
//! found.

ghost use Rattle.std.specs.Prelude.{◌≡◌, All, IfOk, length};
ghost use Rattle.cn_grow.specs.Growth.{IsAbove, IsGrown, layer_of};
ghost use Rattle.cn_grow.specs.Members.{IsExtended, IsMarked};
ghost use Rattle.cn_net.specs.Network.{IsDevice};

use crate::members::{add, add_all};
use cn_base::DeviceId;
use cn_net::{DeviceSet, Net};
use std::alloc::{AllocError, Global};

/// The layer of a device, and 0 where there is no such device.
fn layer(net: &Net, d: DeviceId) -> u8
    ensures { result ≡ layer_of net.now d }
{
    match net.device(d) {
        Some(device) => device.layer,
        None => 0,
    }
}

/// Makes each device that is linked to `d` and has a greater layer a member.
fn add_above(
    net: &Net,
    marks: &mut [bool],
    members: &mut Vec<DeviceId>,
    d: DeviceId,
) -> Result<(), AllocError>
    requires size { length marks.old ≡ length net.now.devices }
    requires marked { IsMarked marks.old members.old.items }
    ensures marked { IfOk result (λ _. IsMarked marks.new members.new.items) }
    ensures added { IfOk result
        (λ _. IsExtended (IsAbove net.now d) members.old.items members.new.items) }
{
    net.valid();
    let lower = layer(net, d);
    for n in net.neighbours(d) {
        if lower < layer(net, n.device) {
            add(marks, members, n.device)?;
        }
    }
    Ok(())
}

/// The least set that holds the given devices and every device that is linked to a member and has a
/// strictly greater layer, whether the link is up or down. The given devices are devices of the
/// network, and so are those of the set. Err comes only for want of memory.
pub fn grow(alloc: Global, net: &Net, must: &DeviceSet) -> Result<DeviceSet, AllocError>
    requires { All (IsDevice net.now) must.now }
    ensures grown { IfOk result (λ set. IsGrown net.now must.now set) }
    ensures within { IfOk result (λ set. All (IsDevice net.now) set) }
{
    let mut marks = vec![in alloc; false; net.count() as usize]?;
    let mut members = Vec::new(alloc);
    add_all(&mut marks, &mut members, must.items())?;
    let mut next = 0;
    while next < members.len() {
        let d = members[next];
        add_above(net, &mut marks, &mut members, d)?;
        next += 1;
    }
    Ok(DeviceSet::make(net, members))
}
