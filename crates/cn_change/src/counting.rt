//! How many prefixes are originated once a device has another body.

ghost use Rattle.std.specs.Prelude.{◌≡◌, ◌==◌, ◌||◌, IfOk, OnOk, if◌then◌else◌, map};
ghost use Rattle.std.specs.List.{list_any};
ghost use Rattle.cn_base.specs.Cidr.{Cidr, same_prefix};
ghost use Rattle.cn_net.specs.Changed.{with_body};
ghost use Rattle.cn_net.specs.Limits.{prefix_count};
ghost use Rattle.cn_net.specs.Network.{IsDevice};

use cn_base::{DeviceId, Prefix};
use cn_net::{Body, Device, Net, Own};
use indexmap::IndexSet;
use std::alloc::{AllocError, Global};

/// Puts those prefixes of a list into the set that aren't in it yet.
fn add_own(prefixes: &mut IndexSet<Prefix>, own: &[Own]) -> Result<(), AllocError>
    ensures { OnOk result ((q : Cidr)
        → list_any (same_prefix q) prefixes.new.keys
        ≡ (list_any (same_prefix q) prefixes.old.keys
        || list_any (same_prefix q) (map (λ o. o.prefix) own.now))) }
{
    for one in own {
        prefixes.insert(one.prefix)?;
    }
    Ok(())
}

/// What the device at a place originates once the device d has that body.
fn own_at<'a>(place: usize, device: &'a Device, d: DeviceId, body: &'a Body) -> &'a [Own]
    ensures { result.now ≡ (if place == d.0 then body.now.own else device.now.body.own) }
{
    if place == d.0 as usize {
        body.own.items()
    } else {
        device.body.own.items()
    }
}

/// How many distinct prefixes the devices of the network originate once this one has that body.
pub fn prefix_count_with(
    alloc: Global,
    net: &Net,
    d: DeviceId,
    body: &Body,
) -> Result<u64, AllocError>
    requires { IsDevice net.now d }
    ensures { IfOk result (λ count. count ≡ prefix_count (with_body net.now d body.now)) }
{
    let mut prefixes = IndexSet::new(alloc);
    for (place, device) in net.devices().iter().enumerate() {
        add_own(&mut prefixes, own_at(place, device, d, body))?;
    }
    Ok(prefixes.len() as u64)
}
