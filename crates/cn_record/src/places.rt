//! Which devices a prefix concerns: those that originate it, and those of which there is a row for
//! it.

ghost use Rattle.std.specs.Prelude.{◌≡◌, ◌++◌, Contains, IfOk, OnOk, filter, map};
ghost use Rattle.std.specs.Ordering.{is_eq};
ghost use Rattle.cn_base.specs.Table.{prefix_cmp};
ghost use Rattle.cn_base.specs.declared.ids.DeviceId.{DeviceId as DeviceNumber};
ghost use Rattle.cn_net.specs.Islands.{label_of};
ghost use Rattle.cn_record.specs.Places.{AddsDevices, AddsOwn, ArePlaces, HasOriginators, HasRowDevices, IsByPrefix, IsInside, at_device, is_at, place_of};

use crate::saved::Row;
use cn_base::{DeviceId, Prefix};
use cn_lists::part_at;
use cn_net::{Labels, Net, Own};
use std::alloc::{AllocError, Global};

/// A prefix, and a device that originates it, or of which there is a row for it.
#[derive(Clone, Copy, Debug)]
pub struct PrefixDevice {
    pub prefix: Prefix,
    pub device: DeviceId,
}

/// For each prefix the devices that originate it, and those of which there is a row for it.
#[derive(Drop)]
pub struct Places {
    pub originators: Vec<PrefixDevice>,
    pub recorded: Vec<PrefixDevice>,
}

// Puts the prefixes of a device at the end.
fn add_own(places: &mut Vec<PrefixDevice>, device: DeviceId, own: &[Own]) -> Result<(), AllocError>
    ensures { OnOk result
        (places.new.items ≡ places.old.items ++ map (λ o. at_device device o.prefix) own.now) }
{
    for item in own {
        places.push(PrefixDevice {
            prefix: item.prefix,
            device,
        })?;
    }
    Ok(())
}

// Puts the prefixes that the device with this number originates at the end.
fn add_device(places: &mut Vec<PrefixDevice>, net: &Net, device: DeviceId) -> Result<(), AllocError>
    ensures { OnOk result (AddsOwn net.now device places.old.items places.new.items) }
{
    match net.device(device) {
        Some(found) => add_own(places, device, found.body.own.items()),
        None => Ok(()),
    }
}

// The prefixes that devices originate, each with the device, by prefix.
fn originators(alloc: Global, net: &Net) -> Result<Vec<PrefixDevice>, AllocError>
    ensures all { IfOk result (λ v. HasOriginators net.now v.items) }
    ensures ordered { IfOk result (λ v. IsByPrefix v.items) }
{
    let mut places = Vec::new(alloc);
    for number in 0..net.count() {
        add_device(&mut places, net, DeviceId(number))?;
    }
    places.sort_unstable_by_key(|place| place.prefix);
    Ok(places)
}

// The prefixes and devices of rows, by prefix.
fn row_devices(alloc: Global, rows: &[Row]) -> Result<Vec<PrefixDevice>, AllocError>
    ensures all { IfOk result (λ v. HasRowDevices rows.now v.items) }
    ensures ordered { IfOk result (λ v. IsByPrefix v.items) }
{
    let mut places = Vec::new(alloc);
    for row in rows {
        places.push(PrefixDevice {
            prefix: row.prefix,
            device: row.device,
        })?;
    }
    places.sort_unstable_by_key(|place| place.prefix);
    Ok(places)
}

/// The places of a network and of rows.
pub fn places_of(alloc: Global, net: &Net, rows: &[Row]) -> Result<Places, AllocError>
    ensures { IfOk result (ArePlaces net.now rows.now) }
{
    Ok(Places {
        originators: originators(alloc, net)?,
        recorded: row_devices(alloc, rows)?,
    })
}

/// Those of one prefix.
pub fn of_prefix<'a>(places: &'a [PrefixDevice], prefix: &Prefix) -> &'a [PrefixDevice]
    requires { IsByPrefix places.now }
    ensures { result.now ≡ filter (is_at prefix.now) places.now }
{
    part_at(places, prefix, |place| place.prefix)
}

/// Puts those of these devices that are of the island at the end.
pub fn add_inside(
    devices: &mut Vec<DeviceId>,
    net: &Net,
    labels: &Labels,
    island: DeviceId,
    places: &[PrefixDevice],
) -> Result<(), AllocError>
    ensures { OnOk result (AddsDevices
        (λ d. Contains (map (λ x. x.device) places.now) d
        × IsInside net.now (label_of labels.now) island d)
        (IsInside net.now (label_of labels.now) island) devices.old.items devices.new.items) }
{
    for place in places {
        if place.device.0 < net.count() && labels.of(place.device) == Some(island) {
            devices.push(place.device)?;
        }
    }
    Ok(())
}
