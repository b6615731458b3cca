//! Islands by their least devices.

ghost use Rattle.std.specs.Prelude.{◌≡◌, IfOk, length, map, option_and_then};
ghost use Rattle.std.specs.BTreeMap.{get};
ghost use Rattle.std.specs.List.{range_with_len};
ghost use Rattle.cn_base.specs.declared.ids.DeviceId.{DeviceId as DeviceNumber};
ghost use Rattle.cn_net.specs.Islands.{HaveSameIslands, label_of};
ghost use Rattle.cn_cert.specs.Steps.{AreNames, IsLabelled, IsLeastAmong, id_cmp};

use cn_base::DeviceId;
use cn_net::{Labels, Net};
use std::alloc::{AllocError, Global};
use std::collections::BTreeMap;

/// The least device with each label.
fn least_devices(
    alloc: Global,
    net: &Net,
    labels: &Labels,
) -> Result<BTreeMap<DeviceId, DeviceId>, AllocError>
    ensures { IfOk result (λ least. (i : DeviceNumber)
        → IsLeastAmong (IsLabelled net.now (label_of labels.now) i) (get id_cmp least i)) }
{
    let mut least = BTreeMap::new(alloc);
    for number in 0..net.count() {
        if let Some(island) = labels.of(DeviceId(number)) {
            if !least.contains_key(&island) {
                least.insert(island, DeviceId(number))?;
            }
        }
    }
    Ok(least)
}

/// The least device with the label of a device.
fn name(least: &BTreeMap<DeviceId, DeviceId>, labels: &Labels, d: DeviceId) -> Option<DeviceId>
    ensures { result
        ≡ option_and_then (get id_cmp least.now) (label_of labels.now d) }
{
    match labels.of(d) {
        Some(island) => least.get(&island).copied(),
        None => None,
    }
}

/// For each device the least device with its label.
fn names(
    alloc: Global,
    net: &Net,
    labels: &Labels,
    least: &BTreeMap<DeviceId, DeviceId>,
) -> Result<Vec<Option<DeviceId>>, AllocError>
    ensures { IfOk result (λ v. v.items ≡ map
        (λ n. option_and_then (get id_cmp least.now) (label_of labels.now (record { 0 = n })))
        (range_with_len 0 (length net.now.devices))) }
{
    (0..net.count())
        .map(|number| name(least, labels, DeviceId(number)))
        .collect(alloc)
}

/// Labels of the same islands, by which each island goes by its least device.
pub fn named(alloc: Global, net: &Net, labels: &Labels) -> Result<Labels, AllocError>
    ensures same { IfOk result (λ names.
        HaveSameIslands net.now (label_of names) (label_of labels.now)) }
    ensures least { IfOk result (λ names. AreNames net.now (label_of names)) }
{
    let least = least_devices(alloc, net, labels)?;
    let names = names(alloc, net, labels, &least)?;
    Ok(Labels::make(names))
}
