//! Labels by following links: each island is searched from its least device, and each device is
//! looked at once.

ghost use Rattle.std.specs.Prelude.{◌≡◌, ◌+◌, ◌<◌, None, false, true, IfOk, length};
ghost use Rattle.cn_island.specs.Found.{IsFound, IsNext, IsSearched, IsSpread};
ghost use Rattle.cn_net.specs.Islands.{IsIslands, label_of, outside_of};

use cn_base::DeviceId;
use cn_net::{DeviceSet, Labels, Net};
use std::alloc::{AllocError, Global};

/// Gives a device the label of an island, unless it has one.
fn label(
    labels: &mut [Option<DeviceId>],
    found: &mut Vec<DeviceId>,
    d: DeviceId,
    island: DeviceId,
) -> Result<(), AllocError>
    requires device { d.0 < length labels.old }
    requires found { IsFound labels.old found.old.items }
    ensures found { IfOk result (λ _. IsFound labels.new found.new.items) }
    ensures spread { IfOk result
        (λ _. IsSpread (λ x. x ≡ d) island labels.old labels.new found.old.items found.new.items) }
{
    let place = d.0 as usize;
    if labels[place].is_none() {
        found.push(d)?;
        labels[place] = Some(island);
    }
    Ok(())
}

/// Gives each outside device that is linked to `d` the label of an island, unless it has one.
fn label_neighbours(
    net: &Net,
    emulated: &DeviceSet,
    labels: &mut [Option<DeviceId>],
    found: &mut Vec<DeviceId>,
    d: DeviceId,
    island: DeviceId,
) -> Result<(), AllocError>
    requires size { length labels.old ≡ length net.now.devices }
    requires found { IsFound labels.old found.old.items }
    ensures found { IfOk result (λ _. IsFound labels.new found.new.items) }
    ensures spread { let next = IsNext net.now (outside_of emulated.now) d in
        IfOk result
        (λ _. IsSpread next island labels.old labels.new found.old.items found.new.items) }
{
    net.valid();
    for n in net.neighbours(d) {
        if !emulated.holds(n.device) {
            label(labels, found, n.device, island)?;
        }
    }
    Ok(())
}

/// Labels the island of an outside device without a label, all of whose lesser outside devices have
/// one.
fn label_island(
    net: &Net,
    emulated: &DeviceSet,
    labels: &mut [Option<DeviceId>],
    found: &mut Vec<DeviceId>,
    root: DeviceId,
) -> Result<(), AllocError>
    requires device { root.0 < length net.now.devices }
    requires outside { outside_of emulated.now root ≡ true }
    requires searched { let found = found.old.items in
        IsSearched net.now (outside_of emulated.now) labels.old found (length found) root.0 }
    ensures { let found = found.new.items in
        let outside = outside_of emulated.now in
        IfOk result (λ _. IsSearched net.now outside labels.new found (length found) (root.0 + 1)) }
{
    net.valid();
    let mut next = found.len();
    label(labels, found, root, root)?;
    while next < found.len() {
        let d = found[next];
        label_neighbours(net, emulated, labels, found, d, root)?;
        next += 1;
    }
    Ok(())
}

/// The labels of the islands: each device that isn't emulated has the number of the least device
/// that a chain of links between such devices joins to it, and an emulated device has none. Err
/// comes only for want of memory.
pub fn islands(alloc: Global, net: &Net, emulated: &DeviceSet) -> Result<Labels, AllocError>
    ensures islands { IfOk result
        (λ labels. IsIslands net.now (outside_of emulated.now) (label_of labels)) }
    ensures size { IfOk result (λ labels. length labels ≡ length net.now.devices) }
{
    let count = net.count();
    let mut labels = vec![in alloc; None; count as usize]?;
    let mut found = Vec::new(alloc);
    for i in 0..count {
        let root = DeviceId(i);
        if !emulated.holds(root) && labels[i as usize].is_none() {
            label_island(net, emulated, &mut labels, &mut found, root)?;
        }
    }
    Ok(Labels::make(labels))
}
