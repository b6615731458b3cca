//! What the devices of an island hold for a prefix, where nobody else says anything.
//!
//! `converge` lets devices decide in rounds, first those that originate the prefix. `round` lets
//! those decide that wait, one after the other; where a decision changes what the device holds
//! (`put`), `wake` lets those of its neighbours wait for the next round that may decide otherwise.
//! Each device has an entry in a table, which is what it holds, and a mark, which says that it
//! waits for the next round already. Marks are cleared at the end of each round, the table by the
//! caller.

ghost use Rattle.std.specs.Prelude.{◌≡◌, ◌<◌, ◌↔◌, All, IfOk, IsTrue, None, OnOk, false, length, option_copied};
ghost use Rattle.cn_net.specs.Islands.{label_of};
ghost use Rattle.cn_net.specs.Network.{IsDevice, IsLinked};
ghost use Rattle.cn_record.specs.Places.{AddsDevices, IsInside};
ghost use Rattle.cn_record.specs.Rounds.{AreAll, AreHolders, AreMarked, HasIslandOriginators, IsConverged, RestsBut, TellsChange, Wakes, is_deaf, is_woken, reset};
ghost use Rattle.cn_record.specs.Tables.{round_of};

use crate::decision::{begins_with, decided};
use crate::places::{PrefixDevice, add_inside};
use cn_base::{AsPath, Choice, DeviceId, Prefix};
use cn_net::{Labels, Net};
use std::alloc::{AllocError, Global};
use std::mem;

// What a device held before it decided otherwise.
#[derive(Drop)]
struct Change {
    before: Option<Choice>,
}

/// Holds where the two paths have the same numbers.
fn is_same_path(x: &AsPath, y: &AsPath) -> bool
    ensures { IsTrue result ↔ (x.now ≡ y.now) }
{
    x.items() == y.items()
}

/// Holds where the two are equal.
pub fn is_same(x: Option<&Choice>, y: Option<&Choice>) -> bool
    ensures { IsTrue result ↔ (option_copied x.entry ≡ option_copied y.entry) }
{
    match (x, y) {
        (None, None) => true,
        (Some(x), Some(y)) => {
            x.from == y.from && x.origin == y.origin && is_same_path(&x.path, &y.path)
        }
        _ => false,
    }
}

// Puts a decision in place of the one before. What comes back tells that one exactly where the two
// differ.
fn put(entry: &mut Option<Choice>, next: Option<Choice>) -> Option<Change>
    ensures after { entry.new ≡ next }
    ensures change { TellsChange entry.old next result }
{
    if is_same(entry.as_ref(), next.as_ref()) {
        return None;
    }
    let before = mem::replace(entry, next);
    Some(Change { before })
}

// Holds where a device can't use what a neighbour offers that holds this.
fn is_deaf(net: &Net, device: DeviceId, held: &Option<Choice>) -> bool
    ensures { result ≡ is_deaf net.now device held.now }
{
    match held {
        Some(held) => begins_with(&held.path, net.asn(device)),
        None => true,
    }
}

// Holds where a device of the island may decide otherwise than before, since a neighbour holds
// something else.
fn is_woken(
    net: &Net,
    labels: &Labels,
    island: DeviceId,
    before: &Option<Choice>,
    after: &Option<Choice>,
    device: DeviceId,
) -> bool
    ensures { result ≡ is_woken net.now (label_of labels.now) island before.now after.now device }
{
    let deaf = is_deaf(net, device, before) && is_deaf(net, device, after);
    !deaf && labels.of(device) == Some(island)
}

// Puts a device at the end and marks it, unless it stands there.
fn add_marked(
    devices: &mut Vec<DeviceId>,
    marks: &mut [bool],
    device: DeviceId,
) -> Result<(), AllocError>
    requires within { device.0 < length marks.old }
    requires marked { AreMarked marks.old devices.old.items }
    ensures added { OnOk result (AddsDevices (λ d. device ≡ d) (λ d. device ≡ d)
        devices.old.items devices.new.items) }
    ensures marked { OnOk result (AreMarked marks.new devices.new.items) }
{
    if !marks[device.0 as usize] {
        devices.push(device)?;
        marks[device.0 as usize] = true;
    }
    Ok(())
}

// Lets those neighbours of a device wait that may decide otherwise, since the device holds
// something else.
fn wake(
    net: &Net,
    labels: &Labels,
    island: DeviceId,
    device: DeviceId,
    before: &Option<Choice>,
    after: &Option<Choice>,
    marks: &mut [bool],
    waiting: &mut Vec<DeviceId>,
) -> Result<(), AllocError>
    requires size { length marks.old ≡ length net.now.devices }
    requires marked { AreMarked marks.old waiting.old.items }
    ensures woken { OnOk result
        (Wakes net.now (label_of labels.now) island device before.now after.now
        waiting.old.items waiting.new.items) }
    ensures marked { OnOk result (AreMarked marks.new waiting.new.items) }
{
    net.valid();
    for neighbour in net.neighbours(device) {
        if is_woken(net, labels, island, before, after, neighbour.device) {
            add_marked(waiting, marks, neighbour.device)?;
        }
    }
    Ok(())
}

// Takes the marks of these devices away.
fn unmark(devices: &[DeviceId], marks: &mut [bool])
    requires { All (λ d. d.0 < length marks.old) devices.now }
    ensures { marks.new ≡ reset false devices.now marks.old }
{
    for device in devices {
        marks[device.0 as usize] = false;
    }
}

// Lets those decide that wait, one after the other. What comes back are those that wait for the
// next round, each once. Each device that decides otherwise is added to the holders.
fn round(
    alloc: Global,
    net: &Net,
    labels: &Labels,
    island: DeviceId,
    prefix: &Prefix,
    waiting: &[DeviceId],
    table: &mut [Option<Choice>],
    marks: &mut [bool],
    holders: &mut Vec<DeviceId>,
) -> Result<Vec<DeviceId>, AllocError>
    requires size { length table.old ≡ length net.now.devices }
    requires inside { All (IsInside net.now (label_of labels.now) island) waiting.now }
    requires rests { RestsBut net.now
        (label_of labels.now) island prefix.now table.old waiting.now }
    requires marks { length marks.old ≡ length net.now.devices }
    requires unmarked { AreAll false marks.old }
    requires holders { AreHolders net.now prefix.now table.old holders.old.items }
    requires held_inside { All (IsInside net.now (label_of labels.now) island) holders.old.items }
    ensures after { OnOk result (table.new ≡ round_of net.now prefix.now table.old waiting.now) }
    ensures inside { IfOk result
        (λ next. All (IsInside net.now (label_of labels.now) island) next.items) }
    ensures rests { IfOk result (λ next.
        RestsBut net.now (label_of labels.now) island prefix.now table.new next.items) }
    ensures unmarked { OnOk result (AreAll false marks.new) }
    ensures holders { OnOk result (AreHolders net.now prefix.now table.new holders.new.items) }
    ensures held_inside { OnOk result
        (All (IsInside net.now (label_of labels.now) island) holders.new.items) }
{
    let mut next = Vec::new(alloc);
    for device in waiting {
        let choice = decided(alloc, net, table, *device, prefix)?;
        if let Some(change) = put(&mut table[device.0 as usize], choice) {
            holders.push(*device)?;
            let after = &table[device.0 as usize];
            wake(
                net,
                labels,
                island,
                *device,
                &change.before,
                after,
                marks,
                &mut next,
            )?;
        }
    }
    unmark(&next, marks);
    Ok(next)
}

/// Lets the devices of an island decide for a prefix from no routes, first those that originate it,
/// and then again and again those that may decide otherwise, until there are none: they then hold
/// their best of what they offer each other. What comes back are devices of the island, among them
/// all that hold something. It takes at most 256 rounds, since the devices agree after k rounds on
/// all routes shorter than k, whose paths end at 255 numbers.
pub fn converge(
    alloc: Global,
    net: &Net,
    labels: &Labels,
    island: DeviceId,
    prefix: &Prefix,
    originators: &[PrefixDevice],
    table: &mut [Option<Choice>],
    marks: &mut [bool],
) -> Result<Vec<DeviceId>, AllocError>
    requires size { length table.old ≡ length net.now.devices }
    requires empty { AreAll None table.old }
    requires marks { length marks.old ≡ length net.now.devices }
    requires unmarked { AreAll false marks.old }
    requires originators { HasIslandOriginators net.now
        (label_of labels.now) island prefix.now originators.now }
    ensures converged { IfOk result (λ holders.
        IsConverged net.now (label_of labels.now) island prefix.now table.new holders.items) }
    ensures unmarked { OnOk result (AreAll false marks.new) }
{
    net.valid();
    let mut holders = Vec::new(alloc);
    let mut waiting = Vec::new(alloc);
    add_inside(&mut waiting, net, labels, island, originators)?;
    for _ in 0..256u16 {
        if waiting.is_empty() {
            return Ok(holders);
        }
        waiting = round(
            alloc,
            net,
            labels,
            island,
            prefix,
            &waiting,
            table,
            marks,
            &mut holders,
        )?;
    }
    Ok(holders)
}
