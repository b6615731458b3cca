//! Whether the records of the outside devices are sound.

ghost use Rattle.std.specs.Prelude.{◌≡◌, ◌<◌, ◌↔◌, All, IfErr, IfOk, IsTrue, MatchOption, None, OnOk, false, length, option_copied};
ghost use Rattle.cn_net.specs.Islands.{label_of};
ghost use Rattle.cn_net.specs.Records.{IsOfIsland};
ghost use Rattle.cn_record.specs.Grouped.{AreIslandPrefixes, AreMembers, IsByIsland};
ghost use Rattle.cn_record.specs.Places.{ArePlaces};
ghost use Rattle.cn_record.specs.Recorded.{SaysSound};
ghost use Rattle.cn_record.specs.Rounds.{AreAll, reset};
ghost use Rattle.cn_record.specs.Steps.{AgreesAt, AgreesFor, IsFirstAmong, IsFirstFor, TellsApart, TellsLeast, earlier_of, is_behind, is_below};
ghost use Rattle.cn_record.specs.Unsound.{IsFirstUnsound, NamesFirst};

use crate::converge::{converge, is_same};
use crate::islands::{IslandPrefix, Member, island_prefixes, members, of_island};
use crate::places::{Places, add_inside, of_prefix, places_of};
use crate::recorded::Recorded;
use crate::saved::Saved;
use cn_base::{Choice, DeviceId, Prefix};
use cn_net::Certified;
use std::alloc::{AllocError, Global};

/// Why records are refused: what a row says of a device and a prefix of its island, or that there
/// is no such row, isn't what the device holds where the emulated devices say nothing; or memory is
/// short.
#[derive(Debug, Drop)]
pub enum RecordWhy {
    Unsound {
        device: DeviceId,
        prefix: Prefix,
        held: Option<Choice>,
        wanted: Option<Choice>,
    },
    Memory,
}

/// A certified opening, handed back, and why its records are refused.
#[derive(Debug, Drop)]
pub struct Unrecorded {
    pub certified: Certified,
    pub why: RecordWhy,
}

// A device and a prefix, what the row says, and what the device holds.
#[derive(Drop)]
struct Difference {
    device: DeviceId,
    prefix: Prefix,
    held: Option<Choice>,
    wanted: Option<Choice>,
}

// A table in which no device holds anything.
fn nothing(alloc: Global, count: u32) -> Result<Vec<Option<Choice>>, AllocError>
    ensures size { IfOk result (λ v. length v.items ≡ count) }
    ensures empty { IfOk result (λ v. AreAll None v.items) }
{
    let mut table = Vec::new(alloc);
    for _ in 0..count {
        table.push(None)?;
    }
    Ok(table)
}

// A mark for each device, of which none is set.
fn unmarked(alloc: Global, count: u32) -> Result<Vec<bool>, AllocError>
    ensures size { IfOk result (λ v. length v.items ≡ count) }
    ensures empty { IfOk result (λ v. AreAll false v.items) }
{
    let mut marks = Vec::new(alloc);
    for _ in 0..count {
        marks.push(false)?;
    }
    Ok(marks)
}

// Lets these devices hold nothing.
fn clear(devices: &[DeviceId], table: &mut [Option<Choice>])
    requires { All (λ d. d.0 < length table.old) devices.now }
    ensures { table.new ≡ reset None devices.now table.old }
{
    for device in devices {
        table[device.0 as usize] = None;
    }
}

// An equal choice.
fn copied(alloc: Global, choice: Option<&Choice>) -> Result<Option<Choice>, AllocError>
    ensures { IfOk result (λ c. c ≡ option_copied choice.entry) }
{
    match choice {
        Some(choice) => Ok(Some(choice.copy(alloc)?)),
        None => Ok(None),
    }
}

// Holds where the row of a device, or its absence, is what the table has for it.
fn agrees(saved: &Saved, device: DeviceId, prefix: &Prefix, table: &[Option<Choice>]) -> bool
    requires { device.0 < length table.now }
    ensures { IsTrue result ↔ AgreesAt saved.now prefix.now table.now device }
{
    is_same(
        saved.find(device, prefix),
        table[device.0 as usize].as_ref(),
    )
}

// Holds where a device stands before the least so far.
fn is_below(device: DeviceId, least: Option<DeviceId>) -> bool
    ensures { result ≡ is_below device least }
{
    match least {
        Some(least) => device < least,
        None => true,
    }
}

// The least of these devices whose row isn't what the table has for it.
fn least_apart(
    saved: &Saved,
    devices: &[DeviceId],
    prefix: &Prefix,
    table: &[Option<Choice>],
) -> Option<DeviceId>
    requires { All (λ d. d.0 < length table.now) devices.now }
    ensures { TellsApart saved.now prefix.now table.now devices.now result }
{
    let mut least = None;
    for device in devices {
        if is_below(*device, least) && !agrees(saved, *device, prefix, table) {
            least = Some(*device);
        }
    }
    least
}

// The least of these devices whose row isn't what the table has for it, with both.
fn first_difference(
    alloc: Global,
    saved: &Saved,
    devices: &[DeviceId],
    prefix: &Prefix,
    table: &[Option<Choice>],
) -> Result<Option<Difference>, AllocError>
    requires { All (λ d. d.0 < length table.now) devices.now }
    ensures { IfOk result (λ found. MatchOption found
        (All (AgreesAt saved.now prefix.now table.now) devices.now)
        (TellsLeast saved.now prefix.now table.now devices.now)) }
{
    match least_apart(saved, devices, prefix, table) {
        Some(device) => Ok(Some(Difference {
            device,
            prefix: *prefix,
            held: copied(alloc, saved.find(device, prefix))?,
            wanted: copied(alloc, table[device.0 as usize].as_ref())?,
        })),
        None => Ok(None),
    }
}

// The first of two differences, of which the second has the greater prefix.
fn earlier_of(first: Option<Difference>, next: Option<Difference>) -> Option<Difference>
    ensures { result ≡ earlier_of first next }
{
    match (first, next) {
        (None, next) => next,
        (Some(first), None) => Some(first),
        (Some(first), Some(next)) => {
            if next.device < first.device {
                Some(next)
            } else {
                Some(first)
            }
        }
    }
}

// What differs first of one prefix, when its island has converged over an empty table. Rows and
// table are compared where a device holds something or has a row. The table is empty again
// afterwards.
fn prefix_difference(
    alloc: Global,
    certified: &Certified,
    saved: &Saved,
    places: &Places,
    item: &IslandPrefix,
    table: &mut [Option<Choice>],
    marks: &mut [bool],
) -> Result<Option<Difference>, AllocError>
    requires size { length table.old ≡ length certified.now.net.devices }
    requires empty { AreAll None table.old }
    requires marks { length marks.old ≡ length certified.now.net.devices }
    requires unmarked { AreAll false marks.old }
    requires places { ArePlaces certified.now.net saved.now places.now }
    requires own { IsOfIsland certified.now.net (label_of certified.now.labels)
        item.now.island item.now.prefix }
    ensures empty { OnOk result (AreAll None table.new) }
    ensures unmarked { OnOk result (AreAll false marks.new) }
    ensures found { IfOk result (λ found. MatchOption found
        (AgreesFor certified.now saved.now item.now)
        (IsFirstFor certified.now saved.now item.now)) }
{
    certified.valid();
    let IslandPrefix { prefix, island } = *item;
    let (net, labels) = (certified.net(), certified.labels());
    let originators = of_prefix(&places.originators, &prefix);
    let recorded = of_prefix(&places.recorded, &prefix);
    let mut devices = converge(
        alloc,
        net,
        labels,
        island,
        &prefix,
        originators,
        table,
        marks,
    )?;
    add_inside(&mut devices, net, labels, island, recorded)?;
    let found = first_difference(alloc, saved, &devices, &prefix, table)?;
    clear(&devices, table);
    Ok(found)
}

// Holds where something differs already at a device that isn't above the first of these: for a
// greater prefix none of them comes before it.
fn is_behind(first: &Option<Difference>, devices: &[Member]) -> bool
    ensures { result ≡ is_behind first.now devices.now }
{
    match (first, devices) {
        (Some(first), [least, ..]) => first.device <= least.device,
        (Some(_), []) => true,
        (None, _) => false,
    }
}

// What differs first of these prefixes, at the least device, then at the least prefix. The table
// and the marks are empty.
fn first_unsound(
    alloc: Global,
    certified: &Certified,
    saved: &Saved,
    places: &Places,
    members: &[Member],
    prefixes: &[IslandPrefix],
    table: &mut [Option<Choice>],
    marks: &mut [bool],
) -> Result<Option<Difference>, AllocError>
    requires size { length table.old ≡ length certified.now.net.devices }
    requires empty { AreAll None table.old }
    requires marks { length marks.old ≡ length certified.now.net.devices }
    requires unmarked { AreAll false marks.old }
    requires places { ArePlaces certified.now.net saved.now places.now }
    requires members { AreMembers certified.now.net (label_of certified.now.labels) members.now }
    requires ordered { IsByIsland members.now }
    requires prefixes { AreIslandPrefixes certified.now.net
        (label_of certified.now.labels) prefixes.now }
    ensures { IfOk result
        (λ found. MatchOption found (All (AgreesFor certified.now saved.now) prefixes.now)
        (IsFirstAmong certified.now saved.now prefixes.now)) }
{
    certified.valid();
    let mut first = None;
    for item in prefixes {
        let devices = of_island(members, item.island);
        if !is_behind(&first, devices) {
            let next = prefix_difference(alloc, certified, saved, places, item, table, marks)?;
            first = earlier_of(first, next);
        }
    }
    Ok(first)
}

// What differs first of all prefixes that islands originate.
fn examined(
    alloc: Global,
    certified: &Certified,
    saved: &Saved,
    prefixes: &[IslandPrefix],
) -> Result<Option<Difference>, AllocError>
    requires { AreIslandPrefixes certified.now.net (label_of certified.now.labels) prefixes.now }
    ensures { IfOk result
        (λ found. MatchOption found (SaysSound certified.now saved.now)
        (λ x. IsFirstUnsound certified.now saved.now x.device x.prefix x.held x.wanted)) }
{
    certified.valid();
    let net = certified.net();
    let members = members(alloc, net, certified.labels())?;
    let places = places_of(alloc, net, saved.rows())?;
    let mut table = nothing(alloc, net.count())?;
    let mut marks = unmarked(alloc, net.count())?;
    first_unsound(
        alloc, certified, saved, &places, &members, prefixes, &mut table, &mut marks,
    )
}

// A difference, as a reason.
fn unsound(found: Difference) -> RecordWhy
    ensures { result ≡ RecordWhy.Unsound found.device found.prefix found.held found.wanted }
{
    RecordWhy::Unsound {
        device: found.device,
        prefix: found.prefix,
        held: found.held,
        wanted: found.wanted,
    }
}

/// A certified opening with these rows, if they are sound: where each outside device says, of each
/// prefix that its island originates, what it holds in the one stable state of the outside devices
/// alone. A refusal names the least device that doesn't, and then the least prefix. The opening is
/// handed back with it, and for want of memory.
pub fn check(alloc: Global, certified: Certified, saved: Saved) -> Result<Recorded, Unrecorded>
    ensures ok { IfOk result (λ recorded. recorded ≡ record { opening = certified; rows = saved }) }
    ensures sound { OnOk result (SaysSound certified saved) }
    ensures unsound { IfErr result (λ refused. NamesFirst certified saved refused.why) }
    ensures err { IfErr result (λ refused. refused.certified ≡ certified) }
{
    certified.valid();
    let prefixes = match island_prefixes(alloc, certified.net(), certified.labels()) {
        Ok(prefixes) => prefixes,
        Err(_) => {
            let why = RecordWhy::Memory;
            return Err(Unrecorded { certified, why });
        }
    };
    let why = match examined(alloc, &certified, &saved, &prefixes) {
        Ok(None) => return Ok(Recorded::make(certified, saved, prefixes)),
        Ok(Some(found)) => unsound(found),
        Err(_) => RecordWhy::Memory,
    };
    Err(Unrecorded { certified, why })
}
