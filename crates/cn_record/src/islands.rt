//! The islands, by their devices and by the prefixes that they originate.

ghost use Rattle.std.specs.Prelude.{◌≡◌, ◌++◌, Contains, IfOk, MatchOption, OnOk, filter, map};
ghost use Rattle.std.specs.List.Sorted.{IsStrictlySortedBy};
ghost use Rattle.std.specs.Ordering.{on};
ghost use Rattle.cn_base.specs.Table.{prefix_cmp};
ghost use Rattle.cn_base.specs.declared.ids.DeviceId.{DeviceId as DeviceNumber};
ghost use Rattle.cn_net.specs.Islands.{label_of};
ghost use Rattle.cn_record.specs.Grouped.{AddsPrefixes, AreIslandPrefixes, AreMembers, HasOwnPrefixes, IsByIsland, is_member, of_island};

use cn_base::{DeviceId, Prefix};
use cn_lists::part_at;
use cn_net::{Labels, Net, Own};
use std::alloc::{AllocError, Global};

/// A device of an island.
#[derive(Clone, Copy, Debug)]
pub struct Member {
    pub island: DeviceId,
    pub device: DeviceId,
}

/// A prefix that an island originates.
#[derive(Clone, Copy, Debug, PartialEq, Eq, PartialOrd, Ord)]
pub struct IslandPrefix {
    pub prefix: Prefix,
    pub island: DeviceId,
}

/// The devices of the islands, by island, then by number.
pub fn members(alloc: Global, net: &Net, labels: &Labels) -> Result<Vec<Member>, AllocError>
    ensures members { IfOk result (λ v. AreMembers net.now (label_of labels.now) v.items) }
    ensures ordered { IfOk result (λ v. IsByIsland v.items) }
{
    let mut members = Vec::new(alloc);
    for number in 0..net.count() {
        let device = DeviceId(number);
        if let Some(island) = labels.of(device) {
            members.push(Member { island, device })?;
        }
    }
    members.sort_unstable_by_key(|member| (member.island, member.device));
    Ok(members)
}

/// The devices of one island, by number.
pub fn of_island(members: &[Member], island: DeviceId) -> &[Member]
    requires { IsByIsland members.now }
    ensures { result.now ≡ filter (is_member island) members.now }
{
    part_at(members, &island, |member| member.island)
}

// Puts the prefixes of a device of an island at the end.
fn add_own(
    prefixes: &mut Vec<IslandPrefix>,
    island: DeviceId,
    own: &[Own],
) -> Result<(), AllocError>
    ensures { OnOk result
        (prefixes.new.items ≡ prefixes.old.items ++ map (λ o. of_island island o.prefix) own.now) }
{
    for item in own {
        prefixes.push(IslandPrefix {
            prefix: item.prefix,
            island,
        })?;
    }
    Ok(())
}

// Puts the prefixes of a device at the end, if it is of an island.
fn add_device(
    prefixes: &mut Vec<IslandPrefix>,
    net: &Net,
    labels: &Labels,
    device: DeviceId,
) -> Result<(), AllocError>
    ensures { OnOk result
        (AddsPrefixes net.now (label_of labels.now) device prefixes.old.items prefixes.new.items) }
{
    match (labels.of(device), net.device(device)) {
        (Some(island), Some(found)) => add_own(prefixes, island, found.body.own.items()),
        _ => Ok(()),
    }
}

/// The prefixes that islands originate, each once, in ascending order.
pub fn island_prefixes(
    alloc: Global,
    net: &Net,
    labels: &Labels,
) -> Result<Vec<IslandPrefix>, AllocError>
    requires { HasOwnPrefixes net.now (label_of labels.now) }
    ensures { IfOk result (λ v. AreIslandPrefixes net.now (label_of labels.now) v.items) }
{
    let mut prefixes = Vec::new(alloc);
    for number in 0..net.count() {
        add_device(&mut prefixes, net, labels, DeviceId(number))?;
    }
    prefixes.sort_unstable();
    prefixes.dedup();
    Ok(prefixes)
}

/// The island that originates a prefix. None comes exactly where no island does.
pub fn island_of(prefixes: &[IslandPrefix], prefix: &Prefix) -> Option<DeviceId>
    requires { IsStrictlySortedBy (on (λ x. x.prefix) prefix_cmp) prefixes.now }
    ensures { MatchOption result
        ((i : DeviceNumber) → Contains prefixes.now (of_island i prefix.now) → ⊥)
        (λ i. Contains prefixes.now (of_island i prefix.now)) }
{
    match prefixes.binary_search_by_key(prefix, |item| item.prefix) {
        Ok(place) => Some(prefixes[place].island),
        Err(_) => None,
    }
}
