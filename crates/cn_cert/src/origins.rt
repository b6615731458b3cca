//! The devices that originate prefixes, and the first refusal of an island's prefixes.

ghost use Rattle.std.specs.Prelude.{◌≡◌, ◌↔◌, ◌⊎◌, ◌++◌, IfOk, IsSome, MatchOption, OnOk, find, map, Bool, Option};
ghost use Rattle.std.specs.BTreeSet.{contains};
ghost use Rattle.std.specs.List.{filter_map};
ghost use Rattle.cn_base.specs.Cidr.{Cidr};
ghost use Rattle.cn_base.specs.Table.{prefix_cmp};
ghost use Rattle.cn_base.specs.declared.ids.DeviceId.{DeviceId as DeviceNumber};
ghost use Rattle.cn_net.specs.Certificate.{Originates};
ghost use Rattle.cn_net.specs.Islands.{label_of};
ghost use Rattle.cn_net.specs.Network.{own_origin};
ghost use Rattle.cn_cert.specs.Steps.{AreMembers, HasMember, HaveOwnPrefixes, IsFirstOfKind, is_elsewhere, member, shared, with_island};

use crate::members::{Member, split};
use crate::refusal::Refusal;
use cn_base::{DeviceId, Prefix};
use cn_net::{Labels, Net, Own};
use std::alloc::{AllocError, Global};
use std::collections::BTreeSet;

/// Puts a device at the end for each of its prefixes.
fn add_own(
    members: &mut Vec<Member<Prefix>>,
    device: DeviceId,
    own: &[Own],
) -> Result<(), AllocError>
    ensures { OnOk result
        (members.new.items ≡ members.old.items ++ map (λ o. member o.prefix device) own.now) }
{
    for one in own {
        members.push(Member {
            key: one.prefix,
            device,
        })?;
    }
    Ok(())
}

/// Puts the device with a number at the end for each prefix that it originates.
fn add_device(
    members: &mut Vec<Member<Prefix>>,
    net: &Net,
    device: DeviceId,
) -> Result<(), AllocError>
    ensures { OnOk result ((p : Cidr) (d : DeviceNumber)
        → HasMember members.new.items p d
        ↔ (HasMember members.old.items p d
        ⊎ ((d ≡ device) × IsSome (own_origin net.now device p)))) }
{
    match net.device(device) {
        Some(found) => add_own(members, device, found.body.own.items()),
        None => Ok(()),
    }
}

/// The devices that originate prefixes, each in the groups of these prefixes.
fn originators(alloc: Global, net: &Net) -> Result<Vec<Member<Prefix>>, AllocError>
    ensures { IfOk result (λ v. AreMembers prefix_cmp
        (λ p d. Originates net.now d p) v.items) }
{
    let mut members = Vec::new(alloc);
    for number in 0..net.count() {
        add_device(&mut members, net, DeviceId(number))?;
    }
    members.sort_unstable();
    Ok(members)
}

/// The prefix of each member, with the island of its device, as a number.
fn with_islands(
    alloc: Global,
    names: &Labels,
    members: &[Member<Prefix>],
) -> Result<Vec<(Prefix, Option<u32>)>, AllocError>
    ensures { IfOk result (λ v. v.items ≡ map (with_island (label_of names.now)) members.now) }
{
    members
        .iter()
        .map(|m| (m.key, names.of(m.device).map(|island| island.0)))
        .collect(alloc)
}

/// The member in the group of its island and its prefix, where it is of an island and its prefix is
/// one of these.
fn shared(
    names: &Labels,
    prefixes: &BTreeSet<Prefix>,
    m: &Member<Prefix>,
) -> Option<Member<(DeviceId, Prefix)>>
    ensures { result
        ≡ shared (label_of names.now) (contains prefix_cmp prefixes.now m.now.key) m.now }
{
    if prefixes.contains(&m.key) {
        names.of(m.device).map(|island| Member {
            key: (island, m.key),
            device: m.device,
        })
    } else {
        None
    }
}

/// The members that are of an island and whose prefix is one of these, each in the group of its
/// island and its prefix.
fn all_shared(
    alloc: Global,
    names: &Labels,
    prefixes: &BTreeSet<Prefix>,
    members: &[Member<Prefix>],
) -> Result<Vec<Member<(DeviceId, Prefix)>>, AllocError>
    ensures { IfOk result (λ v. v.items ≡ filter_map
        (λ m. shared (label_of names.now) (contains prefix_cmp prefixes.now m.key) m)
        members.now) }
{
    members
        .iter()
        .filter_map(|m| shared(names, prefixes, m))
        .collect(alloc)
}

/// Holds where a member originates this prefix, and isn't of this island.
fn is_elsewhere(names: &Labels, island: DeviceId, prefix: Prefix, m: &Member<Prefix>) -> bool
    ensures { result ≡ is_elsewhere (label_of names.now) island prefix m.now }
{
    m.key == prefix && names.of(m.device) != Some(island)
}

/// The first member that originates this prefix, and isn't of this island.
fn first_elsewhere(
    names: &Labels,
    island: DeviceId,
    prefix: Prefix,
    members: &[Member<Prefix>],
) -> Option<Member<Prefix>>
    ensures { result ≡ find (is_elsewhere (label_of names.now) island prefix) members.now }
{
    members
        .iter()
        .copied()
        .find(|m| is_elsewhere(names, island, prefix, m))
}

/// The first refusal of origins, of the island with the lowest least device. None comes exactly
/// where what an island originates is originated nowhere else.
pub fn origins_refusal(
    alloc: Global,
    net: &Net,
    names: &Labels,
) -> Result<Option<Refusal>, AllocError>
    ensures { (outside : DeviceNumber → Bool) → IfOk result (λ found. MatchOption found
        (HaveOwnPrefixes net.now (label_of names.now))
        (IsFirstOfKind net.now outside (label_of names.now) 2)) }
{
    let members = originators(alloc, net)?;
    let prefixes = split(alloc, &with_islands(alloc, names, &members)?)?;
    let mut shared = all_shared(alloc, names, &prefixes, &members)?;
    shared.sort_unstable();
    let inside = match shared.first() {
        Some(inside) => inside,
        None => return Ok(None),
    };
    let (island, prefix) = inside.key;
    match first_elsewhere(names, island, prefix, &members) {
        Some(elsewhere) => Ok(Some(Refusal::Origins {
            island,
            prefix,
            inside: inside.device,
            elsewhere: elsewhere.device,
        })),
        None => Ok(None),
    }
}
