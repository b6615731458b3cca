//! The devices that face the islands' boundaries, and the first refusal of a side.

ghost use Rattle.std.specs.Prelude.{◌≡◌, ◌++◌, IfOk, MatchOption, OnOk, find, map, option_to_list, Bool, Option};
ghost use Rattle.std.specs.BTreeSet.{contains};
ghost use Rattle.cn_base.specs.declared.ids.DeviceId.{DeviceId as DeviceNumber};
ghost use Rattle.cn_net.specs.Islands.{label_of, outside_of};
ghost use Rattle.cn_cert.specs.Refusal.{Faces, side_place};
ghost use Rattle.cn_cert.specs.Steps.{AreMembers, IsCleanSide, IsFirstOfKind, faced, id_cmp, is_of_another, on_side, with_system};

use crate::members::{Member, split};
use crate::refusal::{Refusal, Side};
use cn_base::DeviceId;
use cn_net::{DeviceSet, Labels, Net};
use std::alloc::{AllocError, Global};
use std::collections::BTreeSet;

/// Of an emulated device and one that it is linked to, the device on this side.
fn on_side(side: Side, near: DeviceId, far: DeviceId) -> DeviceId
    ensures { result ≡ on_side side near far }
{
    match side {
        Side::Emulated => near,
        Side::Outside => far,
    }
}

/// The device on this side of a link, in the group of the island, where the near end of the link is
/// emulated and its far end is of an island.
fn faced(
    emulated: &DeviceSet,
    names: &Labels,
    side: Side,
    near: DeviceId,
    far: DeviceId,
) -> Option<Member<DeviceId>>
    ensures { result ≡ faced (outside_of emulated.now) (label_of names.now) side near far }
{
    if emulated.holds(near) {
        names.of(far).map(|island| Member {
            key: island,
            device: on_side(side, near, far),
        })
    } else {
        None
    }
}

/// Puts a member at the end of the list, where there is one.
fn add(
    members: &mut Vec<Member<DeviceId>>,
    member: Option<Member<DeviceId>>,
) -> Result<(), AllocError>
    ensures { OnOk result (members.new.items ≡ members.old.items ++ option_to_list member) }
{
    if let Some(member) = member {
        members.push(member)?;
    }
    Ok(())
}

/// The devices that face islands from this side, each in the groups of these islands.
fn facing(
    alloc: Global,
    net: &Net,
    emulated: &DeviceSet,
    names: &Labels,
    side: Side,
) -> Result<Vec<Member<DeviceId>>, AllocError>
    ensures { IfOk result (λ v. AreMembers id_cmp
        (Faces net.now (outside_of emulated.now) (label_of names.now) side) v.items) }
{
    net.valid();
    let mut facing = Vec::new(alloc);
    for link in net.links() {
        add(&mut facing, faced(emulated, names, side, link.a, link.b))?;
        add(&mut facing, faced(emulated, names, side, link.b, link.a))?;
    }
    facing.sort_unstable();
    Ok(facing)
}

/// The island of each member, with the AS number of its device.
fn with_systems(
    alloc: Global,
    net: &Net,
    members: &[Member<DeviceId>],
) -> Result<Vec<(DeviceId, Option<u32>)>, AllocError>
    ensures { IfOk result (λ v. v.items ≡ map (with_system net.now) members.now) }
{
    members
        .iter()
        .map(|m| (m.key, Some(net.asn(m.device).0)))
        .collect(alloc)
}

/// The first member whose island is one of these.
fn first_among(
    members: &[Member<DeviceId>],
    islands: &BTreeSet<DeviceId>,
) -> Option<Member<DeviceId>>
    ensures { result ≡ find (λ m. contains id_cmp islands.now m.key) members.now }
{
    members.iter().copied().find(|m| islands.contains(&m.key))
}

/// Holds where a member is of the island of another, and of another AS.
fn is_of_another(net: &Net, a: &Member<DeviceId>, m: &Member<DeviceId>) -> bool
    ensures { result ≡ is_of_another net.now a.now m.now }
{
    m.key == a.key && net.asn(m.device) != net.asn(a.device)
}

/// The first member that is of the island of this one, and of another AS.
fn first_of_another(
    net: &Net,
    members: &[Member<DeviceId>],
    a: &Member<DeviceId>,
) -> Option<Member<DeviceId>>
    ensures { result ≡ find (is_of_another net.now a.now) members.now }
{
    members.iter().copied().find(|m| is_of_another(net, a, m))
}

/// The first refusal of this side, of the island with the lowest least device. None comes exactly
/// where each island's boundary has devices of one AS there.
pub fn side_refusal(
    alloc: Global,
    net: &Net,
    emulated: &DeviceSet,
    names: &Labels,
    side: Side,
) -> Result<Option<Refusal>, AllocError>
    ensures { let outside : DeviceNumber → Bool = outside_of emulated.now in
        let name : DeviceNumber → Option DeviceNumber = label_of names.now in
        IfOk result (λ found. MatchOption found
        (IsCleanSide net.now outside name side)
        (IsFirstOfKind net.now outside name (side_place side))) }
{
    let facing = facing(alloc, net, emulated, names, side)?;
    let islands = split(alloc, &with_systems(alloc, net, &facing)?)?;
    let a = match first_among(&facing, &islands) {
        Some(a) => a,
        None => return Ok(None),
    };
    match first_of_another(net, &facing, &a) {
        Some(b) => Ok(Some(Refusal::Facing {
            side,
            island: a.key,
            a: a.device,
            a_asn: net.asn(a.device),
            b: b.device,
            b_asn: net.asn(b.device),
        })),
        None => Ok(None),
    }
}
