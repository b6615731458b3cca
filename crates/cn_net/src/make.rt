//! The parts of a network that is made of a draft: its devices and its links, with numbers in place
//! of the names of peers and of ends. What may not stand twice among the devices is tried in
//! `repeat.rt`.

ghost use Rattle.std.specs.Prelude.{◌≡◌, ◌<◌, ◌≤◌, length, map, IfOk};
ghost use Rattle.std.specs.List.{list_any};
ghost use Rattle.cn_net.specs.Ends.{ends_between, same_pair};
ghost use Rattle.cn_net.specs.Faults.{TellsFirst, first_in, join_fault, link_fault, parts_fault, peer_fault, peers_fault, unknown_fault};
ghost use Rattle.cn_net.specs.Kept.{AreNamesOf, names_of};
ghost use Rattle.cn_net.specs.Numbered.{device_made, link_made, number_in, peer_made, texts};

use crate::device::{Body, Device, Link, Peer};
use crate::draft::{DeviceDraft, LinkDraft, PeerDraft};
use crate::fault::{NetAnswer, NetFault, What};
use cn_base::{DeviceId, Items, Name};
use indexmap::IndexSet;
use std::alloc::{AllocError, Global};

const MOST_DEVICES: usize = 4096;

const MOST_LINKS: usize = 16384;

/// The two ends of a link, the lesser number first.
#[derive(Clone, Copy, Debug, PartialEq, Eq, Hash)]
pub struct Ends {
    pub low: DeviceId,
    pub high: DeviceId,
}

/// Tries the numbers of devices and of links.
pub fn few_parts(devices: usize, links: usize) -> Result<(), NetAnswer>
    ensures { TellsFirst (parts_fault devices links) result }
{
    if devices > MOST_DEVICES {
        return Err(NetAnswer::Fault(NetFault::TooMany {
            what: What::Devices,
            count: devices as u64,
        }));
    }
    if links > MOST_LINKS {
        return Err(NetAnswer::Fault(NetFault::TooMany {
            what: What::Links,
            count: links as u64,
        }));
    }
    Ok(())
}

/// The number of the device that bears a name.
fn number_of(alloc: Global, names: &IndexSet<String>, name: &Name) -> Result<DeviceId, NetAnswer>
    requires { length names.now.keys ≤ 4096 }
    ensures ok { IfOk result (λ d. d ≡ number_in (texts names.now.keys) name.now) }
    ensures within { IfOk result (λ d. d.0 < length names.now.keys) }
    ensures first { TellsFirst (unknown_fault (texts names.now.keys) name.now) result }
{
    match names.get_index_of(name.text()) {
        Some(place) => Ok(DeviceId(place as u32)),
        None => {
            let name = name.copy(alloc)?;
            Err(NetAnswer::Fault(NetFault::UnknownName { name }))
        }
    }
}

/// The peers of a device, with their numbers in place of the names.
fn known_peers(
    alloc: Global,
    names: &IndexSet<String>,
    device: DeviceId,
    peers: &[PeerDraft],
) -> Result<Vec<Peer>, NetAnswer>
    requires { length names.now.keys ≤ 4096 }
    ensures made { IfOk result (λ v. v.items ≡ map (peer_made (texts names.now.keys)) peers.now) }
    ensures first { let known = texts names.now.keys in
        TellsFirst (first_in (peer_fault known device) peers.now) result }
{
    let mut known = Vec::with_capacity(alloc, peers.len())?;
    let mut before = IndexSet::new(alloc);
    for draft in peers {
        let peer = number_of(alloc, names, &draft.name)?;
        if !before.insert(peer)? {
            return Err(NetAnswer::Fault(NetFault::DuplicatePeer { device, peer }));
        }
        let policy = draft.policy.copy(alloc)?;
        known.push(Peer {
            device: peer,
            policy,
        })?;
    }
    Ok(known)
}

/// The device with this number, with those of its peers in place of their names.
fn numbered_device(
    alloc: Global,
    names: &IndexSet<String>,
    number: DeviceId,
    draft: &DeviceDraft,
) -> Result<Device, NetAnswer>
    requires { length names.now.keys ≤ 4096 }
    ensures made { IfOk result (λ d. d ≡ device_made (texts names.now.keys) draft.now) }
    ensures first { TellsFirst
        (first_in (peer_fault (texts names.now.keys) number) draft.now.body.peers)
        result }
{
    let peers = known_peers(alloc, names, number, draft.body.peers.items())?;
    Ok(Device {
        name: draft.name.copy(alloc)?,
        layer: draft.layer,
        id: draft.id,
        body: Body {
            asn: draft.body.asn,
            own: Items::make(Vec::from_slice(alloc, draft.body.own.items())?),
            peers: Items::make(peers),
        },
    })
}

/// The devices with the numbers of their peers in place of the names. It tries that each peer is a
/// device, and that none stands twice in one device's list.
pub fn numbered_devices(
    alloc: Global,
    names: &IndexSet<String>,
    drafts: &[DeviceDraft],
) -> Result<Vec<Device>, NetAnswer>
    requires named { length names.now.keys ≤ 4096 }
    requires few { length drafts.now ≤ 4096 }
    ensures made { IfOk result
        (λ v. v.items ≡ map (device_made (texts names.now.keys)) drafts.now) }
    ensures first { TellsFirst (first_in (peers_fault (texts names.now.keys)) drafts.now) result }
{
    let mut devices = Vec::with_capacity(alloc, drafts.len())?;
    for (i, draft) in drafts.iter().enumerate() {
        let number = DeviceId(i as u32);
        devices.push(numbered_device(alloc, names, number, draft)?)?;
    }
    Ok(devices)
}

fn ends_of(link: &Link) -> Ends
    ensures { result ≡ ends_between link.now }
{
    if link.a < link.b {
        Ends {
            low: link.a,
            high: link.b,
        }
    } else {
        Ends {
            low: link.b,
            high: link.a,
        }
    }
}

/// Tries that a link joins two different devices with different AS numbers, and none before it the
/// same.
fn joins_new(devices: &[Device], before: &IndexSet<Ends>, link: &Link) -> Result<(), NetAnswer>
    requires a { link.now.a.0 < length devices.now }
    requires b { link.now.b.0 < length devices.now }
    ensures { let stands = list_any (same_pair (ends_between link.now)) before.now.keys in
        TellsFirst (join_fault devices.now stands link.now) result }
{
    let Link { a, b, .. } = *link;
    if a == b {
        return Err(NetAnswer::Fault(NetFault::SelfLink { device: a }));
    }
    if before.contains(&ends_of(link)) {
        return Err(NetAnswer::Fault(NetFault::DuplicateLink { a, b }));
    }
    if devices[a.0 as usize].body.asn == devices[b.0 as usize].body.asn {
        return Err(NetAnswer::Fault(NetFault::SameAs { a, b }));
    }
    Ok(())
}

/// The links with the numbers of their ends in place of the names.
pub fn joined_links(
    alloc: Global,
    devices: &[Device],
    names: &IndexSet<String>,
    links: &[LinkDraft],
) -> Result<Vec<Link>, NetAnswer>
    requires few { length devices.now ≤ 4096 }
    requires named { AreNamesOf devices.now names.now.keys }
    ensures made { IfOk result (λ v. v.items ≡ map (link_made (names_of devices.now)) links.now) }
    ensures first { TellsFirst (first_in (link_fault devices.now) links.now) result }
{
    let mut joined = Vec::with_capacity(alloc, links.len())?;
    let mut before = IndexSet::new(alloc);
    for draft in links {
        let link = Link {
            a: number_of(alloc, names, &draft.a)?,
            b: number_of(alloc, names, &draft.b)?,
            up: draft.up,
        };
        joins_new(devices, &before, &link)?;
        before.insert(ends_of(&link))?;
        joined.push(link)?;
    }
    Ok(joined)
}
