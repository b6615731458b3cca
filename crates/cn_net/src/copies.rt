//! Equal devices, and equal parts of them and of a network.

ghost use Rattle.std.specs.Prelude.{◌≡◌, IfOk};
ghost use Rattle.std.specs.List.{IsDistinct};
ghost use Rattle.std.specs.Str.{bytes_eq};
ghost use Rattle.cn_net.specs.Kept.{AreNamesOf, names_of};

use crate::device::{Body, Device, Own, Peer, Policy};
use cn_base::Items;
use cn_plist::PrefixList;
use indexmap::IndexSet;
use std::alloc::{AllocError, Global};

fn copied_list(alloc: Global, list: &Option<PrefixList>) -> Result<Option<PrefixList>, AllocError>
    ensures { IfOk result (λ l. l ≡ list.now) }
{
    match list {
        Some(list) => Ok(Some(list.copy(alloc)?)),
        None => Ok(None),
    }
}

impl Policy {
    /// An equal policy.
    pub fn copy(&self, alloc: Global) -> Result<Policy, AllocError>
        ensures { IfOk result (λ policy. policy ≡ self.now) }
    {
        Ok(Policy {
            import: copied_list(alloc, &self.import)?,
            export: copied_list(alloc, &self.export)?,
            prepend: self.prepend,
        })
    }
}

impl Peer {
    /// An equal peer.
    pub fn copy(&self, alloc: Global) -> Result<Peer, AllocError>
        ensures { IfOk result (λ peer. peer ≡ self.now) }
    {
        Ok(Peer {
            device: self.device,
            policy: self.policy.copy(alloc)?,
        })
    }
}

fn copied_peers(alloc: Global, peers: &[Peer]) -> Result<Vec<Peer>, AllocError>
    ensures { IfOk result (λ v. v.items ≡ peers.now) }
{
    let mut copied = Vec::with_capacity(alloc, peers.len())?;
    for peer in peers {
        copied.push(peer.copy(alloc)?)?;
    }
    Ok(copied)
}

impl Body {
    /// An equal body.
    pub fn copy(&self, alloc: Global) -> Result<Body, AllocError>
        ensures { IfOk result (λ body. body ≡ self.now) }
    {
        Ok(Body {
            asn: self.asn,
            own: Items::make(Vec::from_slice(alloc, self.own.items())?),
            peers: Items::make(copied_peers(alloc, self.peers.items())?),
        })
    }
}

impl Device {
    /// An equal device.
    pub fn copy(&self, alloc: Global) -> Result<Device, AllocError>
        ensures { IfOk result (λ device. device ≡ self.now) }
    {
        Ok(Device {
            name: self.name.copy(alloc)?,
            layer: self.layer,
            id: self.id,
            body: self.body.copy(alloc)?,
        })
    }
}

/// Equal devices, in the same order.
pub fn copied_devices(alloc: Global, devices: &[Device]) -> Result<Vec<Device>, AllocError>
    ensures { IfOk result (λ v. v.items ≡ devices.now) }
{
    let mut copied = Vec::with_capacity(alloc, devices.len())?;
    for device in devices {
        copied.push(device.copy(alloc)?)?;
    }
    Ok(copied)
}

/// The index of the names of these devices, of which no two are equal.
pub fn copied_names(alloc: Global, devices: &[Device]) -> Result<IndexSet<String>, AllocError>
    requires distinct { IsDistinct bytes_eq (names_of devices.now) }
    ensures { IfOk result (λ names. AreNamesOf devices.now names.keys) }
{
    let mut names = IndexSet::new(alloc);
    for device in devices {
        names.insert(String::from_str(alloc, device.name.text())?)?;
    }
    Ok(names)
}

/// Equal lists, in the same order.
pub fn copied_lists(alloc: Global, lists: &[Items<Own>]) -> Result<Vec<Items<Own>>, AllocError>
    ensures { IfOk result (λ v. v.items ≡ lists.now) }
{
    let mut copied = Vec::with_capacity(alloc, lists.len())?;
    for list in lists {
        copied.push(Items::make(Vec::from_slice(alloc, list.items())?))?;
    }
    Ok(copied)
}
