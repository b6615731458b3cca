//! Devices and links, by number.

ghost use Rattle.std.specs.Prelude.{◌≡◌};
ghost use Rattle.std.specs.Option.{option_copied};
ghost use Rattle.cn_net.specs.Exchange.{policy_for};

use cn_base::{Asn, DeviceId, Items, Name, Origin, Prefix, RouterId};
use cn_plist::PrefixList;

/// A prefix that a device originates, and the ORIGIN with which it does (RFC 4271, 5.1.1).
#[derive(Clone, Copy, Debug)]
pub struct Own {
    pub prefix: Prefix,
    pub origin: Origin,
}

/// What a device's configuration says of one peer: the prefixes that it accepts from it (`import`)
/// and those that it offers to it (`export`), where an absent list permits everything, and how many
/// more copies of its AS number than one it puts in front of what it offers (RFC 4271, 5.1.2 and
/// 9.1).
#[derive(Debug, Drop)]
pub struct Policy {
    pub import: Option<PrefixList>,
    pub export: Option<PrefixList>,
    pub prepend: u8,
}

/// A peer, and the policy for it.
#[derive(Debug, Drop)]
pub struct Peer {
    pub device: DeviceId,
    pub policy: Policy,
}

/// The part of a device that a reload replaces. A peer that it doesn't list has no lists and no
/// more copies than one; a peer that isn't linked has no effect.
#[derive(Debug, Drop)]
pub struct Body {
    pub asn: Asn,
    pub own: Items<Own>,
    pub peers: Items<Peer>,
}

/// A device. Its number is its place in the plan, from 0; its layer counts from the racks upwards.
#[derive(Debug, Drop)]
pub struct Device {
    pub name: Name,
    pub layer: u8,
    pub id: RouterId,
    pub body: Body,
}

/// Two devices that are joined, and whether the link is up.
#[derive(Clone, Copy, Debug)]
pub struct Link {
    pub a: DeviceId,
    pub b: DeviceId,
    pub up: bool,
}

impl Body {
    ghost use Rattle.cn_net.specs.Network.{own_of};

    /// The ORIGIN with which a device with this body originates a prefix, and none where it
    /// doesn't.
    pub fn own_origin(&self, prefix: &Prefix) -> Option<Origin>
        ensures { result ≡ own_of self.now prefix.now }
    {
        let found = self.own.items().iter().find(|own| own.prefix == *prefix);
        found.map(|own| own.origin)
    }

    /// The policy for a peer: of several the first, and none where there is none.
    pub fn policy(&self, peer: DeviceId) -> Option<&Policy>
        ensures { option_copied result ≡ policy_for self.now peer }
    {
        let found = self.peers.items().iter().find(|p| p.device == peer);
        found.map(|p| &p.policy)
    }
}
