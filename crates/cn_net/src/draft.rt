//! A network as a plan writes it: links name their ends, and policies their peers.

use crate::device::{Own, Policy};
use cn_base::{Asn, Items, Name, RouterId};

/// Devices and links as they are written, with names in place of numbers.
#[derive(Debug, Drop)]
pub struct Draft {
    pub devices: Items<DeviceDraft>,
    pub links: Items<LinkDraft>,
}

/// A device as it is written.
#[derive(Debug, Drop)]
pub struct DeviceDraft {
    pub name: Name,
    pub layer: u8,
    pub id: RouterId,
    pub body: BodyDraft,
}

/// The part of a device that a reload replaces, as it is written.
#[derive(Debug, Drop)]
pub struct BodyDraft {
    pub asn: Asn,
    pub own: Items<Own>,
    pub peers: Items<PeerDraft>,
}

/// A peer as it is written, and the policy for it.
#[derive(Debug, Drop)]
pub struct PeerDraft {
    pub name: Name,
    pub policy: Policy,
}

/// A link as it is written.
#[derive(Debug, Drop)]
pub struct LinkDraft {
    pub a: Name,
    pub b: Name,
    pub up: bool,
}
