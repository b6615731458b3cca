//! The network as a value.

ghost use Rattle.std.specs.Prelude.{◌≡◌, ◌≢◌, ◌<◌, ◌^◌, ◌↔◌, All, length, map, position, set, slice_index_or, MatchOption, IfSome, IfOk, IfErr};
ghost use Rattle.std.specs.List.{AllPairs, Any};
ghost use Rattle.std.specs.Option.{option_copied};
ghost use Rattle.cn_base.specs.declared.ids.DeviceId.{DeviceId};
ghost use Rattle.cn_net.specs.Changed.{with_body, with_link, with_state};
ghost use Rattle.cn_net.specs.Drafted.{IfFault, StandsForNone, draft_of};
ghost use Rattle.cn_net.specs.Faults.{TellsFirst, fault_of};
ghost use Rattle.cn_net.specs.Neighbours.{TellsOfLink};
ghost use Rattle.cn_net.specs.Network.{IsDevice, IsLinked, asn_of, device_of, joins, link_between, name_of, own_origin, peers_of, router_of};
ghost use Rattle.cn_net.specs.Valid.{IsValid};

use crate::copies::{copied_devices, copied_lists, copied_names};
use crate::device::{Body, Device, Link, Own};
use crate::draft::Draft;
use crate::fault::NetAnswer;
use crate::make::{few_parts, joined_links, numbered_devices};
use crate::neighbours::{Neighbour, neighbours_of, starts_of};
use crate::originated::{by_prefix, origin_in, own_by_prefix};
use crate::repeat::{distinct_devices, few_prefixes};
use cn_base::{Asn, DeviceId, Items, Origin, Prefix, RouterId};
use cn_lists::item_at;
use indexmap::IndexSet;
use std::alloc::{AllocError, Global};
use std::marker::Model;

/// A valid network. Contracts see its devices, each at the place that is its number, and its links.
#[derive(Debug, Drop)]
pub struct Net {
    devices: Items<Device>,
    links: Items<Link>,
    names: IndexSet<String>,
    neighbours: Vec<Neighbour>,
    starts: Vec<usize>,
    own: Vec<Items<Own>>,
}

impl Model for Net {
    ghost use Rattle.cn_net.specs.Network.{Network};
    ghost use Rattle.cn_net.specs.Kept.{IsKept};

    ghost Value = { Network };

    ghost view = { λ n. record { devices = n.devices; links = n.links } };

    ghost invariant = { λ n. IsKept (record { devices = n.devices; links = n.links })
        n.names.keys n.neighbours.items n.starts.items n.own.items };
}

impl Net {
    /// The network that a draft stands for. A fault comes exactly where the draft stands for no
    /// valid network, and it is the first in this order (`specs/Faults.antt`): too many devices, or
    /// links; for each device in order, a name or a router id that an earlier device has, or a
    /// prefix that its list repeats; too many prefixes, each counted once; for each device and each
    /// of its peers in order, a name that no device bears, or a peer that stands earlier in the
    /// device's list; for each link in order, a first or a second end that is unknown, one device
    /// at both ends, the ends of an earlier link, or two equal AS numbers. A peer that isn't linked
    /// is no fault.
    pub fn make(alloc: Global, draft: &Draft) -> Result<Net, NetAnswer>
        ensures ok { IfOk result (λ net. draft_of net ≡ draft.now) }
        ensures fault { IfErr result (IfFault (StandsForNone draft.now)) }
        ensures first { TellsFirst (fault_of draft.now) result }
    {
        few_parts(draft.devices.len(), draft.links.len())?;
        let drafts = draft.devices.items();
        let names = distinct_devices(alloc, drafts)?;
        few_prefixes(alloc, drafts)?;
        let devices = numbered_devices(alloc, &names, drafts)?;
        let links = joined_links(alloc, &devices, &names, draft.links.items())?;
        let neighbours = neighbours_of(alloc, &links)?;
        let starts = starts_of(alloc, &neighbours, devices.len())?;
        let own = own_by_prefix(alloc, &devices)?;
        Ok(Net {
            devices: Items::make(devices),
            links: Items::make(links),
            names,
            neighbours,
            starts,
            own,
        })
    }

    /// An equal network.
    pub fn copy(&self, alloc: Global) -> Result<Net, AllocError>
        ensures { IfOk result (λ net. net ≡ self.now) }
    {
        let devices = copied_devices(alloc, self.devices.items())?;
        Ok(Net {
            devices: Items::make(devices),
            links: Items::make(Vec::from_slice(alloc, self.links.items())?),
            names: copied_names(alloc, self.devices.items())?,
            neighbours: Vec::from_slice(alloc, &self.neighbours)?,
            starts: Vec::from_slice(alloc, &self.starts)?,
            own: copied_lists(alloc, &self.own)?,
        })
    }

    /// The network in which the link of two devices is up or down. All else is as it was. It takes
    /// no memory.
    pub fn with_link(self, a: DeviceId, b: DeviceId, up: bool) -> Net
        requires linked { IsLinked self a b }
        ensures { result ≡ with_link self a b up }
    {
        self.valid();
        match self.place_between(a, b) {
            Some(place) => self.with_state(place, up),
            None => self,
        }
    }

    /// The network in which the link at a place, in the order of the plan, is up or down.
    fn with_state(self, place: usize, up: bool) -> Net
        requires { place < length self.links }
        ensures devices { result.devices ≡ self.devices }
        ensures links { (l : Link) → result.links
            ≡ set self.links place (with_state up (slice_index_or self.links place l)) }
    {
        let Net {
            devices,
            links,
            names,
            neighbours,
            starts,
            own,
        } = self;
        let mut links = links.into_vec();
        links[place].up = up;
        Net {
            devices,
            links: Items::make(links),
            names,
            neighbours,
            starts,
            own,
        }
    }

    /// The network with another body of a device, as after a reload. All else is as it was. It
    /// moves what it can, and takes memory for what that device originates alone.
    pub fn with_body(self, alloc: Global, d: DeviceId, body: Body) -> Result<Net, AllocError>
        requires device { IsDevice self d }
        requires valid { IsValid (with_body self d body) }
        ensures { IfOk result (λ net. net ≡ with_body self d body) }
    {
        let originated = by_prefix(alloc, body.own.items())?;
        let Net {
            devices,
            links,
            names,
            neighbours,
            starts,
            mut own,
        } = self;
        let place = d.0 as usize;
        let mut devices = devices.into_vec();
        devices[place].body = body;
        own[place] = originated;
        Ok(Net {
            devices: Items::make(devices),
            links,
            names,
            neighbours,
            starts,
            own,
        })
    }

    /// Does nothing: a network is valid by its type, and a proof that needs to know so cites this
    /// call.
    pub fn valid(&self)
        ensures { IsValid self.now }
    {
        let _ = &self.links;
    }

    /// The devices, in the order of their numbers.
    pub fn devices(&self) -> &[Device]
        ensures { result.now ≡ self.now.devices }
    {
        self.devices.items()
    }

    /// The links, in the order of the plan.
    pub fn links(&self) -> &[Link]
        ensures { result.now ≡ self.now.links }
    {
        self.links.items()
    }

    /// How many devices there are: device numbers are below this.
    pub fn count(&self) -> u32
        ensures { result ≡ length self.now.devices }
    {
        self.devices.len() as u32
    }

    /// The device with this number. None comes exactly where the number is out of range.
    pub fn device(&self, d: DeviceId) -> Option<&Device>
        ensures { option_copied result ≡ device_of self.now d }
    {
        self.devices.items().get(d.0 as usize)
    }

    /// The device that bears this name. None comes exactly where no device does.
    pub fn find(&self, name: &str) -> Option<DeviceId>
        ensures { MatchOption result
            ((d : DeviceId) → IsDevice self.now d → name_of self.now d ≢ name.now)
            (λ d. IsDevice self.now d × (name_of self.now d ≡ name.now)) }
    {
        match self.names.get_index_of(name) {
            Some(place) => Some(DeviceId(place as u32)),
            None => None,
        }
    }

    /// The AS number of a device, and 0 where there is no such device.
    pub fn asn(&self, d: DeviceId) -> Asn
        ensures { result ≡ asn_of self.now d }
    {
        match self.device(d) {
            Some(device) => device.body.asn,
            None => Asn(0),
        }
    }

    /// The BGP Identifier of a device, and 0 where there is no such device (RFC 4271, 4.2).
    pub fn router(&self, d: DeviceId) -> RouterId
        ensures { result ≡ router_of self.now d }
    {
        match self.device(d) {
            Some(device) => device.id,
            None => RouterId(0),
        }
    }

    /// The ORIGIN with which a device originates a prefix (RFC 4271, 5.1.1). None comes exactly
    /// where it doesn't originate the prefix or there is no such device.
    pub fn own_origin(&self, d: DeviceId, prefix: &Prefix) -> Option<Origin>
        ensures { result ≡ own_origin self.now d prefix.now }
    {
        match self.own.get(d.0 as usize) {
            Some(list) => origin_in(list.items(), prefix),
            None => None,
        }
    }

    /// Whether the link of two devices is up. None comes exactly where they aren't linked.
    pub fn link(&self, a: DeviceId, b: DeviceId) -> Option<bool>
        ensures { result ≡ link_between self.now a b }
    {
        match self.place_between(a, b) {
            Some(place) => Some(self.links.items()[place].up),
            None => None,
        }
    }

    /// The place of the link of two devices, in the order of the plan. None comes exactly where
    /// they aren't linked.
    fn place_between(&self, a: DeviceId, b: DeviceId) -> Option<usize>
        ensures place { result ≡ position (joins a b) self.now.links }
        ensures within { IfSome result (λ place. place < length self.now.links) }
    {
        self.valid();
        match item_at(self.neighbours(a), &b, |n| n.device) {
            Some(seen) => Some(seen.link as usize),
            None => None,
        }
    }

    /// The links of a device, as that device sees them, in the order of the numbers of its
    /// neighbours. Empty where there is no such device.
    pub fn neighbours(&self, d: DeviceId) -> &[Neighbour]
        ensures of { All (λ n. n.of ≡ d) result.now }
        ensures links { All (TellsOfLink self.now.links) result.now }
        ensures linked { (b : DeviceId)
            → (Any (λ n. n.device ≡ b) result.now ↔ IsLinked self.now d b) }
        ensures ascending { AllPairs (λ x y. x.device.0 < y.device.0) result.now }
        ensures peers { map (λ n. n.device) result.now ≡ peers_of self.now d }
    {
        let place = d.0 as usize;
        if place >= self.devices.len() {
            return &[];
        }
        let start = self.starts[place];
        let end = self.starts[place + 1];
        &self.neighbours[start..end]
    }
}
