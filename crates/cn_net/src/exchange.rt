//! What a device offers to another and what that one accepts (RFC 4271, 5.1.2 and 9.1.2).

ghost use Rattle.std.specs.Prelude.{◌≡◌, ◌≤◌, ◌↔◌, ◌==◌, IsTrue, IfOk, is_some, Some};
ghost use Rattle.std.specs.List.{list_all};
ghost use Rattle.cn_base.specs.declared.ids.Origin.{Origin as OriginValue};
ghost use Rattle.cn_net.specs.Exchange.{accept, accepts, copies, export_permits, import_permits, offer, offered, offered_path, is_up, route_with};
ghost use Rattle.cn_plist.specs.Lists.{permits_if_any};

use crate::device::Body;
use crate::net::Net;
use cn_base::{AsPath, Asn, DeviceId, Origin, Prefix, Route};
use cn_plist::PrefixList;
use std::alloc::{AllocError, Global};

/// Holds where each number is this one.
fn are_copies(numbers: &[Asn], asn: Asn) -> bool
    ensures { result ≡ list_all (λ n. n.0 == asn.0) numbers.now }
{
    numbers.iter().all(|number| *number == asn)
}

/// Holds where the list permits the prefix. An absent list permits everything.
fn permits(list: &Option<PrefixList>, prefix: &Prefix) -> bool
    ensures { result ≡ permits_if_any list.now prefix.now }
{
    let Some(list) = list else {
        return true;
    };
    list.permits(prefix)
}

impl Body {
    #[tactic(auto, unfolding(crate::specs::Exchange::export_permits))]
    fn export_permits(&self, peer: DeviceId, prefix: &Prefix, path: &AsPath) -> bool
        ensures { (origin : OriginValue)
            → result ≡ export_permits self.now peer (route_with prefix.now path.now origin) }
    {
        let _ = path;
        match self.policy(peer) {
            Some(policy) => permits(&policy.export, prefix),
            None => true,
        }
    }

    #[tactic(auto, unfolding(crate::specs::Exchange::import_permits))]
    fn import_permits(&self, peer: DeviceId, prefix: &Prefix, path: &AsPath) -> bool
        ensures { (origin : OriginValue)
            → result ≡ import_permits self.now peer (route_with prefix.now path.now origin) }
    {
        let _ = path;
        match self.policy(peer) {
            Some(policy) => permits(&policy.import, prefix),
            None => true,
        }
    }

    #[tactic(auto, unfolding(crate::specs::Exchange::copies))]
    fn copies(&self, peer: DeviceId, prefix: &Prefix, path: &AsPath) -> u16
        ensures value { (origin : OriginValue)
            → result ≡ copies self.now peer (route_with prefix.now path.now origin) }
        ensures few { result ≤ 256 }
    {
        let _ = prefix;
        let _ = path;
        self.policy(peer)
            .map_or(1, |policy| u16::from(policy.prepend) + 1)
    }

    /// Holds where a device with this body accepts a route with this prefix and path from a peer.
    #[tactic(auto, unfolding(crate::specs::Exchange::accepts))]
    fn accepts_path(&self, from: DeviceId, prefix: &Prefix, path: &AsPath) -> bool
        ensures { (origin : OriginValue)
            → result ≡ accepts self.now from (route_with prefix.now path.now origin) }
    {
        !path.contains(self.asn) && self.import_permits(from, prefix, path)
    }

    /// Holds where a device with this body accepts a route from a peer.
    pub fn accepts(&self, from: DeviceId, route: &Route) -> bool
        ensures { result ≡ accepts self.now from route.now }
    {
        self.accepts_path(from, &route.prefix, &route.path)
    }

    /// Holds where something is offered to a peer of a route with this prefix and path.
    #[tactic(auto, unfolding(crate::specs::Exchange::offered, crate::specs::Exchange::offered_path), using(crate::proofs::Offers::length_offered))]
    fn has_offered(&self, peer: DeviceId, prefix: &Prefix, path: &AsPath) -> bool
        ensures { (origin : OriginValue)
            → result ≡ is_some (offered self.now peer (route_with prefix.now path.now origin)) }
    {
        self.export_permits(peer, prefix, path)
            && self.copies(peer, prefix, path) + u16::from(path.len()) <= 255
    }

    /// Holds where the path `sent` is that of what is offered to a peer of a route with this prefix
    /// and path.
    #[tactic(auto, unfolding(crate::specs::Exchange::offered_path))]
    fn is_offered_path(&self, peer: DeviceId, prefix: &Prefix, path: &AsPath, sent: &AsPath) -> bool
        ensures { (origin : OriginValue)
            → IsTrue result
            ↔ (sent.now ≡ offered_path self.now peer (route_with prefix.now path.now origin)) }
    {
        let times = usize::from(self.copies(peer, prefix, path));
        let sent = sent.items();
        if sent.len() < times {
            return false;
        }
        let (front, rest) = sent.split_at(times);
        let copies_in_front = are_copies(front, self.asn);
        let path_behind = rest == path.items();
        copies_in_front && path_behind
    }

    /// What a device with this body offers to a peer of the route with this prefix, path and
    /// ORIGIN, if the link to it is up.
    #[tactic(auto, unfolding(crate::specs::Exchange::offered, crate::specs::Exchange::offered_path))]
    fn offered(
        &self,
        alloc: Global,
        peer: DeviceId,
        prefix: &Prefix,
        path: &AsPath,
        origin: Origin,
    ) -> Result<Option<Route>, AllocError>
        ensures { IfOk result
            (λ o. o ≡ offered self.now peer (route_with prefix.now path.now origin)) }
    {
        let times = self.copies(peer, prefix, path);
        if times > 255 || !self.export_permits(peer, prefix, path) {
            return Ok(None);
        }
        let path = path.extended(alloc, self.asn, times as u8)?;
        Ok(path.map(|path| Route {
            prefix: *prefix,
            path,
            origin,
        }))
    }
}

impl Net {
    /// Holds where the two are linked and the link is up.
    fn is_linked_up(&self, a: DeviceId, b: DeviceId) -> bool
        ensures { result ≡ is_up self.now a b }
    {
        self.link(a, b) == Some(true)
    }

    /// What `a` offers to `b` of a route. None where the link between them is missing or down,
    /// where export denies the prefix, or where the longer path would have more than 255 numbers.
    pub fn offer(
        &self,
        alloc: Global,
        a: DeviceId,
        b: DeviceId,
        route: &Route,
    ) -> Result<Option<Route>, AllocError>
        ensures { IfOk result (λ o. o ≡ offer self.now a b route.now) }
    {
        self.offer_path(alloc, a, b, &route.prefix, &route.path, route.origin)
    }

    /// The same, of the route with this prefix, path and ORIGIN, which need not lie in one place.
    #[tactic(auto, unfolding(crate::specs::Exchange::offer))]
    pub fn offer_path(
        &self,
        alloc: Global,
        a: DeviceId,
        b: DeviceId,
        prefix: &Prefix,
        path: &AsPath,
        origin: Origin,
    ) -> Result<Option<Route>, AllocError>
        ensures { IfOk result
            (λ o. o ≡ offer self.now a b (route_with prefix.now path.now origin)) }
    {
        if !self.is_linked_up(a, b) {
            return Ok(None);
        }
        match self.device(a) {
            Some(device) => device.body.offered(alloc, b, prefix, path, origin),
            None => Ok(None),
        }
    }

    /// Holds where the offer from `a` to `b` of a route with this prefix and path isn't nothing. It
    /// takes no memory.
    #[tactic(auto, unfolding(crate::specs::Exchange::offer))]
    pub fn has_offer(&self, a: DeviceId, b: DeviceId, prefix: &Prefix, path: &AsPath) -> bool
        ensures { (origin : OriginValue)
            → result ≡ is_some (offer self.now a b (route_with prefix.now path.now origin)) }
    {
        if !self.is_linked_up(a, b) {
            return false;
        }
        match self.device(a) {
            Some(device) => device.body.has_offered(b, prefix, path),
            None => false,
        }
    }

    /// Holds where the offer from `a` to `b` of the route with this prefix, path and ORIGIN is the
    /// one with the path `sent` and the ORIGIN `sent_origin`. It takes no memory.
    #[tactic(auto, unfolding(crate::specs::Exchange::offer, crate::specs::Exchange::offered))]
    pub fn is_offer(
        &self,
        a: DeviceId,
        b: DeviceId,
        prefix: &Prefix,
        path: &AsPath,
        origin: Origin,
        sent: &AsPath,
        sent_origin: Origin,
    ) -> bool
        ensures { IsTrue result
            ↔ (offer self.now a b (route_with prefix.now path.now origin)
            ≡ Some (route_with prefix.now sent.now sent_origin)) }
    {
        if !self.has_offer(a, b, prefix, path) || origin != sent_origin {
            return false;
        }
        match self.device(a) {
            Some(device) => device.body.is_offered_path(b, prefix, path, sent),
            None => false,
        }
    }

    /// Holds where `b` accepts a route with this prefix and path from `a` (RFC 4271, 9.1.2). It
    /// takes no memory.
    #[tactic(auto, unfolding(crate::specs::Exchange::accept))]
    pub fn accepts_path(&self, b: DeviceId, a: DeviceId, prefix: &Prefix, path: &AsPath) -> bool
        ensures { (origin : OriginValue)
            → result ≡ accept self.now b a (route_with prefix.now path.now origin) }
    {
        self.device(b)
            .is_some_and(|device| device.body.accepts_path(a, prefix, path))
    }

    /// Holds where `b` accepts a route from `a`. It takes no memory.
    pub fn accept(&self, b: DeviceId, a: DeviceId, route: &Route) -> bool
        ensures { result ≡ accept self.now b a route.now }
    {
        self.accepts_path(b, a, &route.prefix, &route.path)
    }
}
