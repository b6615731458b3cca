//! The faults of a change, a function each, in the order in which they are looked for.

ghost use Rattle.std.specs.Prelude.{◌≡◌, ◌==◌, IfOk, OnErr, find, map, option_map};
ghost use Rattle.cn_base.specs.Cidr.{same_prefix};
ghost use Rattle.cn_change.specs.Journal.{IsReload, cut_fault, ends_fault, fault_of, first_twice, limit_fault, number_fault, pair_fault, place_fault, reload_fault, reset_fault, restore_fault, same_system_fault, unknown_peer_fault};
ghost use Rattle.cn_net.specs.Changed.{with_body};
ghost use Rattle.cn_net.specs.Exchange.{is_up};
ghost use Rattle.cn_net.specs.Network.{IsDevice, asn_of, same_device};

use crate::change::{Change, ChangeFault};
use crate::counting::prefix_count_with;
use cn_base::{Asn, DeviceId, Prefix};
use cn_net::{Body, DeviceSet, Neighbour, Net, Own, Peer, What, session_count};
use indexmap::IndexSet;
use std::alloc::{AllocError, Global};

const MOST_PREFIXES: u64 = 16384;

const MOST_ROWS: u64 = 16_777_216;

fn number_fault(net: &Net, d: DeviceId) -> Option<ChangeFault>
    ensures { result ≡ number_fault net.now d }
{
    if d.0 < net.count() {
        None
    } else {
        Some(ChangeFault::NoDevice { device: d })
    }
}

fn ends_fault(net: &Net, a: DeviceId, b: DeviceId) -> Option<ChangeFault>
    ensures { result ≡ ends_fault net.now a b }
{
    match number_fault(net, a) {
        Some(fault) => Some(fault),
        None => number_fault(net, b),
    }
}

/// The first peer that is no device.
fn unknown_peer_fault(net: &Net, peers: &[Peer]) -> Option<ChangeFault>
    ensures { result ≡ unknown_peer_fault net.now peers.now }
{
    let count = net.count();
    let found = peers.iter().find(|p| p.device.0 >= count);
    found.map(|p| ChangeFault::NoDevice { device: p.device })
}

fn is_up(net: &Net, a: DeviceId, b: DeviceId) -> bool
    ensures { result ≡ is_up net.now a b }
{
    match net.link(a, b) {
        Some(up) => up,
        None => false,
    }
}

/// What is looked for in each change of a link.
#[tactic(auto, unfolding(crate::specs::Journal::pair_fault))]
fn pair_fault(net: &Net, emulated: &DeviceSet, a: DeviceId, b: DeviceId) -> Option<ChangeFault>
    ensures { result ≡ pair_fault net.now emulated.now a b }
{
    if let Some(fault) = ends_fault(net, a, b) {
        return Some(fault);
    }
    if net.link(a, b).is_none() {
        return Some(ChangeFault::NoLink { a, b });
    }
    if !emulated.holds(a) && !emulated.holds(b) {
        return Some(ChangeFault::LinkOutside { a, b });
    }
    None
}

#[tactic(auto, unfolding(crate::specs::Journal::cut_fault))]
fn cut_fault(net: &Net, emulated: &DeviceSet, a: DeviceId, b: DeviceId) -> Option<ChangeFault>
    ensures { result ≡ cut_fault net.now emulated.now a b }
{
    if let Some(fault) = pair_fault(net, emulated, a, b) {
        return Some(fault);
    }
    if is_up(net, a, b) {
        None
    } else {
        Some(ChangeFault::AlreadyDown { a, b })
    }
}

#[tactic(auto, unfolding(crate::specs::Journal::restore_fault))]
fn restore_fault(net: &Net, emulated: &DeviceSet, a: DeviceId, b: DeviceId) -> Option<ChangeFault>
    ensures { result ≡ restore_fault net.now emulated.now a b }
{
    if let Some(fault) = pair_fault(net, emulated, a, b) {
        return Some(fault);
    }
    if is_up(net, a, b) {
        Some(ChangeFault::AlreadyUp { a, b })
    } else {
        None
    }
}

#[tactic(auto, unfolding(crate::specs::Journal::reset_fault))]
fn reset_fault(net: &Net, emulated: &DeviceSet, a: DeviceId, b: DeviceId) -> Option<ChangeFault>
    ensures { result ≡ reset_fault net.now emulated.now a b }
{
    if let Some(fault) = pair_fault(net, emulated, a, b) {
        return Some(fault);
    }
    if is_up(net, a, b) {
        None
    } else {
        Some(ChangeFault::IsDown { a, b })
    }
}

/// Of these neighbours, the first with this AS number.
fn neighbour_in(net: &Net, seen: &[Neighbour], asn: Asn) -> Option<DeviceId>
    ensures { result ≡ option_map (λ n. n.device)
        (find (λ n. (asn_of net.now n.device).0 == asn.0) seen.now) }
{
    let found = seen.iter().find(|n| net.asn(n.device) == asn);
    found.map(|n| n.device)
}

/// The least of the devices that are linked to one and have this AS number.
fn same_system_fault(net: &Net, d: DeviceId, asn: Asn) -> Option<ChangeFault>
    ensures { result ≡ same_system_fault net.now d asn }
{
    match neighbour_in(net, net.neighbours(d), asn) {
        Some(peer) => Some(ChangeFault::SameAs { peer }),
        None => None,
    }
}

/// The first prefix that stands in the list a second time.
fn repeated_prefix(alloc: Global, own: &[Own]) -> Result<Option<Prefix>, AllocError>
    ensures { IfOk result (λ r. r ≡ first_twice same_prefix (map (λ o. o.prefix) own.now)) }
{
    let mut before = IndexSet::new(alloc);
    for one in own {
        if !before.insert(one.prefix)? {
            return Ok(Some(one.prefix));
        }
    }
    Ok(None)
}

/// The first peer that stands in the list a second time.
fn repeated_peer(alloc: Global, peers: &[Peer]) -> Result<Option<DeviceId>, AllocError>
    ensures { IfOk result (λ r. r ≡ first_twice same_device (map (λ p. p.device) peers.now)) }
{
    let mut before = IndexSet::new(alloc);
    for one in peers {
        if !before.insert(one.device)? {
            return Ok(Some(one.device));
        }
    }
    Ok(None)
}

/// Whether there would be too much of something once the device has its new body.
#[tactic(auto, unfolding(crate::specs::Journal::limit_fault))]
fn limit_fault(
    alloc: Global,
    net: &Net,
    emulated: &DeviceSet,
    d: DeviceId,
    body: &Body,
) -> Result<Option<ChangeFault>, AllocError>
    requires { IsDevice net.now d }
    ensures { IfOk result (λ f. f ≡ limit_fault (with_body net.now d body.now) emulated.now) }
{
    let prefixes = prefix_count_with(alloc, net, d, body)?;
    if prefixes > MOST_PREFIXES {
        let what = What::Prefixes;
        return Ok(Some(ChangeFault::TooMany {
            what,
            count: prefixes,
        }));
    }
    let rows = session_count(net, emulated) * prefixes;
    if rows > MOST_ROWS {
        let what = What::Rows;
        return Ok(Some(ChangeFault::TooMany { what, count: rows }));
    }
    Ok(None)
}

/// What is looked for in a reload before its lists are looked through. It takes no memory.
#[tactic(auto, unfolding(crate::specs::Journal::place_fault))]
fn place_fault(net: &Net, emulated: &DeviceSet, d: DeviceId, body: &Body) -> Option<ChangeFault>
    ensures { result ≡ place_fault net.now emulated.now d body.now }
{
    if let Some(fault) = number_fault(net, d) {
        return Some(fault);
    }
    if let Some(fault) = unknown_peer_fault(net, body.peers.items()) {
        return Some(fault);
    }
    if !emulated.holds(d) {
        return Some(ChangeFault::NotEmulated { device: d });
    }
    same_system_fault(net, d, body.asn)
}

#[tactic(auto, unfolding(crate::specs::Journal::reload_fault))]
fn reload_fault(
    alloc: Global,
    net: &Net,
    emulated: &DeviceSet,
    d: DeviceId,
    body: &Body,
) -> Result<Option<ChangeFault>, AllocError>
    ensures { IfOk result (λ f. f ≡ reload_fault net.now emulated.now d body.now) }
{
    if let Some(fault) = place_fault(net, emulated, d, body) {
        return Ok(Some(fault));
    }
    if let Some(prefix) = repeated_prefix(alloc, body.own.items())? {
        return Ok(Some(ChangeFault::DuplicateOwn { prefix }));
    }
    if let Some(peer) = repeated_peer(alloc, body.peers.items())? {
        return Ok(Some(ChangeFault::DuplicatePeer { peer }));
    }
    limit_fault(alloc, net, emulated, d, body)
}

/// The first fault of a change, in the order in which `ChangeFault` has them. None comes exactly
/// where the change is accepted. Err comes only for want of memory, and only for a reload.
#[tactic(auto, unfolding(crate::specs::Journal::fault_of))]
pub fn fault(
    alloc: Global,
    net: &Net,
    emulated: &DeviceSet,
    change: &Change,
) -> Result<Option<ChangeFault>, AllocError>
    ensures first { IfOk result (λ f. f ≡ fault_of net.now emulated.now change.now) }
    ensures memory { OnErr result (IsReload change.now) }
{
    match change {
        Change::Reload { device, body } => reload_fault(alloc, net, emulated, *device, body),
        Change::Cut { a, b } => Ok(cut_fault(net, emulated, *a, *b)),
        Change::Restore { a, b } => Ok(restore_fault(net, emulated, *a, *b)),
        Change::Reset { a, b } => Ok(reset_fault(net, emulated, *a, *b)),
    }
}
