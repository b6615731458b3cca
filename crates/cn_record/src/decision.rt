//! What a device decides for a prefix (RFC 4271, 9.1.2), where what the others hold stands in a
//! table.
//!
//! `decided` takes a device's own route, or else the best of what its neighbours offer: `learnt`
//! goes through them and keeps the best so far beside its rank, and `cn_decide` compares. An offer
//! copies the path that is held, so `better_candidate` makes none that can't be taken: the device
//! would refuse it as a loop, or the best so far stands before it whatever it is.

ghost use Rattle.std.specs.Prelude.{◌≡◌, length, IfOk, None, Some, option_map};
ghost use Rattle.std.specs.List.{fold};
ghost use Rattle.cn_decide.specs.Decide.{better, with_rank};
ghost use Rattle.cn_net.specs.Candidates.{rank_of, usable};
ghost use Rattle.cn_net.specs.Network.{IsDevice, peers_of};
ghost use Rattle.cn_record.specs.Rounds.{begins_with};
ghost use Rattle.cn_record.specs.Tables.{decided, ranked_candidate, no_offer_outranks};

use cn_base::{AsPath, Asn, Choice, DeviceId, Prefix, Rank, Route};
use cn_decide::{Ranked, better, rank_with};
use cn_net::Net;
use std::alloc::{AllocError, Global};

// The better of the best so far and of an offered route, if the device accepts it.
#[tactic(auto, unfolding(cn_net::specs::Candidates::usable))]
fn better_accepted(
    net: &Net,
    device: DeviceId,
    from: DeviceId,
    route: Route,
    best: Option<Ranked<Choice>>,
) -> Option<Ranked<Choice>>
    ensures { result
        ≡ better best
        (option_map (with_rank (rank_of net.now)) (usable net.now device from (Some route))) }
{
    if !net.accept(device, from, &route) {
        return best;
    }
    let Route { path, origin, .. } = route;
    let rank = rank_with(true, &path, origin, net.router(from));
    let item = Choice {
        from: Some(from),
        path,
        origin,
    };
    better(best, Ranked { rank, item })
}

// Holds where no offer of what a device holds can outrank the best so far: an offer is at least one
// number longer, and has the same ORIGIN.
fn no_offer_outranks(
    net: &Net,
    best: &Option<Ranked<Choice>>,
    from: DeviceId,
    held: &Choice,
) -> bool
    ensures { result ≡ no_offer_outranks net.now best.now from held.now }
{
    match best {
        Some(best) => {
            let rank = rank_with(true, &held.path, held.origin, net.router(from));
            let shortest = Rank {
                length: rank.length.saturating_add(1),
                ..rank
            };
            !shortest.is_before(&best.rank)
        }
        None => false,
    }
}

/// Holds where the path begins with the number. What is offered of it then holds the number too.
pub fn begins_with(path: &AsPath, asn: Asn) -> bool
    ensures { result ≡ begins_with path.now asn }
{
    match path.items() {
        [first, ..] => *first == asn,
        [] => false,
    }
}

// The better of the best so far and of what one more device offers. What that one holds is looked
// at first: an offer ends with the path that is held, so where that begins with the device's AS
// number the offer is refused (RFC 4271, 9.1.2). A number further behind is found in the offer.
fn better_candidate(
    alloc: Global,
    net: &Net,
    table: &[Option<Choice>],
    device: DeviceId,
    prefix: &Prefix,
    from: DeviceId,
    best: Option<Ranked<Choice>>,
) -> Result<Option<Ranked<Choice>>, AllocError>
    requires from { IsDevice net.now from }
    requires size { length table.now ≡ length net.now.devices }
    ensures { IfOk result
        (λ o. o ≡ better best (ranked_candidate net.now prefix.now table.now device from)) }
{
    let held = match &table[from.0 as usize] {
        Some(held) => held,
        None => return Ok(best),
    };
    if no_offer_outranks(net, &best, from, held) {
        return Ok(best);
    }
    if begins_with(&held.path, net.asn(device)) {
        return Ok(best);
    }
    match net.offer_path(alloc, from, device, prefix, &held.path, held.origin)? {
        Some(route) => Ok(better_accepted(net, device, from, route, best)),
        None => Ok(best),
    }
}

// The best of what the neighbours of a device offer it, beside its rank.
fn learnt(
    alloc: Global,
    net: &Net,
    table: &[Option<Choice>],
    device: DeviceId,
    prefix: &Prefix,
) -> Result<Option<Ranked<Choice>>, AllocError>
    requires size { length table.now ≡ length net.now.devices }
    ensures { IfOk result
        (λ o. o ≡ fold
        (λ best a. better best (ranked_candidate net.now prefix.now table.now device a)) None
        (peers_of net.now device)) }
{
    net.valid();
    let mut best = None;
    for neighbour in net.neighbours(device) {
        // Most neighbours of a hub hold nothing: they aren't called about.
        if table[neighbour.device.0 as usize].is_some() {
            best = better_candidate(alloc, net, table, device, prefix, neighbour.device, best)?;
        }
    }
    Ok(best)
}

/// What a device decides for a prefix.
pub fn decided(
    alloc: Global,
    net: &Net,
    table: &[Option<Choice>],
    device: DeviceId,
    prefix: &Prefix,
) -> Result<Option<Choice>, AllocError>
    requires device { IsDevice net.now device }
    requires size { length table.now ≡ length net.now.devices }
    ensures { IfOk result (λ o. o ≡ decided net.now prefix.now table.now device) }
{
    if let Some(origin) = net.own_origin(device, prefix) {
        return Ok(Some(Choice {
            from: None,
            path: AsPath::empty(alloc),
            origin,
        }));
    }
    match learnt(alloc, net, table, device, prefix)? {
        Some(best) => Ok(Some(best.item)),
        None => Ok(None),
    }
}
