//! The next message of a session: the one of the packing rule (RFC 4271, 4.3 and 9.2), put together
//! from the lists of what is owed. `message` withdraws where a withdrawal is owed, and else
//! announces the least announcement with those that share its path and its ORIGIN.

ghost use Rattle.std.specs.Prelude.{◌≡◌, ◌<◌, ◌-◌, true, IfOk, None, Some, filter, length, map, option_map};
ghost use Rattle.std.specs.FinMap as fin;
ghost use Rattle.cn_core.specs.Owed.{advertised, rows};
ghost use Rattle.cn_core.specs.OwedLists.{IsListed, attrs_with, owed_over, shares};
ghost use Rattle.cn_core.specs.Stored.{held_under, session_under};
ghost use Rattle.cn_net.specs.Network.{router_of};
ghost use Rattle.cn_pack.specs.Packing.{packed};
ghost use Rattle.cn_wire.specs.Sizes.{longest_prefix_within};
ghost use Rattle.cn_wire.specs.Writing.{fits};

use crate::best::Best;
use crate::owed::Owed;
use crate::session::Session;
use cn_base::{Items, Prefix, Route};
use cn_net::Net;
use cn_pool::Pool;
use cn_rib::{PrefixMap, Row};
use cn_wire::{Attrs, Update, attrs_size, prefix_size};
use std::alloc::{AllocError, Global};

// What a message has beside its header and the lengths of its first two parts.
const ROOM: usize = 4096 - 23;

// As many of the first prefixes as the room holds.
fn fitting(alloc: Global, rows: &[Row<()>]) -> Result<Vec<Prefix>, AllocError>
    ensures { IfOk result (λ v. v.items
        ≡ longest_prefix_within 4073 (map (λ r. r.prefix) rows.now)) }
{
    let mut prefixes = Vec::new(alloc);
    let mut room = ROOM;
    for row in rows {
        let size = prefix_size(&row.prefix);
        if size > room {
            return Ok(prefixes);
        }
        room -= size;
        prefixes.push(row.prefix)?;
    }
    Ok(prefixes)
}

// Holds where what is offered for the prefix has this path and this ORIGIN.
fn shares(
    net: &Net,
    pool: &Pool,
    session: &Session,
    best: &PrefixMap<Best>,
    attrs: &Attrs,
    prefix: &Prefix,
) -> bool
    ensures { result
        ≡ shares net.now session.now.from session.now.to (held_under pool.now best.now)
        attrs.now.path attrs.now.origin prefix.now }
{
    match best.get(prefix) {
        Some(best) => net.is_offer(
            session.from,
            session.to,
            prefix,
            pool.path(best.path),
            best.origin,
            &attrs.path,
            attrs.origin,
        ),
        None => false,
    }
}

// Of the prefixes that share this path and this ORIGIN, as many of the first as the room holds.
fn sharing(
    alloc: Global,
    room: usize,
    net: &Net,
    pool: &Pool,
    session: &Session,
    best: &PrefixMap<Best>,
    attrs: &Attrs,
    rows: &[Row<()>],
) -> Result<Vec<Prefix>, AllocError>
    ensures { IfOk result (λ v. v.items
        ≡ longest_prefix_within room
        (filter
        (shares net.now session.now.from session.now.to (held_under pool.now best.now)
        attrs.now.path attrs.now.origin)
        (map (λ r. r.prefix) rows.now))) }
{
    let mut prefixes = Vec::new(alloc);
    let mut left = room;
    for row in rows {
        if shares(net, pool, session, best, attrs, &row.prefix) {
            let size = prefix_size(&row.prefix);
            if size > left {
                return Ok(prefixes);
            }
            left -= size;
            prefixes.push(row.prefix)?;
        }
    }
    Ok(prefixes)
}

// The path attributes with which a prefix is announced; none where nothing is offered for it.
fn attributes(
    alloc: Global,
    net: &Net,
    pool: &Pool,
    session: &Session,
    best: &PrefixMap<Best>,
    prefix: &Prefix,
) -> Result<Option<Attrs>, AllocError>
    ensures { IfOk result (λ o. o
        ≡ option_map (attrs_with (router_of net.now session.now.from).0)
        (advertised net.now session.now.from session.now.to (held_under pool.now best.now)
        prefix.now)) }
{
    let Some(best) = best.get(prefix) else {
        return Ok(None);
    };
    let (from, to) = (session.from, session.to);
    let path = pool.path(best.path);
    match net.offer_path(alloc, from, to, prefix, path, best.origin)? {
        Some(offer) => {
            let Route { path, origin, .. } = offer;
            let next_hop = net.router(from).0;
            Ok(Some(Attrs {
                origin,
                path,
                next_hop,
            }))
        }
        None => Ok(None),
    }
}

fn announcing(
    alloc: Global,
    net: &Net,
    pool: &Pool,
    session: &Session,
    best: &PrefixMap<Best>,
    lists: &Owed,
) -> Result<Update, AllocError>
    requires listed { IsListed
        (owed_over net.now (held_under pool.now best.now) (session_under pool.now session.now))
        lists.now }
    requires none { fin.len lists.now.withdrawals ≡ 0 }
    ensures exact { IfOk result (λ u. u
        ≡ packed
        (rows
        (owed_over net.now (held_under pool.now best.now) (session_under pool.now session.now)))
        (router_of net.now session.now.from).0) }
    ensures fits { IfOk result (λ u. fits u ≡ true) }
{
    let attrs = match lists.announcements.first() {
        Some(prefix) => attributes(alloc, net, pool, session, best, &prefix)?,
        None => None,
    };
    let withdrawn = Items::make(Vec::new(alloc));
    let Some(attrs) = attrs else {
        return Ok(Update {
            withdrawn,
            attrs: None,
            announced: Items::make(Vec::new(alloc)),
        });
    };
    let room = ROOM - attrs_size(&attrs);
    let rows = lists.announcements.rows();
    let announced = sharing(alloc, room, net, pool, session, best, &attrs, rows)?;
    Ok(Update {
        withdrawn,
        attrs: Some(attrs),
        announced: Items::make(announced),
    })
}

/// The next message of what a session owes, which fits in 4,096 octets (RFC 4271, 4.1). Where
/// nothing is owed, it says nothing.
pub fn message(
    alloc: Global,
    net: &Net,
    pool: &Pool,
    session: &Session,
    best: &PrefixMap<Best>,
    lists: &Owed,
) -> Result<Update, AllocError>
    requires { IsListed
        (owed_over net.now (held_under pool.now best.now) (session_under pool.now session.now))
        lists.now }
    ensures exact { IfOk result (λ u. u
        ≡ packed
        (rows
        (owed_over net.now (held_under pool.now best.now) (session_under pool.now session.now)))
        (router_of net.now session.now.from).0) }
    ensures fits { IfOk result (λ u. fits u ≡ true) }
{
    if lists.withdrawals.is_empty() {
        return announcing(alloc, net, pool, session, best, lists);
    }
    Ok(Update {
        withdrawn: Items::make(fitting(alloc, lists.withdrawals.rows())?),
        attrs: None,
        announced: Items::make(Vec::new(alloc)),
    })
}
