//! The message of the packing rule.

ghost use Rattle.std.specs.Prelude.{◌≡◌, ◌<◌, ◌≤◌, ◌+◌, true, length, is_none, IfOk, IfSome, Some};
ghost use Rattle.std.specs.List.{list_any};
ghost use Rattle.cn_pack.specs.Packing.{Ascends, IsPacked, packed, withdrawals, likewise, announced_by};
ghost use Rattle.cn_wire.specs.Sizes.{longest_prefix_within};
ghost use Rattle.cn_wire.specs.Writing.{fits, spelled_attrs};

use crate::owed::Owed;
use cn_base::{AsPath, Items, Origin, Prefix};
use cn_wire::{Attrs, Update, attrs_size, prefix_size};
use std::alloc::{AllocError, Global};

// What a message has beside its header and the lengths of its first two parts.
const ROOM: usize = 4096 - 23;

// Holds where a withdrawal is owed.
fn withdraws(owed: &[Owed]) -> bool
    ensures { result ≡ list_any (λ o. is_none o.wanted) owed.now }
{
    owed.iter().any(|one| one.wanted.is_none())
}

// The prefixes that are to be withdrawn, as many of the first as a message holds.
fn withdrawn_of(alloc: Global, owed: &[Owed]) -> Result<Vec<Prefix>, AllocError>
    ensures { IfOk result (λ v. v.items ≡ longest_prefix_within 4073 (withdrawals owed.now)) }
{
    let mut withdrawn = Vec::new(alloc);
    let mut room = ROOM;
    for one in owed {
        if one.wanted.is_none() {
            let size = prefix_size(&one.prefix);
            if size > room {
                return Ok(withdrawn);
            }
            room -= size;
            withdrawn.push(one.prefix)?;
        }
    }
    Ok(withdrawn)
}

// The prefixes that are to be announced with this path and this ORIGIN, as many of the first as the
// room holds.
fn announced_of(
    alloc: Global,
    room: usize,
    path: &AsPath,
    origin: Origin,
    owed: &[Owed],
) -> Result<Vec<Prefix>, AllocError>
    ensures { IfOk result (λ v. v.items ≡ longest_prefix_within room
        (likewise path.now origin owed.now)) }
{
    let mut announced = Vec::new(alloc);
    let mut left = room;
    for one in owed {
        if one.wants(path, origin) {
            let size = prefix_size(&one.prefix);
            if size > left {
                return Ok(announced);
            }
            left -= size;
            announced.push(one.prefix)?;
        }
    }
    Ok(announced)
}

// The message that announces with this path and this ORIGIN; none where the first prefix is to be
// withdrawn.
fn announcing(
    alloc: Global,
    wanted: &Option<(AsPath, Origin)>,
    owed: &[Owed],
    next_hop: u32,
) -> Result<Update, AllocError>
    ensures gives { IfOk result (λ u. u ≡ announced_by wanted.now owed.now next_hop) }
    ensures small { IfOk result (λ _. IfSome wanted.now (λ w. length
        (spelled_attrs (Some (record { origin = w.1; path = w.0; next_hop = next_hop })))
        ≤ 1037)) }
{
    match wanted {
        None => Ok(Update {
            withdrawn: Items::make(Vec::new(alloc)),
            attrs: None,
            announced: Items::make(Vec::new(alloc)),
        }),
        Some(kept) => {
            let attrs = Attrs {
                origin: kept.1,
                path: kept.0.copy(alloc)?,
                next_hop,
            };
            let room = ROOM - attrs_size(&attrs);
            let announced = announced_of(alloc, room, &kept.0, kept.1, owed)?;
            Ok(Update {
                withdrawn: Items::make(Vec::new(alloc)),
                attrs: Some(attrs),
                announced: Items::make(announced),
            })
        }
    }
}

/// The message of the packing rule. Where a withdrawal is owed, it withdraws the owed withdrawals
/// in their order, as many of the first as fit. Otherwise it announces the first prefix and, in
/// their order, those with the same path and ORIGIN, as many of the first as fit. It has at most
/// 4,096 octets (RFC 4271, 4.1).
pub fn next_message(alloc: Global, owed: &[Owed], next_hop: u32) -> Result<Update, AllocError>
    requires some { 0 < length owed.now }
    requires ascends { Ascends owed.now }
    ensures rule { IfOk result (λ u. IsPacked owed.now next_hop u) }
    ensures exact { IfOk result (λ u. u ≡ packed owed.now next_hop) }
    ensures fits { IfOk result (λ u. fits u ≡ true) }
    ensures never_empty { IfOk result (λ u. 0 < length u.withdrawn + length u.announced) }
{
    if withdraws(owed) {
        return Ok(Update {
            withdrawn: Items::make(withdrawn_of(alloc, owed)?),
            attrs: None,
            announced: Items::make(Vec::new(alloc)),
        });
    }
    announcing(alloc, &owed[0].wanted, owed, next_hop)
}
