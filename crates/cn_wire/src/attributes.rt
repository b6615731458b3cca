//! Reads path attributes (RFC 4271, 4.3 and 5). A reader takes the part of the message in which it
//! reads, and the place at which that part or the attribute stands.

ghost use Rattle.std.specs.Prelude.{◌≡◌, ◌<◌, ◌≤◌, ◌+◌, ◌*◌, length, IfOk};
ghost use Rattle.cn_wire.specs.Numbers.{number_2, number_4};
ghost use Rattle.cn_wire.specs.Reading.{Gives, sizes_at, is_wide, is_known, has, head_at, origin_at, numbers_in, counted_at, path_at, next_hop_at, add_at, attribute_at, attributes_at, nothing, whole, attrs_of};

use crate::fault::{AttrCause, WireAnswer, attr, bounds, missing};
use crate::prefixes::octet;
use crate::update::Attrs;
use byteorder::{BigEndian, ByteOrder};
use cn_base::{AsPath, Asn, Origin};
use std::alloc::{AllocError, Global};

// The types of path attributes (RFC 4271, 4.3).
pub(crate) const ORIGIN: u8 = 1;

pub(crate) const AS_PATH: u8 = 2;

pub(crate) const NEXT_HOP: u8 = 3;

// The type of the one kind of segment in an AS_PATH.
pub(crate) const AS_SEQUENCE: u8 = 2;

/// The attributes that were read so far.
#[derive(Debug, Drop)]
pub struct Found {
    pub origin: Option<Origin>,
    pub path: Option<AsPath>,
    pub next_hop: Option<u32>,
}

// How many octets stand before the value, and how many the value has.
#[tactic(auto, unfolding(crate::specs::Reading::sizes_at))]
fn sizes_of(at: usize, bytes: &[u8]) -> Result<(usize, usize), WireAnswer>
    ensures gives { Gives (λ x. x) result (sizes_at at bytes.now) }
    ensures small { IfOk result (λ x. (1 ≤ x.0) × (x.0 ≤ 4) × (x.1 < 65536)) }
{
    let extended_length = octet(bytes, 0) / 16 % 2 == 1;
    if extended_length {
        if bytes.len() < 4 {
            return Err(bounds(at));
        }
        Ok((4, usize::from(BigEndian::read_u16(&bytes[2..]))))
    } else {
        if bytes.len() < 3 {
            return Err(bounds(at));
        }
        Ok((3, usize::from(bytes[2])))
    }
}

impl Found {
    // Holds where an attribute of this type was read.
    fn has(&self, kind: u8) -> bool
        ensures { result ≡ has self.now kind }
    {
        if kind == ORIGIN {
            self.origin.is_some()
        } else if kind == AS_PATH {
            self.path.is_some()
        } else {
            self.next_hop.is_some()
        }
    }
}

// The type and the value of the attribute that stands first, and what comes after it.
#[tactic(auto, unfolding(crate::specs::Reading::head_at))]
fn head_of<'a>(
    at: usize,
    found: &Found,
    bytes: &'a [u8],
) -> Result<(u8, &'a [u8], &'a [u8]), WireAnswer>
    ensures gives { Gives (λ x. (x.0, x.1.now, x.2.now)) result (head_at at found.now bytes.now) }
    ensures shorter { IfOk result (λ x. length x.2.now < length bytes.now) }
{
    let (before, size) = sizes_of(at, bytes)?;
    let kind = octet(bytes, 1);
    if kind != ORIGIN && kind != AS_PATH && kind != NEXT_HOP {
        return Err(attr(at, kind, AttrCause::Kind));
    }
    if found.has(kind) {
        return Err(attr(at, kind, AttrCause::Repeated));
    }
    let well_known = octet(bytes, 0) / 32 == 2;
    if !well_known {
        return Err(attr(at, kind, AttrCause::Flags));
    }
    if bytes.len() < before + size {
        return Err(bounds(at));
    }
    let (value, rest) = bytes[before..].split_at(size);
    Ok((kind, value, rest))
}

#[tactic(auto, unfolding(crate::specs::Reading::origin_at))]
fn origin_of(at: usize, value: &[u8]) -> Result<Origin, WireAnswer>
    ensures { Gives (λ x. x) result (origin_at at value.now) }
{
    match value {
        [0] => Ok(Origin::Igp),
        [1] => Ok(Origin::Egp),
        [2] => Ok(Origin::Incomplete),
        [_] => Err(attr(at, ORIGIN, AttrCause::Value)),
        _ => Err(attr(at, ORIGIN, AttrCause::Size)),
    }
}

// The path of so many numbers of four octets each.
fn numbers_of(alloc: Global, count: u8, bytes: &[u8]) -> Result<AsPath, AllocError>
    requires { length bytes.now ≡ 4 * count }
    ensures { IfOk result (λ p. p ≡ numbers_in count bytes.now) }
{
    let mut numbers = Vec::new(alloc);
    let mut rest = bytes;
    for _ in 0..count {
        numbers.push(Asn(BigEndian::read_u32(rest)))?;
        let (_, after) = rest.split_at(4);
        rest = after;
    }
    Ok(AsPath::make(numbers).unwrap())
}

// An AS_SEQUENCE of at least one number.
#[tactic(auto, unfolding(crate::specs::Reading::counted_at))]
fn counted_of(alloc: Global, at: usize, bytes: &[u8]) -> Result<AsPath, WireAnswer>
    ensures { Gives (λ x. x) result (counted_at at bytes.now) }
{
    match bytes {
        [] => Err(attr(at, AS_PATH, AttrCause::Size)),
        [0, ..] => Err(attr(at, AS_PATH, AttrCause::Size)),
        [count, numbers @ ..] => {
            if numbers.len() != 4 * usize::from(*count) {
                return Err(attr(at, AS_PATH, AttrCause::Size));
            }
            Ok(numbers_of(alloc, *count, numbers)?)
        }
    }
}

#[tactic(auto, unfolding(crate::specs::Reading::path_at))]
fn path_of(alloc: Global, at: usize, value: &[u8]) -> Result<AsPath, WireAnswer>
    ensures { Gives (λ x. x) result (path_at at value.now) }
{
    match value {
        [] => Ok(AsPath::empty(alloc)),
        [segment, rest @ ..] => {
            if *segment != AS_SEQUENCE {
                return Err(attr(at, AS_PATH, AttrCause::Segment));
            }
            counted_of(alloc, at, rest)
        }
    }
}

#[tactic(auto, unfolding(crate::specs::Reading::next_hop_at))]
fn next_hop_of(at: usize, value: &[u8]) -> Result<u32, WireAnswer>
    ensures { Gives (λ x. x) result (next_hop_at at value.now) }
{
    if value.len() != 4 {
        return Err(attr(at, NEXT_HOP, AttrCause::Size));
    }
    Ok(BigEndian::read_u32(value))
}

// What was read with the value of this type.
#[tactic(auto, unfolding(crate::specs::Reading::add_at))]
fn add_value(
    alloc: Global,
    at: usize,
    found: Found,
    kind: u8,
    value: &[u8],
) -> Result<Found, WireAnswer>
    ensures { Gives (λ x. x) result (add_at at found kind value.now) }
{
    let Found {
        origin,
        path,
        next_hop,
    } = found;
    if kind == ORIGIN {
        let origin = Some(origin_of(at, value)?);
        Ok(Found {
            origin,
            path,
            next_hop,
        })
    } else if kind == AS_PATH {
        let path = Some(path_of(alloc, at, value)?);
        Ok(Found {
            origin,
            path,
            next_hop,
        })
    } else {
        let next_hop = Some(next_hop_of(at, value)?);
        Ok(Found {
            origin,
            path,
            next_hop,
        })
    }
}

// What was read with the attribute that stands first, and what comes after it.
#[tactic(auto, unfolding(crate::specs::Reading::attribute_at))]
fn attribute_of<'a>(
    alloc: Global,
    end: usize,
    found: Found,
    bytes: &'a [u8],
) -> Result<(Found, &'a [u8]), WireAnswer>
    ensures gives { Gives (λ x. (x.0, x.1.now)) result (attribute_at end found bytes.now) }
    ensures shorter { IfOk result (λ x. length x.1.now < length bytes.now) }
{
    let at = end.saturating_sub(bytes.len());
    let (kind, value, rest) = head_of(at, &found, bytes)?;
    let more = add_value(alloc, at, found, kind, value)?;
    Ok((more, rest))
}

// All the attributes of a part of the message.
pub(crate) fn attributes_of(alloc: Global, end: usize, bytes: &[u8]) -> Result<Found, WireAnswer>
    ensures { Gives (λ x. x) result (attributes_at (length bytes.now) end nothing bytes.now) }
{
    let mut found = Found {
        origin: None,
        path: None,
        next_hop: None,
    };
    let mut rest = bytes;
    while !rest.is_empty() {
        match attribute_of(alloc, end, found, rest) {
            Ok((more, after)) => {
                found = more;
                rest = after;
            }
            Err(e) => return Err(e),
        }
    }
    Ok(found)
}

// All three attributes, or the least type that is missing.
#[tactic(auto, unfolding(crate::specs::Reading::whole))]
fn whole(found: Found) -> Result<Attrs, WireAnswer>
    ensures { Gives (λ x. x) result (whole found) }
{
    let Found {
        origin,
        path,
        next_hop,
    } = found;
    match origin {
        None => Err(missing(ORIGIN)),
        Some(origin) => match path {
            None => Err(missing(AS_PATH)),
            Some(path) => match next_hop {
                None => Err(missing(NEXT_HOP)),
                Some(next_hop) => Ok(Attrs {
                    origin,
                    path,
                    next_hop,
                }),
            },
        },
    }
}

// None where there are no octets of attributes and nothing is announced, else all three.
#[tactic(auto, unfolding(crate::specs::Reading::attrs_of))]
pub(crate) fn attrs_of(
    size: usize,
    announced: usize,
    found: Found,
) -> Result<Option<Attrs>, WireAnswer>
    ensures { Gives (λ x. x) result (attrs_of size announced found) }
{
    if size == 0 {
        if announced == 0 {
            return Ok(None);
        }
    }
    Ok(Some(whole(found)?))
}
