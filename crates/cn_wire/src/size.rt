//! How many octets the parts of a message take (RFC 4271, 4.1 and 4.3), and which updates have a
//! message.

ghost use Rattle.std.specs.Prelude.{◌≡◌, ◌≤◌, nat_le, length, Some};
ghost use Rattle.cn_wire.specs.Sizes.{room_after};
ghost use Rattle.cn_wire.specs.Spelling.{has_attrs, attribute_of_path};
ghost use Rattle.cn_wire.specs.Writing.{fits, spelling, spelled_prefix, spelled_attribute, spelled_attrs};

use crate::update::{Attrs, Update};
use cn_base::{AsPath, Prefix};

// What a message may have beside the marker, its length and type, and the lengths of its first two
// parts.
const ROOM: usize = 4096 - 23;

/// How many octets a prefix takes.
pub fn prefix_size(prefix: &Prefix) -> usize
    ensures { result ≡ length (spelled_prefix prefix.now) }
{
    let bits = usize::from(prefix.len());
    1 + ((bits + 7) / 8).min(4)
}

// What is left of the room after these prefixes; none where it doesn't hold them.
fn room_after(room: usize, prefixes: &[Prefix]) -> Option<usize>
    ensures { result ≡ room_after room prefixes.now }
{
    let mut left = room;
    for prefix in prefixes {
        let size = prefix_size(prefix);
        if size > left {
            return None;
        }
        left -= size;
    }
    Some(left)
}

// The value of a path of 64 numbers is the first whose length takes two octets.
fn path_size(path: &AsPath) -> usize
    ensures size { result ≡ length (spelled_attribute (attribute_of_path path.now)) }
    ensures small { result ≤ 1026 }
{
    let numbers = path.items();
    if numbers.is_empty() {
        return 3;
    }
    if numbers.len() < 64 {
        return 5 + 4 * numbers.len();
    }
    6 + 4 * numbers.len()
}

/// How many octets attributes take: at most 1,037, so that a message has room for a prefix beside
/// them.
pub fn attrs_size(attrs: &Attrs) -> usize
    ensures size { result ≡ length (spelled_attrs (Some attrs.now)) }
    ensures small { result ≤ 1037 }
{
    11 + path_size(&attrs.path)
}

fn size_of(attrs: &Option<Attrs>) -> usize
    ensures { result ≡ length (spelled_attrs attrs.now) }
{
    match attrs {
        None => 0,
        Some(attrs) => attrs_size(attrs),
    }
}

// Holds where the message has at most 4,096 octets.
fn has_room(update: &Update) -> bool
    ensures { result ≡ nat_le (length (spelling update.now)) 4096 }
{
    let size = size_of(&update.attrs);
    match room_after(ROOM, update.withdrawn.items()) {
        None => false,
        Some(left) => {
            if left < size {
                return false;
            }
            room_after(left - size, update.announced.items()).is_some()
        }
    }
}

fn has_attrs(update: &Update) -> bool
    ensures { result ≡ has_attrs update.now }
{
    update.attrs.is_some() || update.announced.items().is_empty()
}

/// Holds where the update has a message: one of at most 4,096 octets that announces nothing without
/// attributes.
pub fn fits(update: &Update) -> bool
    ensures { result ≡ fits update.now }
{
    has_room(update) && has_attrs(update)
}
