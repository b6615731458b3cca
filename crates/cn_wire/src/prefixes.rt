//! Reads prefixes (RFC 4271, 4.3). A reader takes the part of the message in which it reads, and
//! the place at which that part ends; what it has left tells how far it came.

ghost use Rattle.std.specs.Prelude.{◌≡◌, ◌<◌, ◌≤◌, ◌+◌, ◌-◌, ◌*◌, ◌/◌, length, slice_index, IfOk, take, drop};
ghost use Rattle.cn_wire.specs.Numbers.{octets_for, masked};
ghost use Rattle.cn_wire.specs.Reading.{Gives, prefix_at, prefixes_at};

use crate::fault::{WireAnswer, WireFault, bounds};
use byteorder::{BigEndian, ByteOrder};
use cn_base::{Items, Prefix};
use std::alloc::Global;

// The octet at a place, and 0 where there is none.
pub(crate) fn octet(bytes: &[u8], i: usize) -> u8
    ensures { result ≡ slice_index bytes.now i }
{
    bytes.get(i).copied().unwrap_or(0)
}

// The prefix of this length whose bits begin with these.
fn masked(bits: u32, len: u8) -> Prefix
    requires { len ≤ 32 }
    ensures { result ≡ record { bits = masked len bits; len = len } }
{
    let size = 1u64 << (32 - len);
    let clear = u64::from(bits) / size * size;
    Prefix::new(clear as u32, len).unwrap()
}

// The prefix that stands first, and what comes after it.
#[tactic(auto, unfolding(crate::specs::Reading::prefix_at))]
fn prefix_of(end: usize, bytes: &[u8]) -> Result<(Prefix, &[u8]), WireAnswer>
    ensures gives { Gives (λ x. (x.0, x.1.now)) result (prefix_at end bytes.now) }
    ensures shorter { IfOk result (λ x. length x.1.now < length bytes.now) }
{
    let at = end.saturating_sub(bytes.len());
    match bytes {
        [] => Err(bounds(at)),
        [len, rest @ ..] => {
            let len = *len;
            if len > 32 {
                return Err(WireAnswer::Fault(WireFault::PrefixLength {
                    at,
                    value: u16::from(len),
                }));
            }
            let count = (usize::from(len) + 7) / 8;
            if rest.len() < count {
                return Err(bounds(at));
            }
            let (bits, rest) = rest.split_at(count);
            let bits = u32::from_be_bytes([
                octet(bits, 0),
                octet(bits, 1),
                octet(bits, 2),
                octet(bits, 3),
            ]);
            Ok((masked(bits, len), rest))
        }
    }
}

// All the prefixes of a part of the message.
pub(crate) fn prefixes_of(
    alloc: Global,
    end: usize,
    bytes: &[u8],
) -> Result<Items<Prefix>, WireAnswer>
    ensures { Gives (λ x. x) result (prefixes_at (length bytes.now) end bytes.now) }
{
    let mut prefixes = Vec::new(alloc);
    let mut rest = bytes;
    while !rest.is_empty() {
        match prefix_of(end, rest) {
            Ok(read) => {
                prefixes.push(read.0)?;
                rest = read.1;
            }
            Err(e) => return Err(e),
        }
    }
    Ok(Items::make(prefixes))
}
