//! Addresses and prefixes, and texts that are an atom as a whole.

ghost use Rattle.std.specs.Prelude.{◌≡◌, ◌≤◌, ◌<◌, ◌+◌, ◌-◌, ◌^◌, ◌++◌, List, ℕ, Ok, Some, false, length, take, drop, slice_index, IfOk};
ghost use Rattle.cn_base.specs.Cidr.{Cidr, IsCidr};
ghost use Rattle.cn_text.specs.Number.{is_digit};
ghost use Rattle.cn_text.specs.Printed.{address, prefix_text};
ghost use Rattle.cn_text.specs.Atoms.{mark_at, address_at, address_of, prefix_at, prefix_of, whole};

use crate::number::{Bad, read_number};
use cn_base::Prefix;

/// The place after the mark that stands at a place.
pub fn read_mark(bytes: &[u8], at: usize, mark: u8) -> Result<usize, Bad>
    ensures value { result ≡ mark_at bytes.now at mark }
    ensures within { IfOk result (λ after. after ≤ length bytes.now) }
{
    match bytes.get(at) {
        Some(byte) if *byte == mark => Ok(at + 1),
        _ => Err(Bad { at }),
    }
}

/// The address at a place, its four octets as one number, and the place after it: four numbers up
/// to 255, joined by dots. The Err has the first octet that can't stand where it does.
#[tactic(auto, unfolding(crate::specs::Atoms::address_at))]
pub fn read_address(bytes: &[u8], at: usize) -> Result<(u32, usize), Bad>
    requires { at ≤ length bytes.now }
    ensures value { result ≡ address_at bytes.now at }
    ensures within { IfOk result (λ x. x.1 ≤ length bytes.now) }
{
    let (a, after) = read_number(bytes, at, 255)?;
    let at = read_mark(bytes, after, b'.')?;
    let (b, after) = read_number(bytes, at, 255)?;
    let at = read_mark(bytes, after, b'.')?;
    let (c, after) = read_number(bytes, at, 255)?;
    let at = read_mark(bytes, after, b'.')?;
    let (d, after) = read_number(bytes, at, 255)?;
    Ok(((a * 16_777_216 + b * 65_536 + c * 256 + d) as u32, after))
}

/// The prefix at a place, and the place after it: an address, a slash and a length up to 32. A
/// length after which a bit of the address is set is refused at its first octet.
#[tactic(auto, unfolding(crate::specs::Atoms::prefix_at))]
pub fn read_prefix(bytes: &[u8], at: usize) -> Result<(Prefix, usize), Bad>
    requires { at ≤ length bytes.now }
    ensures value { result ≡ prefix_at bytes.now at }
    ensures within { IfOk result (λ x. x.1 ≤ length bytes.now) }
{
    let (bits, after) = read_address(bytes, at)?;
    let place = read_mark(bytes, after, b'/')?;
    let (len, after) = read_number(bytes, place, 32)?;
    match Prefix::new(bits, len as u8) {
        Some(prefix) => Ok((prefix, after)),
        None => Err(Bad { at: place }),
    }
}

/// The atom that a text is as a whole, by what was read at its front. None comes exactly where
/// nothing was read, or something stands after it.
pub fn whole<T: Drop>(read: Result<(T, usize), Bad>, text: &[u8]) -> Option<T>
    ensures { result ≡ whole text.now read }
{
    match read {
        Ok((atom, after)) if after == text.len() => Some(atom),
        _ => None,
    }
}

/// The address that a text is as a whole. None comes exactly where it isn't one.
pub fn address_of(text: &[u8]) -> Option<u32>
    ensures { result ≡ address_of text.now }
{
    whole(read_address(text, 0), text)
}

/// The prefix that a text is as a whole. None comes exactly where it isn't one.
pub fn prefix_of(text: &[u8]) -> Option<Prefix>
    ensures { result ≡ prefix_of text.now }
{
    whole(read_prefix(text, 0), text)
}

/// Each address has one spelling, the printed one: what is read is what would be printed, and what
/// is printed is read, whatever follows it that is no digit. So a text is an address as a whole
/// exactly where it is a printed one.
pub fn address_has_one_spelling()
    ensures read_is_printed { (bytes : List ℕ) (at n after : ℕ)
        → address_at bytes at ≡ Ok (n, after)
        → (n < 2 ^ 32) × (take (after - at) (drop at bytes) ≡ address n) }
    ensures printed_is_read { (bytes tail : List ℕ) (at n : ℕ) → drop at bytes ≡ address n ++ tail
        → n < 2 ^ 32 → is_digit (slice_index tail 0) ≡ false
        → address_at bytes at ≡ Ok (n, at + length (address n)) }
    ensures whole_is_printed { (text : List ℕ) (n : ℕ) → address_of text ≡ Some n
        → (n < 2 ^ 32) × (text ≡ address n) }
    ensures printed_is_whole { (n : ℕ) → n < 2 ^ 32 → address_of (address n) ≡ Some n }
{}

/// Each prefix has one spelling, the printed one, in the same sense.
pub fn prefix_has_one_spelling()
    ensures read_is_printed { (bytes : List ℕ) (at : ℕ) (p : Cidr) (after : ℕ)
        → prefix_at bytes at ≡ Ok (p, after)
        → IsCidr p × (take (after - at) (drop at bytes) ≡ prefix_text p) }
    ensures printed_is_read { (bytes tail : List ℕ) (at : ℕ) (p : Cidr)
        → drop at bytes ≡ prefix_text p ++ tail → p.bits < 2 ^ 32 → IsCidr p
        → is_digit (slice_index tail 0) ≡ false
        → prefix_at bytes at ≡ Ok (p, at + length (prefix_text p)) }
    ensures whole_is_printed { (text : List ℕ) (p : Cidr) → prefix_of text ≡ Some p
        → IsCidr p × (text ≡ prefix_text p) }
    ensures printed_is_whole { (p : Cidr) → p.bits < 2 ^ 32 → IsCidr p
        → prefix_of (prefix_text p) ≡ Some p }
{}
