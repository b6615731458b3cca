//! Reads UPDATE messages (RFC 4271, 4.1 and 4.3).

ghost use Rattle.std.specs.Prelude.{◌≡◌, ◌≤◌, ◌+◌, length, IfOk, Ok, Err, Some};
ghost use Rattle.cn_wire.specs.Reading.{Gives, marker_fault, sized_as, framed, field_at, body_at, update_of, fault_of};
ghost use Rattle.cn_wire.specs.Spelling.{Spells};
ghost use Rattle.cn_wire.specs.declared.fault.WireFault.{WireFault};
ghost use Rattle.cn_wire.specs.declared.update.Update.{Update};

use crate::attributes::{attributes_of, attrs_of};
use crate::fault::{WireAnswer, WireFault, bounds};
use crate::prefixes::prefixes_of;
use crate::update::Update;
use byteorder::{BigEndian, ByteOrder};
use std::alloc::Global;

// The place of the first octet of the marker that isn't FF.
fn marker_fault(bytes: &[u8]) -> Option<usize>
    requires { 16 ≤ length bytes.now }
    ensures { result ≡ marker_fault bytes.now }
{
    bytes[..16].iter().position(|b| *b != 255)
}

// The length and the type that the header gives are those of an UPDATE of so many octets.
#[tactic(auto, unfolding(crate::specs::Reading::sized_as))]
fn sized_as(have: usize, size: u16, kind: u8) -> Result<(), WireAnswer>
    ensures gives { Gives (λ x. x) result (sized_as have size kind) }
    ensures within { IfOk result (λ _. (23 ≤ have) × (have ≤ 4096)) }
{
    if size < 19 {
        return Err(WireAnswer::Fault(WireFault::Length { value: size }));
    }
    if size > 4096 {
        return Err(WireAnswer::Fault(WireFault::Length { value: size }));
    }
    if kind != 2 {
        return Err(WireAnswer::Fault(WireFault::Kind {
            value: u16::from(kind),
        }));
    }
    if size < 23 {
        return Err(WireAnswer::Fault(WireFault::Length { value: size }));
    }
    let want = usize::from(size);
    if have < want {
        return Err(WireAnswer::Fault(WireFault::Short { have, want }));
    }
    if have > want {
        return Err(WireAnswer::Fault(WireFault::Trailing { at: want }));
    }
    Ok(())
}

// The header is that of an UPDATE of all these octets.
#[tactic(auto, unfolding(crate::specs::Reading::framed))]
fn framed(bytes: &[u8]) -> Result<(), WireAnswer>
    ensures gives { Gives (λ x. x) result (framed bytes.now) }
    ensures within { IfOk result (λ _. (23 ≤ length bytes.now) × (length bytes.now ≤ 4096)) }
{
    if bytes.len() < 19 {
        return Err(WireAnswer::Fault(WireFault::Short {
            have: bytes.len(),
            want: 19,
        }));
    }
    match marker_fault(bytes) {
        Some(at) => Err(WireAnswer::Fault(WireFault::Marker { at })),
        None => sized_as(bytes.len(), BigEndian::read_u16(&bytes[16..]), bytes[18]),
    }
}

// A part with its length in front, and what comes after it, of which there are at least `spare`
// octets.
#[tactic(auto, unfolding(crate::specs::Reading::field_at))]
fn field_of(at: usize, spare: usize, bytes: &[u8]) -> Result<(&[u8], &[u8]), WireAnswer>
    requires { spare ≤ 2 }
    ensures gives { Gives (λ x. (x.0.now, x.1.now)) result (field_at at spare bytes.now) }
    ensures within { IfOk result (λ x. length x.0.now + length x.1.now + 2 ≡ length bytes.now) }
{
    if bytes.len() < 2 {
        return Err(bounds(at));
    }
    let size = usize::from(BigEndian::read_u16(bytes));
    if bytes.len() < 2 + size + spare {
        return Err(bounds(at));
    }
    Ok(bytes[2..].split_at(size))
}

// What comes after the header.
#[tactic(auto, unfolding(crate::specs::Reading::body_at))]
fn body_of(alloc: Global, bytes: &[u8]) -> Result<Update, WireAnswer>
    requires { length bytes.now ≤ 4077 }
    ensures { Gives (λ x. x) result (body_at bytes.now) }
{
    let (withdrawals, rest) = field_of(19, 2, bytes)?;
    let end = 21 + withdrawals.len();
    let withdrawn = prefixes_of(alloc, end, withdrawals)?;
    let (attributes, nlri) = field_of(end, 0, rest)?;
    let end = 23 + withdrawals.len() + attributes.len();
    let found = attributes_of(alloc, end, attributes)?;
    let announced = prefixes_of(alloc, end + nlri.len(), nlri)?;
    let attrs = attrs_of(attributes.len(), announced.items().len(), found)?;
    Ok(Update {
        withdrawn,
        attrs,
        announced,
    })
}

#[tactic(auto, unfolding(crate::specs::Reading::update_of))]
fn read(alloc: Global, bytes: &[u8]) -> Result<Update, WireAnswer>
    ensures { Gives (λ x. x) result (update_of bytes.now) }
{
    framed(bytes)?;
    body_of(alloc, &bytes[19..])
}

/// The update that the octets spell. `Fault` comes exactly where they spell none, with the first
/// fault: of the header from the left, then of the withdrawn prefixes, of the path attributes and
/// of the announced prefixes, each from the left, and at last a missing attribute (RFC 4271, 6.1
/// and 6.3).
pub fn decode(alloc: Global, bytes: &[u8]) -> Result<Update, WireAnswer>
    // What is read is spelled so.
    ensures found { IfOk result (λ u. Spells bytes.now u) }
    // What is spelled is read, unless memory runs out.
    ensures only { (u : Update) → Spells bytes.now u → Gives (λ x. x) result (Ok u) }
    // A fault is the octets' first.
    ensures fault { (f : WireFault) → result ≡ Err (WireAnswer.Fault f)
        → fault_of bytes.now ≡ Some f }
    // Both in one: what the definition of reading gives.
    ensures exact { Gives (λ x. x) result (update_of bytes.now) }
{
    read(alloc, bytes)
}
