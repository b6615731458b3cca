//! Octets that are no UPDATE message, and their first fault.

use crate::words::same;
use cn_wire::{WireAnswer, WireFault, decode};
use std::alloc::Global;
use std::test::Fail;

/// The announcement of 10.1.2.0/24, IGP, with the path 65102 and the next hop 10.0.0.2.
pub const MESSAGE: [u8; 47] = [
    0xFF, 0xFF, 0xFF, 0xFF, 0xFF, 0xFF, 0xFF, 0xFF, 0xFF, 0xFF, 0xFF, 0xFF, 0xFF, 0xFF, 0xFF, 0xFF,
    0x00, 0x2F, 0x02, 0x00, 0x00, 0x00, 0x14, 0x40, 0x01, 0x01, 0x00, 0x40, 0x02, 0x06, 0x02, 0x01,
    0x00, 0x00, 0xFE, 0x4E, 0x40, 0x03, 0x04, 0x0A, 0x00, 0x00, 0x02, 0x18, 0x0A, 0x01, 0x02,
];

// The fault of octets, and `read` where they are a message. Of an attribute it says what is wrong,
// the type and the place.
fn fault(alloc: Global, octets: &[u8]) -> Result<String, Fail> {
    match decode(alloc, octets) {
        Ok(_) => Ok(String::from_str(alloc, "read")?),
        Err(WireAnswer::Fault(WireFault::Attr { at, kind, cause })) => {
            Ok(format!(in alloc; "{cause:?} of {kind} at {at}")?)
        }
        Err(WireAnswer::Fault(fault)) => Ok(format!(in alloc; "{fault:?}")?),
        Err(WireAnswer::Memory) => Err(Fail::new("no memory")),
    }
}

// A case, a place of MESSAGE, what stands there instead, and the fault that this makes. In the AS
// number, the next hop and the prefix any octet may stand.
const DAMAGED: &[(&str, usize, u8, &str)] = &[
    ("marker's first octet", 0, 0, "Marker { at: 0 }"),
    ("marker's last octet", 15, 254, "Marker { at: 15 }"),
    ("length above 4,096", 16, 255, "Length { value: 65327 }"),
    ("length 18", 17, 18, "Length { value: 18 }"),
    ("length 22", 17, 22, "Length { value: 22 }"),
    ("length 46", 17, 46, "Trailing { at: 46 }"),
    ("length 255", 17, 255, "Short { have: 47, want: 255 }"),
    ("type", 18, 4, "Kind { value: 4 }"),
    (
        "high octet of withdrawn length",
        19,
        255,
        "Bounds { at: 19 }",
    ),
    (
        "low octet of withdrawn length",
        20,
        255,
        "Bounds { at: 19 }",
    ),
    (
        "high octet of attributes length",
        21,
        255,
        "Bounds { at: 21 }",
    ),
    (
        "low octet of attributes length",
        22,
        255,
        "Bounds { at: 21 }",
    ),
    ("ORIGIN flags", 23, 255, "Flags of 1 at 23"),
    ("ORIGIN type", 24, 255, "Kind of 255 at 23"),
    ("ORIGIN length", 25, 255, "Bounds { at: 23 }"),
    ("ORIGIN value", 26, 255, "Value of 1 at 23"),
    ("AS_PATH flags", 27, 255, "Flags of 2 at 27"),
    ("AS_PATH type", 28, 255, "Kind of 255 at 27"),
    ("AS_PATH type, ORIGIN again", 28, 1, "Repeated of 1 at 27"),
    ("AS_PATH length", 29, 255, "Bounds { at: 27 }"),
    ("segment type", 30, 255, "Segment of 2 at 27"),
    ("segment length", 31, 255, "Size of 2 at 27"),
    ("NEXT_HOP flags", 36, 255, "Flags of 3 at 36"),
    ("NEXT_HOP type", 37, 255, "Kind of 255 at 36"),
    ("NEXT_HOP length", 38, 255, "Bounds { at: 36 }"),
    (
        "prefix length 33",
        43,
        33,
        "PrefixLength { at: 43, value: 33 }",
    ),
    (
        "prefix length 255",
        43,
        255,
        "PrefixLength { at: 43, value: 255 }",
    ),
    ("prefix length 25", 43, 25, "Bounds { at: 43 }"),
    ("AS number's first octet", 32, 255, "read"),
    ("AS number's second octet", 33, 255, "read"),
    ("AS number's third octet", 34, 255, "read"),
    ("AS number's last octet", 35, 255, "read"),
    ("NEXT_HOP's first octet", 39, 255, "read"),
    ("NEXT_HOP's second octet", 40, 255, "read"),
    ("NEXT_HOP's third octet", 41, 255, "read"),
    ("NEXT_HOP's last octet", 42, 255, "read"),
    ("prefix's first octet", 44, 255, "read"),
    ("prefix's second octet", 45, 255, "read"),
    ("prefix's third octet", 46, 255, "read"),
];

// The fault of MESSAGE with another octet at a place.
fn damaged(alloc: Global, place: usize, octet: u8) -> Result<String, Fail> {
    let mut octets = MESSAGE;
    *octets.get_mut(place).ok_or("no such octet")? = octet;
    fault(alloc, &octets)
}

// The fault of the first octets of MESSAGE alone.
fn cut(alloc: Global, have: usize) -> Result<String, Fail> {
    fault(alloc, MESSAGE.get(..have).ok_or("not so many octets")?)
}

// The fault that is expected of them: a header has 19 octets.
fn cut_text(alloc: Global, have: usize) -> Result<String, Fail> {
    let want = if have < 19 { 19 } else { 47 };
    Ok(format!(in alloc; "Short {{ have: {have}, want: {want} }}")?)
}

// The fault of MESSAGE with an octet behind it.
fn trailing(alloc: Global) -> Result<String, Fail> {
    let mut octets = Vec::from_slice(alloc, &MESSAGE)?;
    octets.push(0)?;
    fault(alloc, &octets)
}

// The three attributes with no number in the path, the NEXT_HOP first; the same with the flags for
// a length of two octets, and with flags that don't count.
const BACKWARDS: &[u8] = &[0x40, 3, 4, 10, 0, 0, 2, 0x40, 2, 0, 0x40, 1, 1, 0];

const FLAGGED: &[u8] = &[0x50, 1, 0, 1, 2, 0x4F, 2, 0, 0x40, 3, 4, 10, 0, 0, 2];

// A case, attributes beside an announced prefix, and the fault that they make.
const ATTRIBUTES: &[(&str, &[u8], &str)] = &[
    ("NEXT_HOP first", BACKWARDS, "read"),
    ("flags that don't count", FLAGGED, "read"),
    ("none", &[], "Missing { kind: 1 }"),
    (
        "no AS_PATH",
        &[0x40, 1, 1, 0, 0x40, 3, 4, 10, 0, 0, 2],
        "Missing { kind: 2 }",
    ),
    (
        "no NEXT_HOP",
        &[0x40, 1, 1, 0, 0x40, 2, 0],
        "Missing { kind: 3 }",
    ),
    ("flags alone", &[0x40], "Bounds { at: 23 }"),
    ("half a length", &[0x50, 1, 0], "Bounds { at: 23 }"),
    ("another type", &[0x40, 4, 0], "Kind of 4 at 23"),
    ("optional", &[0xC0, 1, 1, 0], "Flags of 1 at 23"),
    ("partial", &[0x60, 1, 1, 0], "Flags of 1 at 23"),
    ("long ORIGIN", &[0x40, 1, 2, 0, 0], "Size of 1 at 23"),
    ("no such ORIGIN", &[0x40, 1, 1, 3], "Value of 1 at 23"),
    (
        "AS_SET",
        &[0x40, 2, 6, 1, 1, 0, 0, 0, 1],
        "Segment of 2 at 23",
    ),
    ("half a segment", &[0x40, 2, 1, 2], "Size of 2 at 23"),
    ("empty segment", &[0x40, 2, 2, 2, 0], "Size of 2 at 23"),
    ("short NEXT_HOP", &[0x40, 3, 3, 10, 0, 0], "Size of 3 at 23"),
];

// A case, withdrawn prefixes, and the fault that they make.
const WITHDRAWALS: &[(&str, &[u8], &str)] = &[
    ("none", &[], "read"),
    ("three", &[0, 25, 10, 1, 2, 0xFF, 32, 1, 2, 3, 4], "read"),
    ("length 33", &[33], "PrefixLength { at: 21, value: 33 }"),
    (
        "second length 255",
        &[8, 10, 255],
        "PrefixLength { at: 23, value: 255 }",
    ),
    ("short", &[24, 10, 1], "Bounds { at: 21 }"),
    ("second short", &[0, 1], "Bounds { at: 22 }"),
];

// The length of a short part.
fn size_of(part: &[u8]) -> u8 {
    u8::try_from(part.len()).unwrap_or(u8::MAX)
}

/// A message with these parts.
pub fn message(
    alloc: Global,
    withdrawals: &[u8],
    attributes: &[u8],
    nlri: &[u8],
) -> Result<Vec<u8>, Fail> {
    let mut octets = vec![in alloc; 0xFF; 16]?;
    octets.extend_from_slice(&[0, 0, 2, 0, size_of(withdrawals)])?;
    octets.extend_from_slice(withdrawals)?;
    octets.extend_from_slice(&[0, size_of(attributes)])?;
    octets.extend_from_slice(attributes)?;
    octets.extend_from_slice(nlri)?;
    let size = size_of(&octets);
    *octets.get_mut(17).ok_or("no length")? = size;
    Ok(octets)
}

fn attributes(alloc: Global, octets: &[u8]) -> Result<String, Fail> {
    fault(alloc, &message(alloc, &[], octets, &[24, 10, 1, 2])?)
}

fn withdrawals(alloc: Global, octets: &[u8]) -> Result<String, Fail> {
    fault(alloc, &message(alloc, octets, &[], &[])?)
}

#[test]
fn octets_have_faults(rt: HostRuntime) -> Result<(), Fail> {
    let alloc = rt.alloc();
    for (case, place, octet, text) in DAMAGED {
        same(&rt, case, &damaged(alloc, *place, *octet)?, text);
    }
    for have in 0..47 {
        let text = cut_text(alloc, have)?;
        same(&rt, &text, &cut(alloc, have)?, &text);
    }
    for (case, octets, text) in ATTRIBUTES {
        same(&rt, case, &attributes(alloc, octets)?, text);
    }
    for (case, octets, text) in WITHDRAWALS {
        same(&rt, case, &withdrawals(alloc, octets)?, text);
    }
    same(
        &rt,
        "one octet more",
        &trailing(alloc)?,
        "Trailing { at: 47 }",
    );
    Ok(())
}
