//! UPDATE messages: what is read of them, and how they are written.

use crate::faults::{MESSAGE, message};
use crate::words::{prefix, same};
use cn_base::{AsPath, Asn, Items, Origin, Prefix};
use cn_wire::{Attrs, Update, decode, encode, fits};
use std::alloc::Global;
use std::test::Fail;

// The attributes: the ORIGIN, how many numbers the path has and its first, and the next hop.
fn attrs_told(alloc: Global, attrs: &Option<Attrs>) -> Result<String, Fail> {
    let Some(attrs) = attrs else {
        return Ok(String::from_str(alloc, "none")?);
    };
    let (origin, next_hop) = (attrs.origin, attrs.next_hop);
    let (count, first) = (attrs.path.len(), attrs.path.get(0));
    Ok(format!(in alloc; "{origin:?} {count} {first:?} {next_hop:08x}")?)
}

fn update_told(alloc: Global, size: usize, update: &Update) -> Result<String, Fail> {
    let attrs = attrs_told(alloc, &update.attrs)?;
    let (withdrawn, announced) = (update.withdrawn.items(), update.announced.items());
    Ok(format!(in alloc; "{size}: {withdrawn:?} {announced:?} {attrs}")?)
}

// How many octets there are, and what they are read as: the withdrawn prefixes, the announced ones,
// and their attributes.
fn told(alloc: Global, octets: &[u8]) -> Result<String, Fail> {
    match decode(alloc, octets) {
        Ok(update) => update_told(alloc, octets.len(), &update),
        Err(_) => Err(Fail::new("no message")),
    }
}

// The announcement of a prefix with a path of so many numbers 65102.
fn announcement(alloc: Global, announced: (u32, u8), count: usize) -> Result<Update, Fail> {
    let announced = vec![in alloc; prefix(announced)?]?;
    let path = AsPath::make(vec![in alloc; Asn(65102); count]?);
    Ok(Update {
        withdrawn: Items::make(Vec::new(alloc)),
        attrs: Some(Attrs {
            origin: Origin::Igp,
            path: path.ok_or("too long")?,
            next_hop: 0x0A00_0002,
        }),
        announced: Items::make(announced),
    })
}

// The withdrawal of these prefixes.
fn withdrawal(alloc: Global, prefixes: Vec<Prefix>) -> Update {
    Update {
        withdrawn: Items::make(prefixes),
        attrs: None,
        announced: Items::make(Vec::new(alloc)),
    }
}

// The octets of a copy of an update that fits.
fn octets_of(alloc: Global, update: &Update) -> Result<Vec<u8>, Fail> {
    let copy = update.copy(alloc)?;
    if !fits(&copy) {
        return Err(Fail::new("too long"));
    }
    Ok(encode(alloc, &copy)?)
}

// The octets of the announcement that MESSAGE has.
fn written(alloc: Global) -> Result<String, Fail> {
    let octets = octets_of(alloc, &announcement(alloc, (0x0A01_0200, 24), 1)?)?;
    Ok(format!(in alloc; "{octets:?}")?)
}

// What is read of the withdrawal of the prefix of this length all of whose bits are 1.
fn withdrawn(alloc: Global, len: u8) -> Result<String, Fail> {
    let list = vec![in alloc; prefix((ones(len)?, len))?]?;
    told(alloc, &octets_of(alloc, &withdrawal(alloc, list))?)
}

// So many bits that are 1, in front of others that are 0.
fn ones(len: u8) -> Result<u32, Fail> {
    let others = 32u32.checked_sub(u32::from(len)).ok_or("too long")?;
    Ok(u32::MAX.checked_shl(others).unwrap_or(0))
}

// What is expected of it: an octet for the length and one for each eight bits stand beside the 23
// octets of an empty message.
fn withdrawn_text(alloc: Global, len: u8) -> Result<String, Fail> {
    let (size, bits) = (24 + usize::from(len).div_ceil(8), ones(len)?);
    Ok(format!(in alloc; "{size}: [Prefix {{ bits: {bits}, len: {len} }}] [] none")?)
}

// How many numbers 65102 a path has, and what is read of its announcement with a prefix of
// length 32: from 64 numbers on, the length of the path takes two octets.
const LONG: &[(usize, &str)] = &[
    (
        0,
        "42: [] [Prefix { bits: 167838211, len: 32 }] Igp 0 None 0a000002",
    ),
    (
        1,
        "48: [] [Prefix { bits: 167838211, len: 32 }] Igp 1 Some(Asn(65102)) 0a000002",
    ),
    (
        63,
        "296: [] [Prefix { bits: 167838211, len: 32 }] Igp 63 Some(Asn(65102)) 0a000002",
    ),
    (
        64,
        "301: [] [Prefix { bits: 167838211, len: 32 }] Igp 64 Some(Asn(65102)) 0a000002",
    ),
    (
        255,
        "1065: [] [Prefix { bits: 167838211, len: 32 }] Igp 255 Some(Asn(65102)) 0a000002",
    ),
];

fn long(alloc: Global, count: usize) -> Result<String, Fail> {
    told(
        alloc,
        &octets_of(alloc, &announcement(alloc, (0x0A01_0203, 32), count)?)?,
    )
}

// A case, how many prefixes of four octets are withdrawn, the length of one more, and whether there
// is a message: 1,018 prefixes of four octets leave room for one octet.
const FULL: &[(&str, usize, u8, &str)] = &[
    ("one octet more", 1018, 0, "a message"),
    ("two octets more", 1018, 1, "none"),
    ("another prefix more", 1019, 0, "none"),
];

fn full(alloc: Global, count: usize, len: u8) -> Result<&'static str, Fail> {
    let mut prefixes = vec![in alloc; prefix((0x0A01_0200, 24))?; count]?;
    prefixes.push(prefix((0, len))?)?;
    Ok(whether(&withdrawal(alloc, prefixes)))
}

// The announcement of a prefix without attributes.
fn bare(alloc: Global) -> Result<&'static str, Fail> {
    let announced = vec![in alloc; prefix((0x0A01_0200, 24))?]?;
    Ok(whether(&Update {
        withdrawn: Items::make(Vec::new(alloc)),
        attrs: None,
        announced: Items::make(announced),
    }))
}

// Whether an update has a message.
fn whether(update: &Update) -> &'static str {
    if fits(update) { "a message" } else { "none" }
}

#[test]
fn messages_are_read(rt: HostRuntime) -> Result<(), Fail> {
    let alloc = rt.alloc();
    let read = "47: [] [Prefix { bits: 167838208, len: 24 }] Igp 1 Some(Asn(65102)) 0a000002";
    same(&rt, "the message", &told(alloc, &MESSAGE)?, read);
    // The bits of an octet that a length of 25 leaves unused are read as zero.
    let octets = message(alloc, &[25, 10, 1, 2, 0xFF], &[], &[])?;
    let read = "28: [Prefix { bits: 167838336, len: 25 }] [] none";
    same(&rt, "unused bits", &told(alloc, &octets)?, read);
    Ok(())
}

#[test]
fn messages_are_written(rt: HostRuntime) -> Result<(), Fail> {
    let alloc = rt.alloc();
    let octets = format!(in alloc; "{MESSAGE:?}")?;
    same(&rt, "the message", &written(alloc)?, &octets);
    for len in 0..33u8 {
        let text = withdrawn_text(alloc, len)?;
        same(&rt, &text, &withdrawn(alloc, len)?, &text);
    }
    for (count, text) in LONG {
        same(&rt, text, &long(alloc, *count)?, text);
    }
    for (case, count, len, text) in FULL {
        same(&rt, case, full(alloc, *count, *len)?, text);
    }
    same(&rt, "no attributes", bare(alloc)?, "none");
    Ok(())
}
