//! The values of BGP: names, prefixes, lists, paths, ranks, routes and tables.

use crate::words::{prefix, same};
use cn_base::{
    AsPath, Asn, Attributes, Choice, Items, Name, Origin, Prefix, Rank, Route, RouterId, Table,
    TableRow,
};
use std::alloc::Global;
use std::test::Fail;

// A text, and the text of a copy of its name; nothing where it is none.
const NAMES: &[(&str, &str)] = &[
    ("t1", "t1"),
    ("a-b_c.9Z", "a-b_c.9Z"),
    (
        "abcdefghijklmnopqrstuvwxyz012345",
        "abcdefghijklmnopqrstuvwxyz012345",
    ),
    ("", ""),
    ("abcdefghijklmnopqrstuvwxyz0123456", ""),
    ("a b", ""),
    ("caf\u{e9}", ""),
    ("a/b", ""),
];

fn name(alloc: Global, text: &str) -> Result<String, Fail> {
    match Name::new(alloc, text)? {
        None => Ok(String::new(alloc)),
        Some(name) => Ok(String::from_str(alloc, name.copy(alloc)?.text())?),
    }
}

// A case, bits, a length, and those of their prefix.
const PREFIXES: &[(&str, u32, u8, &str)] = &[
    ("10.1.1.0/24", 0x0A01_0100, 24, "0a010100/24"),
    ("0.0.0.0/0", 0, 0, "00000000/0"),
    ("all bits", 0xFFFF_FFFF, 32, "ffffffff/32"),
    ("10.1.1.1/24", 0x0A01_0101, 24, "none"),
    ("0.0.0.1/0", 1, 0, "none"),
    ("33 bits", 0, 33, "none"),
];

fn prefix_told(alloc: Global, bits: u32, len: u8) -> Result<String, Fail> {
    match Prefix::new(bits, len) {
        None => Ok(String::from_str(alloc, "none")?),
        Some(prefix) => Ok(format!(in alloc; "{:08x}/{}", prefix.bits(), prefix.len())?),
    }
}

fn list(alloc: Global) -> Result<String, Fail> {
    let items = Items::make(vec![in alloc; 1u8, 2, 3]?);
    let mut text = format!(in alloc; "{} {:?}", items.len(), items.items())?;
    text.push_str(&format!(in alloc; " {:?}", items.into_vec())?)?;
    Ok(text)
}

// A rank: whether the route is learnt, the length of its path, its ORIGIN and its sender.
type RankRow = (bool, u8, Origin, u32);

// A case and two ranks, of which the first is before the second.
const RANKS: &[(&str, RankRow, RankRow)] = &[
    (
        "own before learnt",
        (false, 255, Origin::Incomplete, 9),
        (true, 0, Origin::Incomplete, 9),
    ),
    (
        "the shorter one",
        (true, 0, Origin::Incomplete, 9),
        (true, 1, Origin::Igp, 9),
    ),
    (
        "IGP before EGP",
        (true, 1, Origin::Igp, 9),
        (true, 1, Origin::Egp, 2),
    ),
    (
        "EGP before INCOMPLETE",
        (true, 1, Origin::Egp, 2),
        (true, 1, Origin::Incomplete, 1),
    ),
    (
        "the lower sender",
        (true, 1, Origin::Incomplete, 1),
        (true, 1, Origin::Incomplete, 0xFFFF_FFFF),
    ),
    (
        "the shorter one of long paths",
        (true, 1, Origin::Incomplete, 0xFFFF_FFFF),
        (true, 255, Origin::Igp, 0),
    ),
];

fn rank(row: &RankRow) -> Rank {
    let (learnt, length, origin, sender) = *row;
    Rank {
        learnt,
        length,
        origin,
        sender: RouterId(sender),
    }
}

// Whether the first is before the second, the second before the first, and the second before
// itself.
fn order(alloc: Global, first: &RankRow, second: &RankRow) -> Result<String, Fail> {
    let (first, second) = (rank(first), rank(second));
    let before = first.is_before(&second);
    let behind = second.is_before(&first);
    let itself = second.is_before(&second);
    Ok(format!(in alloc; "{before} {behind} {itself}")?)
}

#[test]
fn small_values(rt: HostRuntime) -> Result<(), Fail> {
    let alloc = rt.alloc();
    for (text, copy) in NAMES {
        same(&rt, text, &name(alloc, text)?, copy);
    }
    for (case, bits, len, text) in PREFIXES {
        same(&rt, case, &prefix_told(alloc, *bits, *len)?, text);
    }
    for (case, first, second) in RANKS {
        same(&rt, case, &order(alloc, first, second)?, "true false false");
    }
    same(&rt, "a list", &list(alloc)?, "3 [1, 2, 3] [1, 2, 3]");
    Ok(())
}

// The path of these numbers.
fn path(alloc: Global, numbers: &[u32]) -> Result<AsPath, Fail> {
    let mut list = Vec::new(alloc);
    for number in numbers {
        list.push(Asn(*number))?;
    }
    Ok(AsPath::make(list).ok_or("too long")?)
}

// A place, a number, and what a copy of the path 64512 64513 64514 tells: how many numbers it has,
// how many items, the number at the place, and whether it has the number.
const PLACES: &[(u8, u32, &str)] = &[
    (0, 64512, "3 3 Some(Asn(64512)) true"),
    (1, 64513, "3 3 Some(Asn(64513)) true"),
    (2, 64514, "3 3 Some(Asn(64514)) true"),
    (3, 64515, "3 3 None false"),
];

fn place(alloc: Global, place: u8, number: u32) -> Result<String, Fail> {
    let path = path(alloc, &[64512, 64513, 64514])?.copy(alloc)?;
    let (len, count) = (path.len(), path.items().len());
    let (there, has) = (path.get(place), path.contains(Asn(number)));
    Ok(format!(in alloc; "{len} {count} {there:?} {has}")?)
}

// A case, a length of 1s, how many 2s are put in front, and the length of what that makes, whether
// it has a 2, and what stands behind the 2s.
const LONGER: &[(&str, u8, u8, &str)] = &[
    ("nothing", 0, 0, "0 false None"),
    ("one more", 254, 1, "255 true Some(Asn(1))"),
    ("two more are too many", 254, 2, "none"),
    ("255 in front of none", 0, 255, "255 true None"),
    ("none in front of 255", 255, 0, "255 false Some(Asn(1))"),
    ("510 are too many", 255, 255, "none"),
];

fn longer(alloc: Global, length: u8, times: u8) -> Result<String, Fail> {
    match ones(alloc, length)?.extended(alloc, Asn(2), times)? {
        None => Ok(String::from_str(alloc, "none")?),
        Some(path) => longer_told(alloc, &path, times),
    }
}

fn ones(alloc: Global, length: u8) -> Result<AsPath, Fail> {
    let path = AsPath::empty(alloc).extended(alloc, Asn(1), length)?;
    Ok(path.ok_or("too long")?)
}

fn longer_told(alloc: Global, path: &AsPath, times: u8) -> Result<String, Fail> {
    let (len, has, there) = (path.len(), path.contains(Asn(2)), path.get(times));
    Ok(format!(in alloc; "{len} {has} {there:?}")?)
}

// Whether 256 numbers make a path.
fn too_long(alloc: Global) -> Result<&'static str, Fail> {
    let made = AsPath::make(vec![in alloc; Asn(1); 256]?);
    Ok(if made.is_some() { "a path" } else { "none" })
}

fn route(alloc: Global) -> Result<String, Fail> {
    let route = Route {
        prefix: prefix((0x0A00_0000, 8))?,
        path: path(alloc, &[64512])?,
        origin: Origin::Egp,
    };
    let copy = route.copy(alloc)?;
    let (prefix, first, origin) = (copy.prefix, copy.path.get(0), copy.origin);
    Ok(format!(in alloc; "{prefix:?} {first:?} {origin:?}")?)
}

fn attributes(alloc: Global) -> Result<String, Fail> {
    let attributes = Attributes {
        path: path(alloc, &[64512, 64513])?,
        origin: Origin::Egp,
    };
    let copy = attributes.copy(alloc)?;
    let (second, origin) = (copy.path.get(1), copy.origin);
    Ok(format!(in alloc; "{second:?} {origin:?}")?)
}

// The prefixes of a table, in order, and the one AS number that it has for each.
const TABLE: &[(u32, u8, u32)] = &[
    (0, 0, 1),
    (0x0A00_0000, 8, 2),
    (0x0A00_0000, 16, 3),
    (0x0A01_0000, 16, 4),
];

// A case, a prefix, and how many rows a copy of the table has, and the first AS number of what it
// has for the prefix.
const LOOK_UPS: &[(&str, u32, u8, &str)] = &[
    ("0.0.0.0/0", 0, 0, "4 Some(Asn(1))"),
    ("10.0.0.0/8", 0x0A00_0000, 8, "4 Some(Asn(2))"),
    ("10.0.0.0/16", 0x0A00_0000, 16, "4 Some(Asn(3))"),
    ("10.1.0.0/16", 0x0A01_0000, 16, "4 Some(Asn(4))"),
    ("10.0.0.0/24", 0x0A00_0000, 24, "4 None"),
    ("11.0.0.0/8", 0x0B00_0000, 8, "4 None"),
];

fn row(alloc: Global, bits: u32, len: u8, number: u32) -> Result<TableRow, Fail> {
    Ok(TableRow {
        prefix: prefix((bits, len))?,
        choice: Choice {
            from: None,
            path: path(alloc, &[number])?,
            origin: Origin::Igp,
        },
    })
}

fn table(alloc: Global) -> Result<Table, Fail> {
    let mut rows = Vec::new(alloc);
    for (bits, len, number) in TABLE {
        rows.push(row(alloc, *bits, *len, *number)?)?;
    }
    if !Table::ascends(&rows) {
        return Err(Fail::new("not ascending"));
    }
    Ok(Table::make(rows).copy(alloc)?)
}

fn looked_up(alloc: Global, bits: u32, len: u8) -> Result<String, Fail> {
    let table = table(alloc)?;
    let count = table.items().len();
    let first = match table.get(&prefix((bits, len))?) {
        Some(choice) => choice.path.get(0),
        None => None,
    };
    Ok(format!(in alloc; "{count} {first:?}")?)
}

#[test]
fn paths_and_what_has_them(rt: HostRuntime) -> Result<(), Fail> {
    let alloc = rt.alloc();
    for (at, number, text) in PLACES {
        same(&rt, text, &place(alloc, *at, *number)?, text);
    }
    for (case, length, times, text) in LONGER {
        same(&rt, case, &longer(alloc, *length, *times)?, text);
    }
    for (case, bits, len, text) in LOOK_UPS {
        same(&rt, case, &looked_up(alloc, *bits, *len)?, text);
    }
    same(&rt, "256 numbers", too_long(alloc)?, "none");
    same(
        &rt,
        "a route",
        &route(alloc)?,
        "Prefix { bits: 167772160, len: 8 } Some(Asn(64512)) Egp",
    );
    same(
        &rt,
        "attributes",
        &attributes(alloc)?,
        "Some(Asn(64513)) Egp",
    );
    Ok(())
}
