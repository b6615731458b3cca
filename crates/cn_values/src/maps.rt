//! What maps and sets of prefixes hold.

use crate::words::{prefix, same};
use cn_base::Prefix;
use cn_rib::{PrefixMap, PrefixSet};
use std::alloc::Global;
use std::test::Fail;

// The bits and the length of a prefix.
type Bits = (u32, u8);

const DEFAULT: Bits = (0, 0);

const TEN: Bits = (0x0A00_0000, 8);

const TEN_ZERO: Bits = (0x0A00_0000, 16);

const TEN_ONE: Bits = (0x0A01_0000, 16);

const ELEVEN: Bits = (0x0B00_0000, 8);

// What is done to a map.
enum Step {
    Insert(Bits, u32),
    Remove(Bits),
    Clear,
}

use Step::{Clear, Insert, Remove};

// Three prefixes, put in out of order: the values say their places in the order.
const THREE: &[Step] = &[Insert(TEN_ONE, 2), Insert(TEN, 0), Insert(TEN_ZERO, 1)];

// A case, what is done to a map that has THREE, how many prefixes it has then, whether that is
// none, and the values in the order of their prefixes.
const MAPS: &[(&str, &[Step], &str)] = &[
    ("rows ascend", &[], "3 false: 0 1 2"),
    (
        "a value is replaced",
        &[Insert(TEN_ZERO, 7)],
        "3 false: 0 7 2",
    ),
    (
        "one that is there is taken out",
        &[Remove(TEN_ZERO), Remove(ELEVEN)],
        "2 false: 0 2",
    ),
    ("all are taken out", &[Clear], "0 true:"),
];

fn change(map: &mut PrefixMap<u32>, steps: &[Step]) -> Result<(), Fail> {
    for step in steps {
        match step {
            Insert(bits, value) => map.insert(prefix(*bits)?, *value)?,
            Remove(bits) => map.remove(&prefix(*bits)?),
            Clear => map.clear(),
        }
    }
    Ok(())
}

fn three(alloc: Global) -> Result<PrefixMap<u32>, Fail> {
    let mut map = PrefixMap::new(alloc);
    change(&mut map, THREE)?;
    Ok(map)
}

fn map_told(alloc: Global, steps: &[Step]) -> Result<String, Fail> {
    let mut map = three(alloc)?;
    change(&mut map, steps)?;
    let mut text = format!(in alloc; "{} {}:", map.len(), map.is_empty())?;
    for row in map.rows() {
        text.push_str(&format!(in alloc; " {}", row.value)?)?;
    }
    Ok(text)
}

// A case, what is done to a map that has THREE, a prefix, and what the map has for it then.
const LOOK_UPS: &[(&str, &[Step], Bits, &str)] = &[
    ("10.0.0.0/8", &[], TEN, "Some(0)"),
    ("10.0.0.0/16", &[], TEN_ZERO, "Some(1)"),
    ("10.1.0.0/16", &[], TEN_ONE, "Some(2)"),
    ("10.0.0.0/12", &[], (0x0A00_0000, 12), "None"),
    ("0.0.0.0/0", &[], DEFAULT, "None"),
    ("11.0.0.0/8", &[], ELEVEN, "None"),
    ("replaced", &[Insert(TEN_ZERO, 7)], TEN_ZERO, "Some(7)"),
];

fn found(alloc: Global, steps: &[Step], bits: Bits) -> Result<String, Fail> {
    let mut map = three(alloc)?;
    change(&mut map, steps)?;
    let value = map.get(&prefix(bits)?);
    Ok(format!(in alloc; "{value:?}")?)
}

// A case, what is put into a set, and whether the map that has THREE is put in too. Then the set is
// copied, and 10.1.0.0/16 taken out of it. Of the copy: how many prefixes there are, whether that
// is none, the least, and whether 10.1.0.0/16 is one; and last, whether the set still has it.
const SETS: &[(&str, &[Bits], bool, &str)] = &[
    ("no prefix", &[], false, "0 true None false false"),
    (
        "the least is the first",
        &[TEN_ONE, TEN],
        false,
        "2 false Some(Prefix { bits: 167772160, len: 8 }) true false",
    ),
    (
        "one prefix",
        &[TEN_ONE],
        false,
        "1 false Some(Prefix { bits: 167837696, len: 16 }) true false",
    ),
    (
        "a map is taken in",
        &[DEFAULT, TEN_ONE],
        true,
        "4 false Some(Prefix { bits: 0, len: 0 }) true false",
    ),
];

fn set_of(alloc: Global, rows: &[Bits], takes_map: bool) -> Result<PrefixSet, Fail> {
    let mut set = PrefixSet::new(alloc);
    for bits in rows {
        set.insert(prefix(*bits)?)?;
    }
    if takes_map {
        set.insert_all(&three(alloc)?)?;
    }
    Ok(set)
}

fn set_told(alloc: Global, copy: &PrefixSet, set: &PrefixSet) -> Result<String, Fail> {
    let (len, none, least) = (copy.len(), copy.is_empty(), copy.first());
    let ten_one = prefix(TEN_ONE)?;
    let (has, still) = (copy.contains(&ten_one), set.contains(&ten_one));
    Ok(format!(in alloc; "{len} {none} {least:?} {has} {still}")?)
}

fn copy_told(alloc: Global, rows: &[Bits], takes_map: bool) -> Result<String, Fail> {
    let ten_one = prefix(TEN_ONE)?;
    let mut set = set_of(alloc, rows, takes_map)?;
    let copy = set.copy(alloc)?;
    set.remove(&ten_one);
    set_told(alloc, &copy, &set)
}

// A case, prefixes that are put in and prefixes that are taken out again, and the lengths of those
// that are left, in the order of the prefixes.
const CHANGES: &[(&str, &[Bits], &[Bits], &str)] = &[
    ("rows ascend", &[TEN_ONE, TEN, DEFAULT, TEN], &[], " 0 8 16"),
    (
        "the first go",
        &[DEFAULT, TEN, TEN_ZERO, TEN_ONE],
        &[DEFAULT, TEN],
        " 16 16",
    ),
    (
        "the first and a later one go",
        &[DEFAULT, TEN, TEN_ZERO, TEN_ONE],
        &[DEFAULT, TEN_ONE],
        " 8 16",
    ),
    (
        "those out of order go",
        &[DEFAULT, TEN, TEN_ONE],
        &[TEN_ONE, DEFAULT, DEFAULT],
        " 8",
    ),
    ("others stay", &[TEN], &[DEFAULT, ELEVEN], " 8"),
    ("all go", &[TEN, ELEVEN], &[TEN, ELEVEN], ""),
];

fn list(alloc: Global, rows: &[Bits]) -> Result<Vec<Prefix>, Fail> {
    let mut list = Vec::new(alloc);
    for bits in rows {
        list.push(prefix(*bits)?)?;
    }
    Ok(list)
}

fn changed(alloc: Global, added: &[Bits], removed: &[Bits]) -> Result<String, Fail> {
    let mut set = PrefixSet::new(alloc);
    set.insert_each(&list(alloc, added)?)?;
    set.remove_all(&list(alloc, removed)?);
    let mut text = String::new(alloc);
    for row in set.rows() {
        text.push_str(&format!(in alloc; " {}", row.prefix.len())?)?;
    }
    Ok(text)
}

#[test]
fn maps_and_sets_hold(rt: HostRuntime) -> Result<(), Fail> {
    for (case, steps, text) in MAPS {
        same(&rt, case, &map_told(rt.alloc(), steps)?, text);
    }
    for (case, steps, bits, text) in LOOK_UPS {
        same(&rt, case, &found(rt.alloc(), steps, *bits)?, text);
    }
    for (case, rows, takes_map, text) in SETS {
        same(&rt, case, &copy_told(rt.alloc(), rows, *takes_map)?, text);
    }
    for (case, added, removed, text) in CHANGES {
        same(&rt, case, &changed(rt.alloc(), added, removed)?, text);
    }
    Ok(())
}
