//! Which slot of a tally comes first, while what is in them is taken out.

use crate::words::same;
use cn_rib::Tally;
use std::alloc::Global;
use std::test::Fail;

// A case, how many slots, the slots to which one is added, and the slots that come first, one after
// the other, as one is taken from each. The levels of a tally have edges at 64 and at 4,096 slots.
const CASES: &[(&str, u32, &[u32], &str)] = &[
    ("no slots", 0, &[], "None"),
    (
        "one slot twice",
        3,
        &[2, 1, 1],
        "Some(1) Some(1) Some(2) None",
    ),
    (
        "a full word",
        64,
        &[63, 0, 63],
        "Some(0) Some(63) Some(63) None",
    ),
    (
        "two words",
        65,
        &[64, 63, 0],
        "Some(0) Some(63) Some(64) None",
    ),
    (
        "a full top",
        4096,
        &[4095, 64, 63],
        "Some(63) Some(64) Some(4095) None",
    ),
    (
        "two tops",
        4097,
        &[4096, 4095, 64],
        "Some(64) Some(4095) Some(4096) None",
    ),
    (
        "eight tops",
        32768,
        &[32767, 4096, 4095],
        "Some(4095) Some(4096) Some(32767) None",
    ),
    (
        "65 tops",
        262_145,
        &[262_144, 262_143, 4096],
        "Some(4096) Some(262143) Some(262144) None",
    ),
];

// One is added to each of these slots.
fn held(alloc: Global, slots: u32, places: &[u32]) -> Result<Tally, Fail> {
    let mut tally = Tally::new(alloc, slots)?;
    for slot in places {
        let slot = *slot;
        if slot < tally.slots() && tally.count(slot) < 9 {
            tally.add(slot);
        }
    }
    Ok(tally)
}

// The first slot, from which one is taken.
fn take_first(tally: &mut Tally) -> Option<u32> {
    let first = tally.first();
    if let Some(slot) = first {
        if slot < tally.slots() && tally.count(slot) > 0 {
            tally.sub(slot);
        }
    }
    first
}

fn firsts(alloc: Global, slots: u32, places: &[u32]) -> Result<String, Fail> {
    let mut tally = held(alloc, slots, places)?;
    let mut text = String::new(alloc);
    for _ in places {
        let first = take_first(&mut tally);
        text.push_str(&format!(in alloc; "{first:?} ")?)?;
    }
    let last = take_first(&mut tally);
    text.push_str(&format!(in alloc; "{last:?}")?)?;
    Ok(text)
}

// A case, how many slots, what is set one after the other, each with its slot, and the slot that
// comes first in the end with its count.
const SETTINGS: &[(&str, u32, &[(u32, u128)], &str)] = &[
    ("nothing to nothing", 3, &[(1, 0)], "none"),
    ("a count", 65, &[(64, 7)], "64: 7"),
    ("another count", 65, &[(64, 7), (64, 9)], "64: 9"),
    ("no more", 65, &[(64, 7), (64, 0)], "none"),
    (
        "no more beside another of its word",
        4097,
        &[(64, 7), (127, 1), (64, 0)],
        "127: 1",
    ),
    (
        "no more beside another of its top",
        4097,
        &[(4096, 1), (64, 7), (64, 0)],
        "4096: 1",
    ),
    (
        "the greatest",
        1,
        &[(0, u128::MAX)],
        "0: 340282366920938463463374607431768211455",
    ),
];

fn set(alloc: Global, slots: u32, settings: &[(u32, u128)]) -> Result<Tally, Fail> {
    let mut tally = Tally::new(alloc, slots)?;
    for (slot, count) in settings {
        let (slot, count) = (*slot, *count);
        if slot < tally.slots() {
            tally.set(slot, count);
        }
    }
    Ok(tally)
}

fn first_told(alloc: Global, tally: &Tally) -> Result<String, Fail> {
    match tally.first() {
        Some(slot) if slot < tally.slots() => {
            Ok(format!(in alloc; "{slot}: {}", tally.count(slot))?)
        }
        _ => Ok(String::from_str(alloc, "none")?),
    }
}

#[test]
fn slots_are_set(rt: HostRuntime) -> Result<(), Fail> {
    let alloc = rt.alloc();
    for (case, slots, settings, text) in SETTINGS {
        let tally = set(alloc, *slots, settings)?;
        same(&rt, case, &first_told(alloc, &tally)?, text);
    }
    Ok(())
}

#[test]
fn the_least_slot_comes_first(rt: HostRuntime) -> Result<(), Fail> {
    for (case, slots, places, text) in CASES {
        same(&rt, case, &firsts(rt.alloc(), *slots, places)?, text);
    }
    Ok(())
}
