//! Where the rows of a key stand in a list that ascends by it.

use crate::words::same;
use cn_lists::{item_at, part_at, place_at, places_at};
use std::alloc::Global;
use std::test::Fail;

// Rows by their first number.
const ROWS: &[(u8, u8)] = &[(2, 20), (2, 21), (2, 22), (4, 40), (7, 70), (7, 71)];

fn first(row: &(u8, u8)) -> u8 {
    row.0
}

// A case, a key, and of its rows the place of the first, the place behind the last, and the rows.
const PARTS: &[(&str, u8, &str)] = &[
    ("before all", 0, "(0, 0) []"),
    ("the first three", 2, "(0, 3) [(2, 20), (2, 21), (2, 22)]"),
    ("none, behind three", 3, "(3, 3) []"),
    ("one", 4, "(3, 4) [(4, 40)]"),
    ("none, behind four", 5, "(4, 4) []"),
    ("the last two", 7, "(4, 6) [(7, 70), (7, 71)]"),
    ("behind all", 9, "(6, 6) []"),
];

fn part(alloc: Global, key: u8) -> Result<String, Fail> {
    let places = places_at(ROWS, &key, first);
    let part = part_at(ROWS, &key, first);
    Ok(format!(in alloc; "{places:?} {part:?}")?)
}

// Rows of which each has a key of its own.
const APART: &[(u8, u8)] = &[(2, 20), (4, 40), (7, 70)];

// A case, a key, the place of its row and the row.
const ITEMS: &[(&str, u8, &str)] = &[
    ("before all", 0, "None None"),
    ("the first", 2, "Some(0) Some((2, 20))"),
    ("none, behind one", 3, "None None"),
    ("the second", 4, "Some(1) Some((4, 40))"),
    ("the last", 7, "Some(2) Some((7, 70))"),
    ("behind all", 9, "None None"),
];

fn item(alloc: Global, key: u8) -> Result<String, Fail> {
    let place = place_at(APART, &key, first);
    let item = item_at(APART, &key, first);
    Ok(format!(in alloc; "{place:?} {item:?}")?)
}

#[test]
fn rows_are_found(rt: HostRuntime) -> Result<(), Fail> {
    for (case, key, text) in PARTS {
        same(&rt, case, &part(rt.alloc(), *key)?, text);
    }
    for (case, key, text) in ITEMS {
        same(&rt, case, &item(rt.alloc(), *key)?, text);
    }
    Ok(())
}
