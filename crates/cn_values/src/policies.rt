//! What prefix lists permit.

use crate::words::{prefix, same};
use cn_base::Entry;
use cn_plist::PrefixList;
use std::alloc::Global;
use std::test::Fail;

// An entry: whether it permits, bits and length of its prefix, `ge` and `le`.
type EntryRow = (bool, u32, u8, u8, u8);

const DENIED: EntryRow = (false, 0x0A01_0100, 24, 24, 24);

const EVERYTHING: EntryRow = (true, 0, 0, 0, 32);

// A case, the entries of a list, and whether it permits 10.1.1.0/24, 10.1.1.0/25 and 0.0.0.0/0.
const LISTS: &[(&str, &[EntryRow], &str)] = &[
    (
        "one prefix is denied",
        &[DENIED, EVERYTHING],
        "false true true",
    ),
    (
        "the first match decides",
        &[EVERYTHING, DENIED],
        "true true true",
    ),
    ("no match denies", &[DENIED], "false false false"),
    ("an empty list denies all", &[], "false false false"),
];

fn entry(row: &EntryRow) -> Result<Entry, Fail> {
    let (permit, bits, len, ge, le) = *row;
    Ok(Entry::new(permit, prefix((bits, len))?, ge, le).ok_or("no entry")?)
}

fn list(alloc: Global, rows: &[EntryRow]) -> Result<PrefixList, Fail> {
    let mut entries = Vec::new(alloc);
    for row in rows {
        entries.push(entry(row)?)?;
    }
    Ok(PrefixList::make(entries).copy(alloc)?)
}

fn told(alloc: Global, rows: &[EntryRow]) -> Result<String, Fail> {
    let list = list(alloc, rows)?;
    let short = list.permits(&prefix((0x0A01_0100, 24))?);
    let long = list.permits(&prefix((0x0A01_0100, 25))?);
    let all = list.permits(&prefix((0, 0))?);
    Ok(format!(in alloc; "{short} {long} {all}")?)
}

#[test]
fn lists_permit(rt: HostRuntime) -> Result<(), Fail> {
    for (case, rows, text) in LISTS {
        same(&rt, case, &told(rt.alloc(), rows)?, text);
    }
    Ok(())
}
