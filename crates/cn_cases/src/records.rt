//! Which records are sound, what is then said, and what is told of those that aren't.

use cn_base::DeviceId;
use cn_given::build::{five, network_of, prefix};
use cn_given::opening::{certified, rows, saved};
use cn_given::tables::{all_given, given, word};
use cn_given::words::{self, compare};
use cn_net::{Certified, Net};
use cn_record::{RecordWhy, Recorded, Saved, Unrecorded, check};
use std::alloc::{AllocError, Global};
use std::test::Fail;

// ---- nothing is emulated

// What the five devices hold where none of them is emulated.
const TABLES: &str = "
t1 10.1.1.0/24 own igp -
t1 10.1.2.0/24 l1 igp 65201 65102
t2 10.1.1.0/24 l1 igp 65201 65101
t2 10.1.2.0/24 own igp -
l1 10.1.1.0/24 t1 igp 65101
l1 10.1.2.0/24 t2 igp 65102
l2 10.1.1.0/24 t1 igp 65101
l2 10.1.2.0/24 t2 igp 65102
s1 10.1.1.0/24 l1 igp 65201 65101
s1 10.1.2.0/24 l1 igp 65201 65102
";

// Other rows than those of the tables (one that holds nothing takes the row away), and what is
// answered.
const CHANGES: &str = "
# whole tables
gives
rows of t1 t1 t2 t2 l1 l1 l2 l2 s1 s1
t1 10.1.1.0/24 own path - origin igp
t1 10.1.2.0/24 from l1 path 65201 65102 origin igp
t2 10.1.1.0/24 from l1 path 65201 65101 origin igp
t2 10.1.2.0/24 own path - origin igp
l1 10.1.1.0/24 from t1 path 65101 origin igp
l1 10.1.2.0/24 from t2 path 65102 origin igp
l2 10.1.1.0/24 from t1 path 65101 origin igp
l2 10.1.2.0/24 from t2 path 65102 origin igp
s1 10.1.1.0/24 from l1 path 65201 65101 origin igp
s1 10.1.2.0/24 from l1 path 65201 65102 origin igp
# a row is missing
change s1 10.1.1.0/24
gives s1 10.1.1.0/24: held none wanted from l1 path 65201 65101 origin igp
# another path
change s1 10.1.2.0/24 l1 igp 65201 65101
gives s1 10.1.2.0/24: held from l1 path 65201 65101 origin igp \
wanted from l1 path 65201 65102 origin igp
# a candidate that isn't the best
change s1 10.1.1.0/24 l2 igp 65201 65101
gives s1 10.1.1.0/24: held from l2 path 65201 65101 origin igp \
wanted from l1 path 65201 65101 origin igp
# another ORIGIN
change l1 10.1.1.0/24 t1 egp 65101
gives l1 10.1.1.0/24: held from t1 path 65101 origin egp wanted from t1 path 65101 origin igp
# the least device first
change t2 10.1.1.0/24
change t1 10.1.2.0/24
gives t1 10.1.2.0/24: held none wanted from l1 path 65201 65102 origin igp
# then the least prefix
change s1 10.1.2.0/24
change s1 10.1.1.0/24
gives s1 10.1.1.0/24: held none wanted from l1 path 65201 65101 origin igp
# rows that follow from a wrong one
change t1 10.1.1.0/24 own egp -
change t2 10.1.1.0/24 l1 egp 65201 65101
change l1 10.1.1.0/24 t1 egp 65101
change l2 10.1.1.0/24 t1 egp 65101
change s1 10.1.1.0/24 l1 egp 65201 65101
gives t1 10.1.1.0/24: held own path - origin egp wanted own path - origin igp
";

// Whether two rows are of the same device and prefix.
fn is_beside(row: &str, other: &str) -> bool {
    word(row, 0) == word(other, 0) && word(row, 1) == word(other, 1)
}

// The first of these rows that is of the same device and prefix.
fn beside<'a>(rows: &[&'a str], row: &str) -> Option<&'a str> {
    for other in rows {
        if is_beside(other, row) {
            return Some(*other);
        }
    }
    None
}

// The rows of the tables, with others in the places of their devices and prefixes.
fn changed<'a>(alloc: Global, changes: &[&'a str]) -> Result<Vec<&'a str>, AllocError> {
    let mut all = Vec::new(alloc);
    for row in TABLES.lines().skip(1) {
        let row = beside(changes, row).unwrap_or(row);
        if !word(row, 2).is_empty() {
            all.push(row)?;
        }
    }
    Ok(all)
}

fn answer_of_tables(alloc: Global, case: &str) -> Result<String, Fail> {
    let records = changed(alloc, &all_given(alloc, case, "change")?)?;
    answer(alloc, five(alloc)?, "", &records)
}

#[test]
fn tables_are_sound_or_not(rt: HostRuntime) -> Result<(), Fail> {
    compare(rt.alloc(), CHANGES, answer_of_tables)
}

// ---- some are emulated

// The devices, the links, the emulated devices, the rows, and what is answered. The path of an own
// route is empty, since the sender's number is put in front when the route is offered (RFC 4271,
// 5.1.2). Where two racks originate each other's prefix, the first has the greater one.
const CASES: &str = "
# two devices above one whose links are down support each other
devices t1 l1 l9:2:65202:10.0.1.9
links t1-l1 t1-l9 l1+l9
record t1 10.1.1.0/24 own igp -
record l1 10.1.1.0/24 l9 igp 65202 65101
record l9 10.1.1.0/24 l1 igp 65201 65101
gives l1 10.1.1.0/24: held from l9 path 65202 65101 origin igp wanted none
# a prefix of no island and an emulated device are neither checked nor said
devices five
links five
emulated t1 l1 l2 s1
record t2 10.1.2.0/24 own igp -
record t2 10.1.1.0/24 l1 igp 65201 65101
record t1 10.1.1.0/24 own egp -
gives
rows of t1 t2 t2
t2 10.1.2.0/24 own path - origin igp
# the path of an own route is empty
devices five
links five
emulated t1 l1 l2 s1
record t2 10.1.2.0/24 own igp 65102
gives t2 10.1.2.0/24: held own path 65102 origin igp wanted own path - origin igp
# a prefix of another island is neither checked nor said
devices t1-two t2-one l1 l2 s1
links five
emulated l1 l2 s1
record l1 10.1.1.0/24 s1 igp 65000
record t2 10.1.2.0/24 s1 igp 65000
record t2 10.1.1.0/24 own igp -
record t1 10.1.1.0/24 s1 igp 65000
record t1 10.1.2.0/24 own igp -
gives
rows of t1 t1 t2 t2 l1
t1 10.1.2.0/24 own path - origin igp
t2 10.1.1.0/24 own path - origin igp
# the least device of two islands, though its prefix is the greater
devices t1-two t2-one l1 l2 s1
links five
emulated l1 l2 s1
gives t1 10.1.2.0/24: held none wanted own path - origin igp
# the second island, where the first is sound
devices t1-two t2-one l1 l2 s1
links five
emulated l1 l2 s1
record t1 10.1.2.0/24 own igp -
gives t2 10.1.1.0/24: held none wanted own path - origin igp
# the first island, where the second is sound
devices t1-two t2-one l1 l2 s1
links five
emulated l1 l2 s1
record t2 10.1.1.0/24 own igp -
gives t1 10.1.2.0/24: held none wanted own path - origin igp
# all are emulated
devices five
links five
emulated t1 t2 l1 l2 s1
gives
rows of
# all are emulated, and a row
devices five
links five
emulated t1 t2 l1 l2 s1
record t1 10.1.1.0/24 own igp -
gives
rows of t1
";

// What a device says of a prefix, in a line, if it says something.
fn line(alloc: Global, recorded: &Recorded, device: DeviceId, about: &str) -> Result<String, Fail> {
    let said = recorded.said(device, &prefix(about)?);
    if said.is_none() {
        return Ok(String::new(alloc));
    }
    let net = recorded.certified().net();
    let (name, said) = (
        words::name_of(net, device),
        words::choice(alloc, net, said)?,
    );
    Ok(format!(in alloc; "{name} {about} {said}\n")?)
}

// The devices of the rows.
fn named(alloc: Global, recorded: &Recorded) -> Result<String, Fail> {
    let mut text = String::from_str(alloc, "rows of")?;
    for row in recorded.rows() {
        text.push_str(" ")?;
        text.push_str(words::name_of(recorded.certified().net(), row.device))?;
    }
    text.push_str("\n")?;
    Ok(text)
}

// The devices of the rows, and what each device says of two prefixes. The last number is that of no
// device.
fn said(alloc: Global, recorded: &Recorded) -> Result<String, Fail> {
    let mut text = named(alloc, recorded)?;
    for number in 0..recorded.certified().net().count().saturating_add(1) {
        let device = DeviceId(number);
        text.push_str(&line(alloc, recorded, device, "10.1.1.0/24")?)?;
        text.push_str(&line(alloc, recorded, device, "10.1.2.0/24")?)?;
    }
    Ok(text)
}

// Why records are refused.
fn refused(alloc: Global, back: &Unrecorded) -> Result<String, Fail> {
    match &back.why {
        RecordWhy::Unsound {
            device,
            prefix,
            held,
            wanted,
        } => words::unsound(alloc, back.certified.net(), *device, prefix, held, wanted),
        RecordWhy::Memory => Err(Fail::new("no memory")),
    }
}

fn told(alloc: Global, answer: &Result<Recorded, Unrecorded>) -> Result<String, Fail> {
    match answer {
        Ok(recorded) => said(alloc, recorded),
        Err(back) => refused(alloc, back),
    }
}

fn checked(alloc: Global, certified: Certified, saved: Saved) -> Result<String, Fail> {
    told(alloc, &check(alloc, certified, saved))
}

fn answer(alloc: Global, net: Net, emulated: &str, records: &[&str]) -> Result<String, Fail> {
    let saved = saved(alloc, &net, records)?;
    checked(alloc, certified(alloc, net, emulated)?, saved)
}

fn answer_of(alloc: Global, case: &str) -> Result<String, Fail> {
    let records = all_given(alloc, case, "record")?;
    answer(
        alloc,
        network_of(alloc, case)?,
        given(case, "emulated"),
        &records,
    )
}

#[test]
fn records_are_sound_or_not(rt: HostRuntime) -> Result<(), Fail> {
    compare(rt.alloc(), CASES, answer_of)
}

// ---- saved rows

// Rows, and the device and the prefix of which there are two.
const SAVED: &str = "
# each pair once
record t2 10.1.2.0/24 own igp -
record t2 10.1.1.0/24 l1 igp 65201
record t1 10.1.2.0/24 own igp -
gives none
# equal rows
record t2 10.1.2.0/24 own igp -
record t1 10.1.1.0/24 own igp -
record t2 10.1.2.0/24 own igp -
gives t2 10.1.2.0/24
# the least of three
record t2 10.1.1.0/24 own igp -
record t1 10.1.2.0/24 own igp -
record t1 10.1.2.0/24 l1 igp 65201
record t2 10.1.1.0/24 l1 igp 65201
record t1 10.1.1.0/24 own igp -
record t2 10.1.2.0/24 own igp -
record t2 10.1.2.0/24 l1 igp 65201
gives t1 10.1.2.0/24
";

fn repeated(alloc: Global, net: &Net, case: &str) -> Result<String, Fail> {
    let (device, pair) = match Saved::make(rows(alloc, net, &all_given(alloc, case, "record")?)?) {
        Ok(_) => return Ok(String::from_str(alloc, "none")?),
        Err(fault) => (fault.device, fault.prefix),
    };
    let (name, about) = (words::name_of(net, device), words::prefix(alloc, &pair)?);
    Ok(format!(in alloc; "{name} {about}")?)
}

fn repeated_of_five(alloc: Global, case: &str) -> Result<String, Fail> {
    repeated(alloc, &five(alloc)?, case)
}

#[test]
fn repeated_rows_are_told(rt: HostRuntime) -> Result<(), Fail> {
    compare(rt.alloc(), SAVED, repeated_of_five)
}
