//! What a session owes, as messages (RFC 4271, 4.3 and 9.2).

use cn_base::{AsPath, Asn, Origin};
use cn_given::build::prefix_of_number;
use cn_given::tables::{all_given, count, given, number, word};
use cn_given::words::compare;
use cn_pack::{Owed, next_message};
use cn_wire::{Update, encode, fits};
use std::alloc::Global;
use std::test::Fail;

const NEXT_HOP: u32 = 0x0A00_0001;

// The number of the prefix 10.0.0.0/24.
const FIRST: u32 = 0x000A_0000;

// The path of one AS number, or none for `-`.
fn path(alloc: Global, word: &str) -> Result<Option<(AsPath, Origin)>, Fail> {
    if word == "-" {
        return Ok(None);
    }
    let mut numbers = Vec::new(alloc);
    numbers.push(Asn(number(word)?))?;
    Ok(Some((AsPath::make(numbers).ok_or("no path")?, Origin::Igp)))
}

// The prefix 10.A.B.0/24 of this number, which is A * 256 + B: to be announced with a path of one
// number, or withdrawn.
fn owed(alloc: Global, number: u32, asn: &str) -> Result<Owed, Fail> {
    let wanted = path(alloc, asn)?;
    Ok(Owed {
        prefix: prefix_of_number(FIRST.wrapping_add(number))?,
        wanted,
    })
}

// So many prefixes from this number on that are all wanted so.
fn many(alloc: Global, first: u32, count: u32, asn: &str) -> Result<Vec<Owed>, Fail> {
    let mut list = Vec::new(alloc);
    for number in 0..count {
        list.push(owed(alloc, first.wrapping_add(number), asn)?)?;
    }
    Ok(list)
}

// The prefixes that a case gives.
fn list(alloc: Global, case: &str) -> Result<Vec<Owed>, Fail> {
    let mut list = Vec::new(alloc);
    for text in all_given(alloc, case, "owed")? {
        list.push(owed(alloc, number(word(text, 0))?, word(text, 1))?)?;
    }
    Ok(list)
}

// The message for what is owed.
fn message(alloc: Global, owed: &[Owed]) -> Result<Update, Fail> {
    if owed.is_empty() || !Owed::ascend(owed) {
        return Err(Fail::new("not ascending"));
    }
    Ok(next_message(alloc, owed, NEXT_HOP)?)
}

fn size_of(alloc: Global, update: &Update) -> Result<usize, Fail> {
    if !fits(update) {
        return Err(Fail::new("too long"));
    }
    Ok(encode(alloc, update)?.len())
}

// How many prefixes are withdrawn and announced, and how many octets that takes.
fn told(alloc: Global, owed: &[Owed]) -> Result<String, Fail> {
    let update = message(alloc, owed)?;
    let size = size_of(alloc, &update)?;
    let (withdrawn, announced) = (update.withdrawn.len(), update.announced.len());
    Ok(format!(in alloc; "{withdrawn} {announced} {size}")?)
}

// The first number, how many are owed, the one AS number of their paths or none, and how many a
// message withdraws, announces and takes.
const FULL: &str = "
# 1,014 announcements
first 0
count 1014
asn 65101
gives 0 1013 4095
# the last of them
first 1013
count 1
asn 65101
gives 0 1 47
# 1,019 withdrawals
first 0
count 1019
asn -
gives 1018 0 4095
";

fn full(alloc: Global, case: &str) -> Result<String, Fail> {
    let (first, count) = (count(case, "first")?, count(case, "count")?);
    told(alloc, &many(alloc, first, count, given(case, "asn"))?)
}

#[test]
fn messages_are_full(rt: HostRuntime) -> Result<(), Fail> {
    compare(rt.alloc(), FULL, full)
}

// What is owed, and the message: the withdrawn prefixes, the announced ones, and their path and
// NEXT_HOP.
const SENT: &str = "
# a withdrawal goes before each announcement
owed 0 65101
owed 1 65101
owed 2 -
gives [Prefix { bits: 167772672, len: 24 }] [] None
# prefixes with the attributes of the first are announced with it, and others are left
owed 0 65101
owed 1 65102
owed 2 65101
gives [] [Prefix { bits: 167772160, len: 24 }, Prefix { bits: 167772672, len: 24 }] \
Some(([Asn(65101)], 167772161))
";

fn attributes(alloc: Global, update: &Update) -> Result<String, Fail> {
    let attrs = update.attrs.as_ref();
    let attrs = attrs.map(|attrs| (attrs.path.items(), attrs.next_hop));
    Ok(format!(in alloc; "{attrs:?}")?)
}

fn sent(alloc: Global, case: &str) -> Result<String, Fail> {
    let update = message(alloc, &list(alloc, case)?)?;
    let attributes = attributes(alloc, &update)?;
    let (withdrawn, announced) = (update.withdrawn.items(), update.announced.items());
    Ok(format!(in alloc; "{withdrawn:?} {announced:?} {attributes}")?)
}

#[test]
fn equal_attributes_go_together(rt: HostRuntime) -> Result<(), Fail> {
    compare(rt.alloc(), SENT, sent)
}

// Two owed prefixes, and whether they ascend.
const ORDER: &str = "
# the lesser first
owed 0 -
owed 1 -
gives true
# one twice
owed 1 -
owed 1 -
gives false
# the greater first
owed 2 -
owed 1 -
gives false
";

fn ascends(alloc: Global, case: &str) -> Result<String, Fail> {
    let ascends = Owed::ascend(&list(alloc, case)?);
    Ok(format!(in alloc; "{ascends}")?)
}

#[test]
fn owed_prefixes_ascend_or_not(rt: HostRuntime) -> Result<(), Fail> {
    compare(rt.alloc(), ORDER, ascends)
}
