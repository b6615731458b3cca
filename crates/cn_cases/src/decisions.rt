//! The decision between routes (RFC 4271, 9.1.2.2).

use cn_base::{AsPath, Asn, DeviceId, Origin, Route, RouterId};
use cn_decide::{Candidate, Ranked, better, pick, rank};
use cn_given::build::{origin, prefix};
use cn_given::tables::{all_given, number, word};
use cn_given::words::{compare, same};
use std::alloc::Global;
use std::test::Fail;

// Candidates, and the first place of the least rank. A candidate is learnt or own, and has the
// length of its path, its ORIGIN and its sender.
const CASES: &str = "
# own before learnt
candidate learnt 1 igp 1
candidate own 0 incomplete 9
candidate learnt 1 igp 1
gives Some(1)
# the shortest path
candidate learnt 2 igp 1
candidate learnt 2 igp 2
candidate learnt 1 incomplete 9
gives Some(2)
# the lowest ORIGIN
candidate learnt 2 egp 1
candidate learnt 2 igp 9
candidate learnt 2 incomplete 1
gives Some(1)
# the lowest sender
candidate learnt 2 egp 3
candidate learnt 2 egp 4
candidate learnt 2 egp 2
gives Some(2)
# the first of two equal ones
candidate learnt 2 egp 3
candidate learnt 2 igp 4
candidate learnt 2 igp 4
gives Some(1)
# the first where all are equal
candidate learnt 2 igp 4
candidate learnt 2 igp 4
candidate learnt 2 igp 4
gives Some(0)
# no candidate
gives None
";

// A path of one number, so many times.
fn path(alloc: Global, length: &str) -> Result<AsPath, Fail> {
    let length = length.parse::<u8>()?;
    let path = AsPath::empty(alloc).extended(alloc, Asn(64512), length)?;
    Ok(path.ok_or("too long")?)
}

fn route(alloc: Global, length: &str, origin: Origin) -> Result<Route, Fail> {
    let path = path(alloc, length)?;
    Ok(Route {
        prefix: prefix("10.0.0.0/8")?,
        path,
        origin,
    })
}

fn candidate(alloc: Global, text: &str) -> Result<Candidate, Fail> {
    let route = route(alloc, word(text, 1), origin(word(text, 2))?)?;
    let sender = RouterId(number(word(text, 3))?);
    let from = (word(text, 0) == "learnt").then_some(DeviceId(7));
    Ok(Candidate {
        from,
        sender,
        route,
    })
}

// The candidates of a case.
fn candidates(alloc: Global, case: &str) -> Result<Vec<Candidate>, Fail> {
    let mut candidates = Vec::new(alloc);
    for text in all_given(alloc, case, "candidate")? {
        candidates.push(candidate(alloc, text)?)?;
    }
    Ok(candidates)
}

fn picked(alloc: Global, case: &str) -> Result<String, Fail> {
    let place = pick(&candidates(alloc, case)?);
    Ok(format!(in alloc; "{place:?}")?)
}

// The same, one candidate after another, beside its rank.
fn least(candidates: &[Candidate]) -> Option<usize> {
    let mut best = None;
    for (item, candidate) in candidates.iter().enumerate() {
        let rank = rank(candidate);
        best = better(best, Ranked { rank, item });
    }
    best.map(|best| best.item)
}

fn kept(alloc: Global, case: &str) -> Result<String, Fail> {
    let place = least(&candidates(alloc, case)?);
    Ok(format!(in alloc; "{place:?}")?)
}

#[test]
fn the_least_rank_is_picked(rt: HostRuntime) -> Result<(), Fail> {
    compare(rt.alloc(), CASES, picked)?;
    compare(rt.alloc(), CASES, kept)
}

// The rank of a candidate.
fn ranked(alloc: Global, text: &str) -> Result<String, Fail> {
    let rank = rank(&candidate(alloc, text)?);
    let (learnt, length, origin, sender) = (rank.learnt, rank.length, rank.origin, rank.sender);
    Ok(format!(in alloc; "{learnt} {length} {origin:?} {sender:?}")?)
}

#[test]
fn candidates_are_ranked(rt: HostRuntime) -> Result<(), Fail> {
    let found = ranked(rt.alloc(), "own 0 egp 5")?;
    same("a rank", &found, "false 0 Egp RouterId(5)")
}
