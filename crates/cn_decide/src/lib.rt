//! The decision between the routes that a device may use for a prefix (RFC 4271, 9.1.2.2).
//!
//! Every decision is made here. A layer that has its candidates in a list calls `pick`. One that
//! meets them one after another, where they lie, calls `better` with each, and keeps the best so
//! far beside its rank, so that no path is copied to be compared. The steps of the decision, in
//! their order, as `specs/Rank.antt` of `cn_base` has them:
//!
//! - the degree of preference (9.1.1) can't decide, since all routes have one; but a device's own
//!   route comes before each that it learnt;
//! - a) the path with the least number of AS numbers;
//! - b) the lowest ORIGIN;
//! - c) can't decide: no route has a MULTI_EXIT_DISC;
//! - d) can't decide: each session is eBGP;
//! - e) can't decide: sessions are single-hop, so no route has an interior cost;
//! - f) the lowest BGP Identifier of the sender;
//! - g) can't decide: BGP Identifiers are distinct, so f) leaves no tie.
//!
//! The contracts cite `better` and `IsPick` of `specs/Decide.antt`, and through them `rank_cmp` of
//! `cn_base`, the order of ranks. Which routes are candidates is left to the layer above.
#![tactic(auto)]

ghost use Rattle.std.specs.Prelude.{◌≡◌, length, MatchOption, Some};
ghost use Rattle.cn_decide.specs.Decide.{IsPick, better, rank_of, rank_with};

use cn_base::{AsPath, DeviceId, Origin, Rank, Route, RouterId};

/// A route that a device may use. `from` is the device that it came from, and none where it is the
/// device's own; `sender` is the BGP Identifier of that device.
#[derive(Debug, Drop)]
pub struct Candidate {
    pub from: Option<DeviceId>,
    pub sender: RouterId,
    pub route: Route,
}

/// Something that a device may use, beside the rank that decides about it.
#[derive(Debug, Drop)]
pub struct Ranked<T> {
    pub rank: Rank,
    pub item: T,
}

/// What decides about a route of these parts. It takes no memory.
pub fn rank_with(learnt: bool, path: &AsPath, origin: Origin, sender: RouterId) -> Rank
    ensures { result ≡ rank_with learnt path.now origin sender }
{
    Rank {
        learnt,
        length: path.len(),
        origin,
        sender,
    }
}

/// What decides about a candidate. It takes no memory.
pub fn rank(candidate: &Candidate) -> Rank
    ensures { result ≡ rank_of candidate.now }
{
    let route = &candidate.route;
    rank_with(
        candidate.from.is_some(),
        &route.path,
        route.origin,
        candidate.sender,
    )
}

/// One step of the decision: the next, where its rank stands before that of the best so far or
/// there is none, and else the best so far. It takes no memory.
#[tactic(auto, unfolding(crate::specs::Decide::outranks_by))]
pub fn better<T: Drop>(best: Option<Ranked<T>>, next: Ranked<T>) -> Option<Ranked<T>>
    ensures { result ≡ better best (Some next) }
{
    match best {
        Some(best) => {
            if next.rank.is_before(&best.rank) {
                Some(next)
            } else {
                Some(best)
            }
        }
        None => Some(next),
    }
}

/// The first place of the least rank. None comes exactly where there is no candidate. It takes no
/// memory.
pub fn pick(candidates: &[Candidate]) -> Option<usize>
    ensures { MatchOption result (length candidates.now ≡ 0) (λ i. IsPick candidates.now i) }
{
    let mut best = None;
    for (place, candidate) in candidates.iter().enumerate() {
        let next = Ranked {
            rank: rank(candidate),
            item: place,
        };
        best = better(best, next);
    }
    Some(best?.item)
}
