//! What a device decides for a prefix (RFC 4271, 9.1.2): its own route, or else the best of those
//! that came in and that it accepts. `learnt` goes through the sessions into the device and keeps
//! the best so far beside its rank, and `cn_decide` compares; no path is copied.

ghost use Rattle.std.specs.Prelude.{◌≡◌, ◌<◌, IfSome, None, Some, length, option_map};
ghost use Rattle.std.specs.List.{filter, find, fold};
ghost use Rattle.cn_decide.specs.Decide.{better, with_rank};
ghost use Rattle.cn_net.specs.Candidates.{best_of, rank_of, usable};
ghost use Rattle.cn_net.specs.Network.{device_ids};
ghost use Rattle.cn_core.specs.Learnt.{choice_with, has_session, learnt_choice};
ghost use Rattle.cn_core.specs.Machine.{came_at};
ghost use Rattle.cn_core.specs.State.{is_session};
ghost use Rattle.cn_core.specs.Stored.{IsSessionUnder, choice_under, session_under, stands_for};
ghost use Rattle.cn_rib.specs.Interned.{attributes_under};

use crate::best::Best;
use crate::engine::Engine;
use crate::session::Session;
use cn_base::{DeviceId, Origin, Prefix, Rank};
use cn_decide::{Ranked, better, rank_with};
use cn_net::Net;
use cn_pool::{PathId, Pool};
use cn_rib::Interned;

// The id of the empty path, which is the first of every pool of an engine.
const EMPTY: PathId = PathId(0);

// What decides about a route that came in (RFC 4271, 9.1.2.2).
fn rank(net: &Net, pool: &Pool, from: DeviceId, route: Interned) -> Rank
    ensures { result ≡ rank_of net.now (choice_with from (attributes_under pool.now route)) }
{
    rank_with(true, pool.path(route.path), route.origin, net.router(from))
}

impl Engine {
    // The better of the best so far and of what came in over one more session, if that is accepted.
    fn better_candidate(
        &self,
        device: DeviceId,
        prefix: &Prefix,
        session: &Session,
        best: Option<Ranked<Best>>,
    ) -> Option<Ranked<Best>>
        requires there { find (is_session session.now.from device) (stands_for self.now).sessions
            ≡ Some (session_under self.now.pool session.now) }
        requires under { IsSessionUnder self.now.pool session.now }
        requires best { IfSome best (λ r. r.item.path.0 < length self.now.pool) }
        ensures better { let from = session.now.from in let s = stands_for self.now in
            learnt_choice self.now.pool result
            ≡ better (learnt_choice self.now.pool best)
            (option_map (with_rank (rank_of s.now.net))
            (usable s.now.net device from (came_at s device prefix.now from))) }
        ensures under { IfSome result (λ r. r.item.path.0 < length self.now.pool) }
    {
        let from = session.from;
        let Some(route) = session.adj_rib_in.at(prefix) else {
            return best;
        };
        let net = self.certified.net();
        let pool = &self.pool;
        if !net.accepts_path(device, from, prefix, pool.path(route.path)) {
            return best;
        }
        let rank = rank(net, pool, from, route);
        let item = Best {
            from: Some(from),
            path: route.path,
            origin: route.origin,
        };
        better(best, Ranked { rank, item })
    }

    // The best of what came in, beside its rank.
    fn learnt(&self, device: DeviceId, prefix: &Prefix) -> Option<Ranked<Best>>
        ensures best { let s = stands_for self.now in learnt_choice self.now.pool result
            ≡ fold (λ best a. better best
            (option_map (with_rank (rank_of s.now.net))
            (usable s.now.net device a (came_at s device prefix.now a)))) None
            (filter (has_session s device) (device_ids s.now.net)) }
        ensures under { IfSome result (λ r. r.item.path.0 < length self.now.pool) }
    {
        let index = &self.index;
        let mut best = None;
        for place in index.into(device) {
            let session = &self.sessions[*place as usize];
            best = self.better_candidate(device, prefix, session, best);
        }
        best
    }

    /// What a device decides for a prefix. It takes no memory.
    pub fn decided(&self, device: DeviceId, prefix: &Prefix) -> Option<Best>
        ensures best { let s = stands_for self.now in option_map (choice_under self.now.pool) result
            ≡ best_of s.now.net (came_at s device prefix.now) device prefix.now }
        ensures under { IfSome result (λ b. b.path.0 < length self.now.pool) }
    {
        if let Some(origin) = self.certified.net().own_origin(device, prefix) {
            return Some(Best {
                from: None,
                path: EMPTY,
                origin,
            });
        }
        let best = self.learnt(device, prefix)?;
        Some(best.item)
    }
}
