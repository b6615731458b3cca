//! The routes of a session whose paths are held in a pool, and the updates that change them.

ghost use Rattle.std.specs.Prelude.{◌≡◌, ◌==◌, IfOk, OnOk, OnErr, map, option_map, slice_get};
ghost use Rattle.std.specs.FinMap as fin;
ghost use Rattle.cn_pool.specs.Pool.{Extends};
ghost use Rattle.cn_rib.specs.Interned.{IsSaid, IsUnder, routes_under};
ghost use Rattle.cn_rib.specs.PrefixSet as set;
ghost use Rattle.cn_rib.specs.Updates.{apply_update, prefixes_of};

use crate::interned::Interned;
use crate::prefix_map::{PrefixMap, Row};
use crate::prefix_set::PrefixSet;
use cn_base::{AsPath, Origin, Prefix};
use cn_pool::Pool;
use cn_wire::Update;
use std::alloc::{AllocError, Global};
use std::marker::Model;

/// What was sent over a session (its sender's Adj-RIB-Out), or what came in over it (its receiver's
/// Adj-RIB-In; RFC 4271, 3.2): by prefix the id of the path in a pool, and the ORIGIN. Contracts
/// see these; what they stand for under a pool is `routes_under`.
#[derive(Debug, Drop)]
pub struct IdRib {
    routes: PrefixMap<Interned>,
}

impl Model for IdRib {
    ghost use Rattle.std.specs.FinMap as fin;
    ghost use Rattle.cn_rib.specs.Codes.{coded_cidr};
    ghost use Rattle.cn_rib.specs.Interned.{IdRoutes};
    ghost use Rattle.cn_rib.specs.contracts.interned.Interned as interned;

    ghost Value = { IdRoutes };

    ghost coded = { fin.code coded_cidr interned.the_row.coded };

    ghost view = { λ r. r.routes };
}

impl IdRib {
    /// No routes. It takes no memory.
    pub fn new(alloc: Global) -> IdRib
        ensures { result ≡ fin.empty }
    {
        IdRib {
            routes: PrefixMap::new(alloc),
        }
    }

    /// How many routes there are.
    pub fn len(&self) -> usize
        ensures { result ≡ fin.len self.now }
    {
        self.routes.len()
    }

    /// Holds where there is no route.
    pub fn is_empty(&self) -> bool
        ensures { result ≡ (fin.len self.now == 0) }
    {
        self.routes.is_empty()
    }

    /// The id and the ORIGIN for a prefix. None comes exactly where there is no route to it.
    pub fn at(&self, prefix: &Prefix) -> Option<Interned>
        ensures { result ≡ fin.get self.now prefix.now }
    {
        self.routes.get(prefix).copied()
    }

    /// The path and the ORIGIN of a prefix under a pool. None comes exactly where there is no route
    /// to it.
    pub fn get<'a>(&self, pool: &'a Pool, prefix: &Prefix) -> Option<(&'a AsPath, Origin)>
        ensures { option_map (λ x. record { path = x.0.now; origin = x.1 }) result
            ≡ fin.get (routes_under pool.now self.now) prefix.now }
    {
        let route = self.at(prefix)?;
        Some((pool.path(route.path), route.origin))
    }

    /// The routes, in ascending order of their prefixes.
    pub fn rows(&self) -> &[Row<Interned>]
        ensures { map (λ r. (r.prefix, r.value)) result.now ≡ fin.entries self.now }
    {
        self.routes.rows()
    }

    /// The prefix at a place in their ascending order, from 0. None comes exactly where the place
    /// is at or past the number of the routes.
    pub fn prefix_at(&self, place: usize) -> Option<Prefix>
        ensures { result ≡ slice_get (fin.keys self.now) place }
    {
        self.routes.prefix_at(place)
    }

    /// Takes every route out.
    pub fn clear(&mut self)
        ensures { self.new ≡ fin.empty }
    {
        self.routes.clear();
    }

    /// Applies an update, whose path joins the pool. It takes all memory before it changes a route;
    /// after want of memory the pool may have the path.
    pub fn apply(
        &mut self,
        alloc: Global,
        pool: &mut Pool,
        update: &Update,
    ) -> Result<(), AllocError>
        requires under { IsUnder pool.old self.old }
        ensures ok { OnOk result (routes_under pool.new self.new
            ≡ apply_update (routes_under pool.old self.old) update.now) }
        ensures err { OnErr result (self.new ≡ self.old) }
        ensures under { IsUnder pool.new self.new }
        ensures kept { Extends pool.old pool.new }
    {
        let said = said(alloc, pool, update)?;
        let (withdrawn, announced) = (update.withdrawn.items(), update.announced.items());
        self.routes.change_each(withdrawn, announced, said)
    }
}

/// Applies an update to what came in, and puts each of its prefixes into the set of those for which
/// a decision is due (RFC 4271, 9.1). After an error both are as before, and the pool may have the
/// path of the update.
pub fn take_in(
    alloc: Global,
    pool: &mut Pool,
    routes: &mut IdRib,
    dirty: &mut PrefixSet,
    update: &Update,
) -> Result<(), AllocError>
    requires under { IsUnder pool.old routes.old }
    ensures ok { OnOk result (routes_under pool.new routes.new
        ≡ apply_update (routes_under pool.old routes.old) update.now) }
    ensures dirty { OnOk result (dirty.new ≡ set.insert_all dirty.old (prefixes_of update.now)) }
    ensures err { OnErr result (routes.new ≡ routes.old) }
    ensures err_dirty { OnErr result (dirty.new ≡ dirty.old) }
    ensures under { IsUnder pool.new routes.new }
    ensures kept { Extends pool.old pool.new }
{
    let said = said(alloc, pool, update)?;
    let (withdrawn, announced) = (update.withdrawn.items(), update.announced.items());
    dirty.note_each(&mut routes.routes, withdrawn, announced, said)
}

// What an update says of each prefix that it announces; none where it announces nothing.
fn said(alloc: Global, pool: &mut Pool, update: &Update) -> Result<Option<Interned>, AllocError>
    ensures said { IfOk result (λ said. IsSaid pool.new update.now said) }
    ensures kept { Extends pool.old pool.new }
{
    let Some(attrs) = &update.attrs else {
        return Ok(None);
    };
    let path = pool.intern_copy(alloc, &attrs.path)?;
    Ok(Some(Interned {
        path,
        origin: attrs.origin,
    }))
}
