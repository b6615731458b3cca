//! Distinct paths, each with a number.

ghost use Rattle.std.specs.Prelude.{◌≡◌, ◌+◌, ◌<◌, ◌≤◌, [], false, length, slice_get, option_copied, MatchOption, IfOk, IfErr, IsOk, IsTrue, OnErr, Some};
ghost use Rattle.cn_pool.specs.Pool.{IsDistinct, Joins, holds_path, longer_path, path_under};

use cn_base::{AsPath, Asn};
use indexmap::IndexSet;
use std::alloc::{AllocError, Global};
use std::collections::HashMap;
use std::marker::Model;

// The greatest id.
const MOST: usize = 0xFFFF_FFFF;

/// A path of a pool, by its place, from 0. It has four octets, since the routes of a large network
/// have many of them.
#[derive(Clone, Copy, Debug, PartialEq, Eq, Hash)]
pub struct PathId(pub u32);

/// What is put in front of a path: so many copies of a number.
#[derive(Clone, Copy, Debug, PartialEq, Eq, Hash)]
struct Step {
    path: PathId,
    asn: Asn,
    times: u8,
}

/// Distinct paths. A path keeps its id as long as the pool lives. Contracts see the list of the
/// paths.
#[derive(Drop)]
pub struct Pool {
    paths: IndexSet<AsPath>,
    /// Where the longer paths are that were asked for.
    longer: HashMap<Step, PathId>,
    /// The path of an id that the pool didn't give.
    none: AsPath,
}

impl Model for Pool {
    ghost use Rattle.std.specs.Prelude.{◌≡◌, List, []};
    ghost use Rattle.cn_base.specs.declared.ids.Asn.{Asn};
    ghost use Rattle.cn_pool.specs.Pool.{IsPool};

    ghost Value = { List (List Asn) };

    ghost view = { λ p. p.paths.keys };

    ghost invariant = { λ p. IsPool p.paths.keys p.longer × (p.none ≡ []) };
}

impl Pool {
    /// The pool with no path. It takes no memory.
    pub fn new(alloc: Global) -> Pool
        ensures { result ≡ [] }
    {
        Pool {
            paths: IndexSet::new(alloc),
            longer: HashMap::new(alloc),
            none: AsPath::empty(alloc),
        }
    }

    /// How many paths there are: ids are below this.
    pub fn len(&self) -> usize
        ensures length { result ≡ length self.now }
        ensures distinct { IsDistinct self.now }
    {
        self.paths.len()
    }

    /// The id of a path, which joins the pool where it isn't in it. The path comes back for want of
    /// memory alone, which 2^32 paths are too, and never where the pool holds it.
    pub fn intern(&mut self, path: AsPath) -> Result<PathId, AsPath>
        ensures ok { IfOk result (λ id. Joins self.old self.new path id) }
        ensures err { IfErr result (λ back. (back ≡ path) × (self.new ≡ self.old)) }
        ensures known { IsTrue (holds_path self.old path) → IsOk result }
        ensures distinct { IsDistinct self.new }
    {
        if let Some(id) = self.id_of(&path) {
            return Ok(id);
        }
        if self.paths.len() > MOST {
            return Err(path);
        }
        match self.paths.insert_full(path) {
            Ok((place, _)) => Ok(PathId(place as u32)),
            Err(refused) => Err(refused.value),
        }
    }

    /// The id of a path that the pool holds. None comes exactly where it doesn't hold it.
    pub fn id_of(&self, path: &AsPath) -> Option<PathId>
        ensures { MatchOption result (holds_path self.now path.now ≡ false)
            (λ id. slice_get self.now id.0 ≡ Some path.now) }
    {
        let (place, _) = self.paths.get_full(path)?;
        Some(PathId(place as u32))
    }

    /// The id of an equal path, which joins the pool where it isn't in it. The path is copied only
    /// then. The error is want of memory.
    pub fn intern_copy(&mut self, alloc: Global, path: &AsPath) -> Result<PathId, AllocError>
        ensures ok { IfOk result (λ id. Joins self.old self.new path.now id) }
        ensures err { OnErr result (self.new ≡ self.old) }
        ensures distinct { IsDistinct self.new }
    {
        // The length tells that the paths are distinct.
        let _ = self.len();
        if let Some(id) = self.id_of(path) {
            return Ok(id);
        }
        match self.intern(path.copy(alloc)?) {
            Ok(id) => Ok(id),
            Err(_) => Err(AllocError),
        }
    }

    /// The path of an id, and the empty path where the pool gave no such id.
    pub fn path(&self, id: PathId) -> &AsPath
        ensures { result.now ≡ path_under self.now id }
    {
        match self.paths.get_index(id.0 as usize) {
            Some(path) => path,
            None => &self.none,
        }
    }

    /// The path of an id. None comes exactly where the pool gave no such id.
    pub fn path_of(&self, id: PathId) -> Option<&AsPath>
        ensures path { option_copied result ≡ slice_get self.now id.0 }
        ensures distinct { IsDistinct self.now }
    {
        self.paths.get_index(id.0 as usize)
    }

    /// The id of the path with `times` copies of a number in front (RFC 4271, 5.1.2 b), which joins
    /// the pool where it isn't in it. `Ok(None)` comes exactly where that path has more than 255
    /// numbers, and Err for want of memory alone. A second call for the same takes no memory.
    pub fn extended(
        &mut self,
        alloc: Global,
        id: PathId,
        asn: Asn,
        times: u8,
    ) -> Result<Option<PathId>, AllocError>
        requires { id.0 < length self.old }
        ensures ok { let path = longer_path self.old id asn times in
            IfOk result (λ made. MatchOption made
            ((255 < length path) × (self.new ≡ self.old))
            (λ longer. (length path ≤ 255) × Joins self.old self.new path longer)) }
        ensures err { OnErr result (self.new ≡ self.old) }
        ensures distinct { IsDistinct self.new }
    {
        let step = Step {
            path: id,
            asn,
            times,
        };
        if let Some(known) = self.longer.get(&step) {
            return Ok(Some(*known));
        }
        let Some(longer) = self.paths[id.0 as usize].extended(alloc, asn, times)? else {
            return Ok(None);
        };
        let Ok(longer) = self.intern(longer) else {
            return Err(AllocError);
        };
        // Without memory for this line the next call builds the path again.
        let _ = self.longer.insert(step, longer);
        Ok(Some(longer))
    }
}
