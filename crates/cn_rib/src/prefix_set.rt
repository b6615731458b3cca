//! Sets of prefixes.

ghost use Rattle.std.specs.Prelude.{◌≡◌, ◌==◌, ◌++◌, IfOk, OnOk, OnErr, map};
ghost use Rattle.std.specs.List.{fold};
ghost use Rattle.std.specs.FinMap as fin;
ghost use Rattle.cn_rib.specs.PrefixMaps.{put_each, remove_all};
ghost use Rattle.cn_rib.specs.PrefixSet as set;

use crate::prefix_map::{PrefixMap, Row};
use cn_base::Prefix;
use std::alloc::{AllocError, Global};
use std::marker::Model;

/// A set of prefixes, in ascending order.
#[derive(Debug, Drop)]
pub struct PrefixSet {
    map: PrefixMap<()>,
}

impl Model for PrefixSet {
    ghost use base.Stored.{coded_unit};
    ghost use Rattle.std.specs.FinMap as fin;
    ghost use Rattle.cn_rib.specs.Codes.{coded_cidr};
    ghost use Rattle.cn_rib.specs.PrefixSet.{PrefixSet};

    ghost Value = { PrefixSet };

    ghost coded = { fin.code coded_cidr coded_unit };

    ghost view = { λ s. s.map };
}

impl PrefixSet {
    /// The set with no prefix. It takes no memory.
    pub fn new(alloc: Global) -> PrefixSet
        ensures { result ≡ set.empty }
    {
        PrefixSet {
            map: PrefixMap::new(alloc),
        }
    }

    /// How many prefixes there are.
    pub fn len(&self) -> usize
        ensures { result ≡ fin.len self.now }
    {
        self.map.len()
    }

    /// Holds where there is no prefix.
    pub fn is_empty(&self) -> bool
        ensures { result ≡ (fin.len self.now == 0) }
    {
        self.map.is_empty()
    }

    /// Holds where the prefix is in the set.
    pub fn contains(&self, prefix: &Prefix) -> bool
        ensures { result ≡ set.contains self.now prefix.now }
    {
        self.map.get(prefix).is_some()
    }

    /// The least prefix, by the bits and then by the length. None comes exactly where the set is
    /// empty.
    pub fn first(&self) -> Option<Prefix>
        ensures { result ≡ set.least self.now }
    {
        match self.map.rows().first() {
            Some(row) => Some(row.prefix),
            None => None,
        }
    }

    /// The prefixes as rows, in ascending order.
    pub fn rows(&self) -> &[Row<()>]
        ensures { map (λ r. r.prefix) result.now ≡ fin.keys self.now }
    {
        self.map.rows()
    }

    /// Puts a prefix in. It takes no memory where the prefix is in the set.
    pub fn insert(&mut self, prefix: Prefix) -> Result<(), AllocError>
        ensures ok { OnOk result (self.new ≡ set.insert self.old prefix) }
        ensures err { OnErr result (self.new ≡ self.old) }
    {
        self.map.insert(prefix, ())
    }

    /// Takes a prefix out. A set without the prefix stays as it is.
    pub fn remove(&mut self, prefix: &Prefix)
        ensures { self.new ≡ set.remove self.old prefix.now }
    {
        self.map.remove(prefix);
    }

    /// Takes each of these prefixes out. A prefix that isn't in the set changes nothing.
    pub fn remove_all(&mut self, prefixes: &[Prefix])
        ensures { self.new ≡ fold set.remove self.old prefixes.now }
    {
        self.map.remove_all(prefixes);
    }

    /// Puts in each of these prefixes. It takes all memory before the first.
    pub fn insert_each(&mut self, prefixes: &[Prefix]) -> Result<(), AllocError>
        ensures ok { OnOk result (self.new ≡ set.insert_all self.old prefixes.now) }
        ensures err { OnErr result (self.new ≡ self.old) }
    {
        self.map.insert_each(prefixes)
    }

    // Changes a map, and puts in each prefix of two lists. All memory is taken before the first
    // change.
    pub(crate) fn note_each<V>(
        &mut self,
        other: &mut PrefixMap<V>,
        removed: &[Prefix],
        announced: &[Prefix],
        value: Option<V>,
    ) -> Result<(), AllocError>
    where
        V: Copy,
        ensures ok { OnOk result (self.new
            ≡ set.insert_all self.old (removed.now ++ announced.now)) }
        ensures changed { OnOk result
            (other.new ≡ put_each (remove_all other.old removed.now) announced.now value) }
        ensures err { OnErr result (self.new ≡ self.old) }
        ensures err_changed { OnErr result (other.new ≡ other.old) }
    {
        self.map.note_each(other, removed, announced, value)
    }

    /// Puts in each prefix of a map. It takes all memory before the first.
    pub fn insert_all<V>(&mut self, map: &PrefixMap<V>) -> Result<(), AllocError>
        ensures ok { OnOk result (self.new ≡ set.insert_all self.old (fin.keys map.now)) }
        ensures err { OnErr result (self.new ≡ self.old) }
    {
        self.map.insert_all(map)
    }

    /// An equal set.
    pub fn copy(&self, alloc: Global) -> Result<PrefixSet, AllocError>
        ensures { IfOk result (λ copy. copy ≡ self.now) }
    {
        let mut copy = PrefixSet::new(alloc);
        copy.insert_all(&self.map)?;
        Ok(copy)
    }
}
