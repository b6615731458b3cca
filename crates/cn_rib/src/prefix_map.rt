//! Finite maps from prefixes.

ghost use Rattle.std.specs.Prelude.{◌≡◌, ◌+◌, ◌++◌, ◌<◌, ◌≤◌, ◌==◌, T, map, length, option_copied, slice_get, take, IsOk, OnOk, OnErr, Some};
ghost use Rattle.std.specs.FinMap as fin;
ghost use Rattle.std.specs.FinMap.{from_sorted, is_sorted};
ghost use Rattle.std.specs.FinMap.Entries.{put};
ghost use Rattle.std.specs.List.Sorted.{IsBinarySearchResult, IsSearchInRange};
ghost use Rattle.std.specs.Vec.{vec_len, vec_capacity};
ghost use Rattle.cn_base.specs.Table.{prefix_cmp};
ghost use Rattle.cn_rib.specs.PrefixMaps.{put_each, remove_all};
ghost use Rattle.cn_rib.specs.PrefixSet as set;

use cn_base::Prefix;
use std::alloc::{AllocError, Global};
use std::marker::Model;

/// A prefix and what a map has for it.
#[derive(Debug, Drop)]
pub struct Row<V> {
    pub prefix: Prefix,
    pub value: V,
}

/// A finite map from prefixes to values, as rows whose prefixes ascend by the bits and then by the
/// length. Contracts see the map.
#[derive(Debug, Drop)]
pub struct PrefixMap<V> {
    rows: Vec<Row<V>>,
}

impl<V> Model for PrefixMap<V> {
    ghost use Rattle.std.specs.Prelude.{T, map};
    ghost use Rattle.std.specs.FinMap.{FinMap, is_sorted, from_sorted};
    ghost use Rattle.std.specs.FinMap as fin;
    ghost use Rattle.cn_base.specs.Table.{prefix_cmp};
    ghost use Rattle.cn_rib.specs.Codes.{coded_cidr};

    ghost Value = { FinMap prefix_cmp V };

    ghost coded = { fin.code coded_cidr V.code };

    ghost view = { λ m. from_sorted (map (λ r. (r.prefix, r.value)) m.rows.items) };

    ghost invariant = { λ m.
        T (is_sorted prefix_cmp (map (λ r. (r.prefix, r.value)) m.rows.items)) };
}

impl<V> PrefixMap<V> {
    /// The map with no prefix. It takes no memory.
    pub fn new(alloc: Global) -> PrefixMap<V>
        ensures { result ≡ fin.empty }
    {
        PrefixMap {
            rows: Vec::new(alloc),
        }
    }

    /// The rows, in ascending order of their prefixes.
    pub fn rows(&self) -> &[Row<V>]
        ensures { map (λ r. (r.prefix, r.value)) result.now ≡ fin.entries self.now }
    {
        &self.rows
    }

    /// How many prefixes there are.
    pub fn len(&self) -> usize
        ensures { result ≡ fin.len self.now }
    {
        self.rows.len()
    }

    /// Holds where there is no prefix.
    pub fn is_empty(&self) -> bool
        ensures { result ≡ (fin.len self.now == 0) }
    {
        self.rows.is_empty()
    }

    /// What the map has for a prefix. None comes exactly where the prefix isn't in it.
    pub fn get(&self, prefix: &Prefix) -> Option<&V>
        ensures { option_copied result ≡ fin.get self.now prefix.now }
    {
        match place(&self.rows, prefix) {
            Ok(at) => Some(&self.rows[at].value),
            Err(_) => None,
        }
    }

    /// The prefix at a place in their ascending order, from 0. None comes exactly where the place
    /// is at or past the number of the prefixes.
    pub fn prefix_at(&self, place: usize) -> Option<Prefix>
        ensures { result ≡ slice_get (fin.keys self.now) place }
    {
        Some(self.rows.get(place)?.prefix)
    }

    /// Sets what the map has for a prefix. It takes no memory where the prefix is in the map.
    pub fn insert(&mut self, prefix: Prefix, value: V) -> Result<(), AllocError>
    where
        V: Drop,
        ensures ok { OnOk result (self.new ≡ fin.insert self.old prefix value) }
        ensures err { OnErr result (self.new ≡ self.old) }
    {
        put(&mut self.rows, prefix, value)
    }

    /// Takes a prefix out. A map without the prefix stays as it is.
    pub fn remove(&mut self, prefix: &Prefix)
    where
        V: Drop,
        ensures { self.new ≡ fin.remove self.old prefix.now }
    {
        take_out(&mut self.rows, prefix);
    }

    /// Takes every prefix out.
    pub fn clear(&mut self)
    where
        V: Drop,
        ensures { self.new ≡ fin.empty }
    {
        self.rows.clear();
    }

    // Takes each of these prefixes out.
    pub(crate) fn remove_all(&mut self, prefixes: &[Prefix])
    where
        V: Drop,
        ensures { self.new ≡ remove_all self.old prefixes.now }
    {
        take_all_out(&mut self.rows, prefixes);
    }

    // Takes each of these prefixes out, and then sets what the map has for each of the others, if
    // there is something. All memory is taken before the first.
    pub(crate) fn change_each(
        &mut self,
        removed: &[Prefix],
        put: &[Prefix],
        value: Option<V>,
    ) -> Result<(), AllocError>
    where
        V: Copy,
        ensures ok { OnOk result
            (self.new ≡ put_each (remove_all self.old removed.now) put.now value) }
        ensures err { OnErr result (self.new ≡ self.old) }
    {
        self.rows.reserve(put.len())?;
        take_all_out(&mut self.rows, removed);
        if let Some(value) = value {
            put_each_in(&mut self.rows, put, value);
        }
        Ok(())
    }
}

impl PrefixMap<()> {
    // Puts in each prefix of another map. All memory is taken before the first.
    pub(crate) fn insert_all<V>(&mut self, other: &PrefixMap<V>) -> Result<(), AllocError>
        ensures ok { OnOk result (self.new ≡ set.insert_all self.old (fin.keys other.now)) }
        ensures err { OnErr result (self.new ≡ self.old) }
    {
        let more = other.rows();
        self.rows.reserve(more.len())?;
        for row in more {
            put(&mut self.rows, row.prefix, ())?;
        }
        Ok(())
    }

    // Puts each of these prefixes in. All memory is taken before the first.
    pub(crate) fn insert_each(&mut self, prefixes: &[Prefix]) -> Result<(), AllocError>
        ensures ok { OnOk result (self.new ≡ set.insert_all self.old prefixes.now) }
        ensures err { OnErr result (self.new ≡ self.old) }
    {
        self.rows.reserve(prefixes.len())?;
        note_all(&mut self.rows, prefixes);
        Ok(())
    }

    // Changes another map, and puts in each prefix of two lists. All memory is taken before the
    // first change.
    pub(crate) fn note_each<V>(
        &mut self,
        other: &mut PrefixMap<V>,
        removed: &[Prefix],
        announced: &[Prefix],
        value: Option<V>,
    ) -> Result<(), AllocError>
    where
        V: Copy,
        ensures ok { OnOk result (self.new
            ≡ set.insert_all self.old (removed.now ++ announced.now)) }
        ensures changed { OnOk result
            (other.new ≡ put_each (remove_all other.old removed.now) announced.now value) }
        ensures err { OnErr result (self.new ≡ self.old) }
        ensures err_changed { OnErr result (other.new ≡ other.old) }
    {
        self.rows.reserve(removed.len() + announced.len())?;
        other.change_each(removed, announced, value)?;
        note_all(&mut self.rows, removed);
        note_all(&mut self.rows, announced);
        Ok(())
    }
}

// The place of the row of a prefix, or the place where it would go.
fn place<V>(rows: &[Row<V>], prefix: &Prefix) -> Result<usize, usize>
    ensures bound { IsSearchInRange result (length rows.now) }
    ensures position { IsBinarySearchResult (λ r. prefix_cmp r.prefix prefix.now) rows.now result }
{
    rows.binary_search_by_key(prefix, |row| row.prefix)
}

// Puts a row at its place, or in place of that of its prefix.
fn put<V>(rows: &mut Vec<Row<V>>, prefix: Prefix, value: V) -> Result<(), AllocError>
where
    V: Drop,
    requires { T (is_sorted prefix_cmp (map (λ r. (r.prefix, r.value)) rows.old.items)) }
    ensures ok { OnOk result
        (map (λ r. (r.prefix, r.value)) rows.new.items
        ≡ put prefix_cmp prefix value (map (λ r. (r.prefix, r.value)) rows.old.items)) }
    ensures err { OnErr result (rows.new.items ≡ rows.old.items) }
    ensures room { vec_len rows.old < vec_capacity rows.old → IsOk result }
    ensures length { vec_len rows.new ≤ vec_len rows.old + 1 }
    ensures capacity { vec_capacity rows.old ≤ vec_capacity rows.new }
{
    match place(rows, &prefix) {
        Ok(at) => {
            rows[at] = Row { prefix, value };
            Ok(())
        }
        Err(at) => Ok(rows.insert(at, Row { prefix, value })?),
    }
}

// Takes out the row of a prefix, where there is one.
fn take_out<V>(rows: &mut Vec<Row<V>>, prefix: &Prefix)
where
    V: Drop,
    requires { T (is_sorted prefix_cmp (map (λ r. (r.prefix, r.value)) rows.old.items)) }
    ensures sorted { T (is_sorted prefix_cmp (map (λ r. (r.prefix, r.value)) rows.new.items)) }
    ensures value { from_sorted {R = prefix_cmp} (map (λ r. (r.prefix, r.value)) rows.new.items)
        ≡ fin.remove (from_sorted (map (λ r. (r.prefix, r.value)) rows.old.items)) prefix.now }
    ensures length { vec_len rows.new ≤ vec_len rows.old }
    ensures capacity { vec_capacity rows.old ≤ vec_capacity rows.new }
{
    if let Ok(at) = place(rows, prefix) {
        rows.remove(at);
    }
}

// How many of the first rows are those of the first prefixes, one after the other.
fn shared_front<V>(rows: &[Row<V>], prefixes: &[Prefix]) -> usize
    ensures within_rows { result ≤ length rows.now }
    ensures within_prefixes { result ≤ length prefixes.now }
    ensures same { map (λ r. r.prefix) (take result rows.now) ≡ take result prefixes.now }
{
    let most = rows.len().min(prefixes.len());
    for place in 0..most {
        if rows[place].prefix != prefixes[place] {
            return place;
        }
    }
    most
}

// Takes out those of the first rows that are those of the first prefixes, all at once. Says how
// many they are.
fn take_front_out<V>(rows: &mut Vec<Row<V>>, prefixes: &[Prefix]) -> usize
where
    V: Drop,
    requires { T (is_sorted prefix_cmp (map (λ r. (r.prefix, r.value)) rows.old.items)) }
    ensures sorted { T (is_sorted prefix_cmp (map (λ r. (r.prefix, r.value)) rows.new.items)) }
    ensures value { from_sorted {R = prefix_cmp} (map (λ r. (r.prefix, r.value)) rows.new.items)
        ≡ remove_all (from_sorted (map (λ r. (r.prefix, r.value)) rows.old.items))
        (take result prefixes.now) }
    ensures within { result ≤ length prefixes.now }
    ensures length { vec_len rows.new ≤ vec_len rows.old }
    ensures capacity { vec_capacity rows.old ≤ vec_capacity rows.new }
{
    let front = shared_front(rows, prefixes);
    rows.rotate_left(front);
    rows.truncate(rows.len() - front);
    front
}

// Takes out the rows of these prefixes. A long run of them in front takes one pass over the rows.
fn take_all_out<V>(rows: &mut Vec<Row<V>>, prefixes: &[Prefix])
where
    V: Drop,
    requires { T (is_sorted prefix_cmp (map (λ r. (r.prefix, r.value)) rows.old.items)) }
    ensures sorted { T (is_sorted prefix_cmp (map (λ r. (r.prefix, r.value)) rows.new.items)) }
    ensures value { from_sorted {R = prefix_cmp} (map (λ r. (r.prefix, r.value)) rows.new.items)
        ≡ remove_all (from_sorted (map (λ r. (r.prefix, r.value)) rows.old.items)) prefixes.now }
    ensures length { vec_len rows.new ≤ vec_len rows.old }
    ensures capacity { vec_capacity rows.old ≤ vec_capacity rows.new }
{
    let front = take_front_out(rows, prefixes);
    for prefix in &prefixes[front..] {
        take_out(rows, prefix);
    }
}

// Puts a row with this value in for each of these prefixes, for which there is room.
fn put_each_in<V>(rows: &mut Vec<Row<V>>, prefixes: &[Prefix], value: V)
where
    V: Copy,
    requires sorted { T (is_sorted prefix_cmp (map (λ r. (r.prefix, r.value)) rows.old.items)) }
    requires room { vec_len rows.old + length prefixes.now ≤ vec_capacity rows.old }
    ensures sorted { T (is_sorted prefix_cmp (map (λ r. (r.prefix, r.value)) rows.new.items)) }
    ensures value { from_sorted {R = prefix_cmp} (map (λ r. (r.prefix, r.value)) rows.new.items)
        ≡ put_each (from_sorted (map (λ r. (r.prefix, r.value)) rows.old.items)) prefixes.now
        (Some value) }
{
    for prefix in prefixes {
        put(rows, *prefix, value).unwrap();
    }
}

// Puts each of these prefixes in, for which there is room.
fn note_all(rows: &mut Vec<Row<()>>, prefixes: &[Prefix])
    requires sorted { T (is_sorted prefix_cmp (map (λ r. (r.prefix, r.value)) rows.old.items)) }
    requires room { vec_len rows.old + length prefixes.now ≤ vec_capacity rows.old }
    ensures sorted { T (is_sorted prefix_cmp (map (λ r. (r.prefix, r.value)) rows.new.items)) }
    ensures value { from_sorted {R = prefix_cmp} (map (λ r. (r.prefix, r.value)) rows.new.items)
        ≡ set.insert_all (from_sorted (map (λ r. (r.prefix, r.value)) rows.old.items))
        prefixes.now }
    ensures length { vec_len rows.new ≤ vec_len rows.old + length prefixes.now }
    ensures capacity { vec_capacity rows.old ≤ vec_capacity rows.new }
{
    for prefix in prefixes {
        put(rows, *prefix, ()).unwrap();
    }
}
