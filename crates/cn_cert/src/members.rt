//! Devices in groups, in order, and the groups whose devices differ.

ghost use Rattle.std.specs.Prelude.{◌≡◌, ◌↔◌, IfOk, IsTrue, filter, map};
ghost use Rattle.std.specs.BTreeMap.{IsFromIterResult, get};
ghost use Rattle.std.specs.BTreeSet.{contains};
ghost use Rattle.std.specs.Option.{option_copied};
ghost use Rattle.cn_cert.specs.Steps.{IsExact, IsSplit, differs};

use cn_base::DeviceId;
use std::alloc::{AllocError, Global};
use std::collections::{BTreeMap, BTreeSet};

/// A device, and the key of a group that it is in.
#[derive(Clone, Copy, Debug, PartialEq, Eq, PartialOrd, Ord)]
pub struct Member<K> {
    pub key: K,
    pub device: DeviceId,
}

/// One of the numbers that each key stands with.
fn numbers<K: Ord + Copy>(
    alloc: Global,
    pairs: &[(K, Option<u32>)],
) -> Result<BTreeMap<K, Option<u32>>, AllocError>
    ensures { IfOk result (IsFromIterResult K.cmp pairs.now) }
{
    pairs.iter().copied().collect(alloc)
}

/// Holds where the key stands with another number than this one.
fn differs(number: Option<&Option<u32>>, other: Option<u32>) -> bool
    ensures { result ≡ differs (option_copied number.entry) other }
{
    match number {
        Some(number) => *number != other,
        None => false,
    }
}

/// The keys that stand with another number than this map has for them.
fn apart<K: Ord + Copy>(
    alloc: Global,
    pairs: &[(K, Option<u32>)],
    numbers: &BTreeMap<K, Option<u32>>,
) -> Result<Vec<K>, AllocError>
    ensures { IfOk result (λ v. v.items
        ≡ map (λ e. e.0) (filter (λ e. differs (get K.cmp numbers.now e.0) e.1) pairs.now)) }
{
    pairs
        .iter()
        .copied()
        .filter(|e| differs(numbers.get(&e.0), e.1))
        .map(|e| e.0)
        .collect(alloc)
}

/// The keys that stand with two different numbers.
pub fn split<K: Ord + Copy>(
    alloc: Global,
    pairs: &[(K, Option<u32>)],
) -> Result<BTreeSet<K>, AllocError>
    requires { IsExact K.cmp }
    ensures { IfOk result
        (λ split. (k : K) → IsTrue (contains K.cmp split k) ↔ IsSplit pairs.now k) }
{
    let numbers = numbers(alloc, pairs)?;
    let apart = apart(alloc, pairs, &numbers)?;
    apart.iter().copied().collect(alloc)
}
