//! Paths of AS numbers (RFC 4271, 5.1.2), which are of four octets (RFC 6793).

ghost use Rattle.std.specs.Prelude.{◌≡◌, ◌<◌, ◌≤◌, ◌+◌, ◌++◌, [], MatchOption, IfOk, length, slice_get, replicate};
ghost use Rattle.std.specs.Cmp.{partial_equiv_from_equiv};
ghost use Rattle.std.specs.Hash as fed;
ghost use Rattle.cn_base.specs.Paths.{holds_asn};
ghost use Rattle.cn_base.specs.SamePath.{same_path, same_path_equiv, same_path_Alike};

use crate::ids::Asn;
use std::alloc::{AllocError, Global};
use std::hash::{Hash, Hasher};
use std::marker::Model;

/// The systems that a route went through, the last one first: at most 255 numbers, repeats counted.
/// Contracts see the list of the numbers. Paths are equal where their numbers are, in their order.
#[derive(Debug, Drop)]
pub struct AsPath {
    numbers: Vec<Asn>,
}

impl Model for AsPath {
    ghost use Rattle.std.specs.Prelude.{List, length, ◌≤◌};
    ghost use Rattle.cn_base.specs.declared.ids.Asn.{Asn};

    ghost Value = { List Asn };

    ghost view = { λ p. p.numbers.items };

    ghost invariant = { λ p. length p.numbers.items ≤ 255 };
}

impl PartialEq for AsPath {
    ghost eq = { same_path };

    ghost laws = { partial_equiv_from_equiv same_path_equiv };

    fn eq(&self, other: &AsPath) -> bool {
        self.numbers == other.numbers
    }
}

impl Eq for AsPath {
    ghost laws = { same_path_equiv };
}

impl Hash for AsPath {
    ghost hash_input = { λ p. fed.slice (λ n. fed.u32 n.0) p };

    ghost respects_eq = { same_path_Alike.fed };

    fn hash<H: Hasher>(&self, state: &mut H) {
        self.numbers.hash(state);
    }
}

impl AsPath {
    /// The path with no number. It takes no memory.
    pub fn empty(alloc: Global) -> AsPath
        ensures { result ≡ [] }
    {
        AsPath {
            numbers: Vec::new(alloc),
        }
    }

    /// The path of these numbers. None comes exactly where there are more than 255. It takes no
    /// memory.
    pub fn make(numbers: Vec<Asn>) -> Option<AsPath>
        ensures { MatchOption result
            (255 < length numbers.items)
            (λ path. (path ≡ numbers.items) × (length path ≤ 255)) }
    {
        if numbers.len() > 255 {
            return None;
        }
        Some(AsPath { numbers })
    }

    /// How many numbers there are.
    pub fn len(&self) -> u8
        ensures { result ≡ length self.now }
    {
        self.numbers.len() as u8
    }

    /// The number at a place, from 0. None comes exactly where the place is at or past the length.
    pub fn get(&self, i: u8) -> Option<Asn>
        ensures { result ≡ slice_get self.now i }
    {
        self.numbers.get(usize::from(i)).copied()
    }

    /// The numbers, in order.
    pub fn items(&self) -> &[Asn]
        ensures same { result.now ≡ self.now }
        ensures short { length result.now ≤ 255 }
    {
        self.numbers.as_slice()
    }

    /// Holds where the number stands in the path.
    pub fn contains(&self, asn: Asn) -> bool
        ensures { result ≡ holds_asn self.now asn }
    {
        self.numbers
            .iter()
            .fold(false, |found, number| found | (*number == asn))
    }

    /// An equal path.
    pub fn copy(&self, alloc: Global) -> Result<AsPath, AllocError>
        ensures { IfOk result (λ path. path ≡ self.now) }
    {
        let numbers = Vec::from_slice(alloc, &self.numbers)?;
        Ok(AsPath { numbers })
    }

    /// The path with `times` copies of a number in front (RFC 4271, 5.1.2 b). `Ok(None)` comes
    /// exactly where that has more than 255 numbers.
    pub fn extended(&self, alloc: Global, asn: Asn, times: u8) -> Result<Option<AsPath>, AllocError>
        ensures { IfOk result (λ made. MatchOption made
            (255 < times + length self.now)
            (λ path. (path ≡ replicate times asn ++ self.now) × (length path ≤ 255))) }
    {
        if self.numbers.len() > 255 - usize::from(times) {
            return Ok(None);
        }
        let mut numbers = Vec::with_capacity(alloc, usize::from(times) + self.numbers.len())?;
        for _ in 0..times {
            numbers.push(asn)?;
        }
        numbers.extend_from_slice(&self.numbers)?;
        Ok(Some(AsPath { numbers }))
    }
}
