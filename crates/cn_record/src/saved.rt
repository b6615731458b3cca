//! Rows of records, as they are saved.

ghost use Rattle.std.specs.Prelude.{◌≡◌, ℕ, IfOk, IfErr, MatchOption, OnOk};
ghost use Rattle.std.specs.List.Sorted.{IsPermutation};
ghost use Rattle.std.specs.Option.{option_copied};
ghost use Rattle.cn_base.specs.Cidr.{Cidr};
ghost use Rattle.cn_base.specs.declared.ids.DeviceId.{DeviceId as DeviceNumber};
ghost use Rattle.cn_record.specs.Repeats.{HasNoTie, IsFirstTie};
ghost use Rattle.cn_record.specs.Rows.{AscendsByPair, IsFirstRepeat, IsRepeated, is_row, row_for};

use cn_base::{Choice, DeviceId, Prefix};
use std::alloc::{AllocError, Global};
use std::marker::Model;

/// What a device held for a prefix when the network was recorded.
#[derive(Debug, Drop)]
pub struct Row {
    pub device: DeviceId,
    pub prefix: Prefix,
    pub choice: Choice,
}

impl Row {
    /// An equal row.
    pub fn copy(&self, alloc: Global) -> Result<Row, AllocError>
        ensures { IfOk result (λ row. row ≡ self.now) }
    {
        Ok(Row {
            device: self.device,
            prefix: self.prefix,
            choice: self.choice.copy(alloc)?,
        })
    }
}

/// Rows by device, then by prefix, at most one for each pair. Contracts see the list of the rows.
#[derive(Debug, Drop)]
pub struct Saved {
    rows: Vec<Row>,
}

impl Model for Saved {
    ghost use Rattle.std.specs.Prelude.{List};
    ghost use Rattle.cn_record.specs.Repeats.{HasNoTie, IsFirstTie};
    ghost use Rattle.cn_record.specs.Rows.{AscendsByPair};
    ghost use Rattle.cn_record.specs.declared.saved.Row.{Row};

    ghost Value = { List Row };

    ghost view = { λ s. s.rows.items };

    ghost invariant = { λ s. AscendsByPair s.rows.items };
}

/// A device and a prefix of which there are two rows.
#[derive(Clone, Copy, Debug, PartialEq, Eq)]
pub struct SavedFault {
    pub device: DeviceId,
    pub prefix: Prefix,
}

/// Holds where the two rows have one device and prefix.
fn is_same_pair(row: &Row, next: &Row) -> bool
    ensures { result ≡ is_row row.now.device row.now.prefix next.now }
{
    next.device == row.device && next.prefix == row.prefix
}

/// The place of the first row that has the device and the prefix of the row before it.
fn first_repeat(rows: &[Row]) -> Option<usize>
    ensures { MatchOption result (HasNoTie rows.now) (IsFirstTie rows.now) }
{
    for place in 1..rows.len() {
        if is_same_pair(&rows[place - 1], &rows[place]) {
            return Some(place);
        }
    }
    None
}

impl Saved {
    /// These rows, in order. A fault comes exactly where two of them have one device and prefix,
    /// and names the least such pair. The rows are sorted in place, and it takes no memory.
    pub fn make(rows: Vec<Row>) -> Result<Saved, SavedFault>
        ensures rows { IfOk result (IsPermutation rows.items) }
        ensures once { OnOk result ((d : DeviceNumber) (p : Cidr) → IsRepeated rows.items d p → ⊥) }
        ensures fault { IfErr result (λ f. IsFirstRepeat rows.items f.device f.prefix) }
    {
        let mut rows = rows;
        rows.sort_unstable_by_key(|row| (row.device, row.prefix));
        match first_repeat(&rows) {
            Some(place) => Err(SavedFault {
                device: rows[place].device,
                prefix: rows[place].prefix,
            }),
            None => Ok(Saved { rows }),
        }
    }

    /// The rows, by device, then by prefix.
    pub fn rows(&self) -> &[Row]
        ensures same { result.now ≡ self.now }
        ensures ascending { AscendsByPair self.now }
    {
        self.rows.as_slice()
    }

    /// What the row of a device and a prefix says. None comes exactly where there is no such row.
    pub fn find(&self, device: DeviceId, prefix: &Prefix) -> Option<&Choice>
        ensures { option_copied result ≡ row_for self.now device prefix.now }
    {
        let found = self
            .rows
            .binary_search_by_key(&(device, *prefix), |row| (row.device, row.prefix));
        match found {
            Ok(place) => Some(&self.rows[place].choice),
            Err(_) => None,
        }
    }

    /// Equal rows.
    pub fn copy(&self, alloc: Global) -> Result<Saved, AllocError>
        ensures { IfOk result (λ saved. saved ≡ self.now) }
    {
        let mut rows = Vec::with_capacity(alloc, self.rows.len())?;
        for row in &self.rows {
            rows.push(row.copy(alloc)?)?;
        }
        Ok(Saved { rows })
    }
}
