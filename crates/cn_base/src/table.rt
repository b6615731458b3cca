//! Tables of what a device holds, by prefix.

ghost use Rattle.std.specs.Prelude.{◌≡◌, ◌↔◌, IfOk, IsTrue};
ghost use Rattle.std.specs.Option.{option_copied};
ghost use Rattle.cn_base.specs.Table.{AscendsByPrefix, choice_for};

use crate::prefix::Prefix;
use crate::route::Choice;
use std::alloc::{AllocError, Global};
use std::marker::Model;

/// A prefix and what is held for it.
#[derive(Debug, Drop)]
pub struct TableRow {
    pub prefix: Prefix,
    pub choice: Choice,
}

/// Rows whose prefixes ascend strictly, by the bits and then by the length. Contracts see the list
/// of the rows.
#[derive(Debug, Drop)]
pub struct Table {
    rows: Vec<TableRow>,
}

impl Model for Table {
    ghost use Rattle.std.specs.Prelude.{List};
    ghost use Rattle.cn_base.specs.Table.{AscendsByPrefix};
    ghost use Rattle.cn_base.specs.declared.table.TableRow.{TableRow};

    ghost Value = { List TableRow };

    ghost view = { λ t. t.rows.items };

    ghost invariant = { λ t. AscendsByPrefix t.rows.items };
}

impl TableRow {
    /// An equal row.
    pub fn copy(&self, alloc: Global) -> Result<TableRow, AllocError>
        ensures { IfOk result (λ row. row ≡ self.now) }
    {
        Ok(TableRow {
            prefix: self.prefix,
            choice: self.choice.copy(alloc)?,
        })
    }
}

impl Table {
    /// Holds where the prefixes ascend strictly: the condition of `make`.
    pub fn ascends(rows: &[TableRow]) -> bool
        ensures { IsTrue result ↔ AscendsByPrefix rows.now }
    {
        rows.is_sorted_by(|row, next| row.prefix < next.prefix)
    }

    /// The table of these rows. It takes no memory.
    pub fn make(rows: Vec<TableRow>) -> Table
        requires { AscendsByPrefix rows.items }
        ensures { result ≡ rows.items }
    {
        Table { rows }
    }

    /// The rows, in order.
    pub fn items(&self) -> &[TableRow]
        ensures same { result.now ≡ self.now }
        ensures ascending { AscendsByPrefix self.now }
    {
        self.rows.as_slice()
    }

    /// What the table has for a prefix. None comes exactly where the prefix isn't in it.
    pub fn get(&self, prefix: &Prefix) -> Option<&Choice>
        ensures { option_copied result ≡ choice_for self.now prefix.now }
    {
        match self.rows.binary_search_by_key(prefix, |row| row.prefix) {
            Ok(at) => Some(&self.rows[at].choice),
            Err(_) => None,
        }
    }

    /// An equal table.
    pub fn copy(&self, alloc: Global) -> Result<Table, AllocError>
        ensures { IfOk result (λ table. table ≡ self.now) }
    {
        let mut rows = Vec::with_capacity(alloc, self.rows.len())?;
        for row in &self.rows {
            rows.push(row.copy(alloc)?)?;
        }
        Ok(Table { rows })
    }
}
