//! What a pull answers: the tables of a quiet state, or what is pending.

ghost use Rattle.std.specs.Prelude.{◌≡◌, All, IfOk};
ghost use Rattle.cn_base.specs.Table.{AscendsByPrefix, choice_for};
ghost use Rattle.cn_base.specs.Cidr.{Cidr};
ghost use Rattle.cn_core.specs.Laws.{held_in};
ghost use Rattle.cn_core.specs.Stored.{held_under, stands_for};
ghost use Rattle.cn_core.specs.Tables.{AreTables, DevicesAscend};
ghost use Rattle.cn_net.specs.Network.{IsDevice};
ghost use Rattle.std.specs.FinMap as fin;

use crate::best::Best;
use crate::engine::Engine;
use cn_base::{Choice, DeviceId, Standing, Table, TableRow};
use cn_net::DeviceSet;
use cn_pool::Pool;
use cn_rib::PrefixMap;
use std::alloc::{AllocError, Global};
use std::marker::Model;

/// A device and what it holds.
#[derive(Debug, Drop)]
pub struct DeviceTable {
    pub device: DeviceId,
    pub table: Table,
}

impl DeviceTable {
    /// An equal table of the device.
    pub fn copy(&self, alloc: Global) -> Result<DeviceTable, AllocError>
        ensures { IfOk result (λ table. table ≡ self.now) }
    {
        Ok(DeviceTable {
            device: self.device,
            table: self.table.copy(alloc)?,
        })
    }
}

/// The tables of devices, which ascend by number. Contracts see the list.
#[derive(Debug, Drop)]
pub struct Tables {
    tables: Vec<DeviceTable>,
}

impl Model for Tables {
    ghost use Rattle.std.specs.Prelude.{List};
    ghost use Rattle.cn_core.specs.Tables.{DevicesAscend};
    ghost use Rattle.cn_core.specs.declared.pull.DeviceTable.{DeviceTable};

    ghost Value = { List DeviceTable };

    ghost view = { λ t. t.tables.items };

    ghost invariant = { λ t. DevicesAscend t.tables.items };
}

impl Tables {
    /// The list of these tables. It takes no memory.
    pub fn make(tables: Vec<DeviceTable>) -> Tables
        requires { DevicesAscend tables.items }
        ensures { result ≡ tables.items }
    {
        Tables { tables }
    }

    /// The tables, in the order of the devices.
    pub fn items(&self) -> &[DeviceTable]
        ensures same { result.now ≡ self.now }
        ensures ascending { DevicesAscend self.now }
    {
        self.tables.as_slice()
    }

    /// Equal tables.
    pub fn copy(&self, alloc: Global) -> Result<Tables, AllocError>
        ensures { IfOk result (λ tables. tables ≡ self.now) }
    {
        let mut tables = Vec::with_capacity(alloc, self.tables.len())?;
        for table in &self.tables {
            tables.push(table.copy(alloc)?)?;
        }
        Ok(Tables { tables })
    }
}

/// What a pull answers: the table of each emulated device where the state is quiet, and what is
/// pending first where it isn't.
#[derive(Debug, Drop)]
pub enum Pull {
    Quiet { tables: Tables },
    Again { standing: Standing },
}

impl Pull {
    /// An equal answer.
    pub fn copy(&self, alloc: Global) -> Result<Pull, AllocError>
        ensures { IfOk result (λ pull. pull ≡ self.now) }
    {
        match self {
            Pull::Quiet { tables } => Ok(Pull::Quiet {
                tables: tables.copy(alloc)?,
            }),
            Pull::Again { standing } => Ok(Pull::Again {
                standing: *standing,
            }),
        }
    }
}

// What a device holds, as a table.
fn table(alloc: Global, pool: &Pool, best: &PrefixMap<Best>) -> Result<Table, AllocError>
    ensures { IfOk result (λ table. AscendsByPrefix table
        × ((p : Cidr) → choice_for table p ≡ fin.get (held_under pool.now best.now) p)) }
{
    let mut rows = Vec::with_capacity(alloc, best.len())?;
    for row in best.rows() {
        let Best { from, path, origin } = row.value;
        let path = pool.path(path).copy(alloc)?;
        rows.push(TableRow {
            prefix: row.prefix,
            choice: Choice { from, path, origin },
        })?;
    }
    Ok(Table::make(rows))
}

impl Engine {
    /// The tables of these devices.
    pub fn tables(&self, alloc: Global, devices: &DeviceSet) -> Result<Tables, AllocError>
        requires { All (IsDevice self.now.now.net) devices.now }
        ensures { IfOk result
            (λ tables. AreTables devices.now (held_in (stands_for self.now)) tables) }
    {
        let mut tables = Vec::with_capacity(alloc, devices.len())?;
        for device in devices.items() {
            let rib = self.rib(*device);
            tables.push(DeviceTable {
                device: *device,
                table: table(alloc, &self.pool, &rib.loc_rib)?,
            })?;
        }
        Ok(Tables::make(tables))
    }
}
