//! Tables at the end of a text.

ghost use Rattle.std.specs.Prelude.{◌≡◌, ◌++◌, OnOk, flat_map};
ghost use Rattle.cn_report.specs.Answers.{row_line, table_text};

use crate::choice::put_choice;
use crate::names::put_name;
use cn_base::TableRow;
use cn_core::DeviceTable;
use cn_net::Net;
use cn_text::put_prefix;
use std::alloc::{AllocError, Global};

fn put_row(alloc: Global, text: &mut Vec<u8>, net: &Net, row: &TableRow) -> Result<(), AllocError>
    ensures { OnOk result (text.new.items ≡ text.old.items ++ row_line net.now row.now) }
{
    put_prefix(alloc, text, &row.prefix)?;
    text.extend_from_slice(b" ")?;
    put_choice(alloc, text, net, &row.choice)?;
    text.extend_from_slice(b"\n")
}

fn put_rows(
    alloc: Global,
    text: &mut Vec<u8>,
    net: &Net,
    rows: &[TableRow],
) -> Result<(), AllocError>
    ensures { OnOk result
        (text.new.items ≡ text.old.items ++ flat_map (row_line net.now) rows.now) }
{
    for row in rows {
        put_row(alloc, text, net, row)?;
    }
    Ok(())
}

/// The line of a device, and its rows.
fn put_table(
    alloc: Global,
    text: &mut Vec<u8>,
    net: &Net,
    held: &DeviceTable,
) -> Result<(), AllocError>
    ensures { OnOk result (text.new.items ≡ text.old.items ++ table_text net.now held.now) }
{
    text.extend_from_slice(b"table ")?;
    put_name(text, net, held.device)?;
    text.extend_from_slice(b"\n")?;
    put_rows(alloc, text, net, held.table.items())
}

/// The tables of devices.
pub fn put_tables(
    alloc: Global,
    text: &mut Vec<u8>,
    net: &Net,
    tables: &[DeviceTable],
) -> Result<(), AllocError>
    ensures { OnOk result
        (text.new.items ≡ text.old.items ++ flat_map (table_text net.now) tables.now) }
{
    for held in tables {
        put_table(alloc, text, net, held)?;
    }
    Ok(())
}
