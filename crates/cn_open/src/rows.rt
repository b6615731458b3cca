//! The rows of a plan's records: the names in them are looked up.

ghost use Rattle.std.specs.Prelude.{◌≡◌, IfOk, [], ◌∷◌, option_copied};
ghost use Rattle.std.specs.List.{flat_map};
ghost use Rattle.cn_net.specs.Drafted.{draft_of};
ghost use Rattle.cn_net.specs.Network.{IsDevice, name_of};
ghost use Rattle.cn_open.specs.Emulation.{ReadAs};
ghost use Rattle.cn_open.specs.Faults.{first_unknown, row_names, sender_names};
ghost use Rattle.cn_open.specs.Selection.{IsSenderOf, ReadsAs};
ghost use Rattle.cn_open.specs.Steps.{TellsUnknown};

use crate::fault::NameAnswer;
use cn_base::{Choice, DeviceId, Name};
use cn_net::Net;
use cn_readnet::RowDraft;
use cn_record::Row;
use std::alloc::Global;

/// The device that bears a name.
pub fn device_of(alloc: Global, net: &Net, name: &Name) -> Result<DeviceId, NameAnswer>
    ensures device { IfOk result (λ d. IsDevice net.now d × (name_of net.now d ≡ name.now)) }
    ensures unknown { TellsUnknown (first_unknown (draft_of net.now) (name.now ∷ [])) result }
{
    match net.find(name.text()) {
        Some(device) => Ok(device),
        None => Err(NameAnswer::Unknown(name.copy(alloc)?)),
    }
}

/// The device that a row's route came from, if one is named.
fn sender_of(alloc: Global, net: &Net, from: Option<&Name>) -> Result<Option<DeviceId>, NameAnswer>
    ensures sender { IfOk result (IsSenderOf net.now (option_copied from.entry)) }
    ensures unknown { TellsUnknown
        (first_unknown (draft_of net.now) (sender_names (option_copied from.entry))) result }
{
    match from {
        None => Ok(None),
        Some(name) => Ok(Some(device_of(alloc, net, name)?)),
    }
}

/// The row that is written so.
fn row_of(alloc: Global, net: &Net, draft: &RowDraft) -> Result<Row, NameAnswer>
    ensures row { IfOk result (ReadsAs net.now draft.now) }
    ensures unknown { TellsUnknown (first_unknown (draft_of net.now) (row_names draft.now)) result }
{
    let device = device_of(alloc, net, &draft.device)?;
    let from = sender_of(alloc, net, draft.from.as_ref())?;
    let path = draft.path.copy(alloc)?;
    Ok(Row {
        device,
        prefix: draft.prefix,
        choice: Choice {
            from,
            path,
            origin: draft.origin,
        },
    })
}

/// The rows that are written so.
pub fn rows_of(alloc: Global, net: &Net, drafts: &[RowDraft]) -> Result<Vec<Row>, NameAnswer>
    ensures rows { IfOk result (λ v. ReadAs net.now drafts.now v.items) }
    ensures unknown { TellsUnknown
        (first_unknown (draft_of net.now) (flat_map row_names drafts.now)) result }
{
    let mut rows = Vec::with_capacity(alloc, drafts.len())?;
    for draft in drafts {
        let row = row_of(alloc, net, draft)?;
        rows.push(row)?;
    }
    Ok(rows)
}
