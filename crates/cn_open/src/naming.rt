//! The stages from a plan as it is read to one whose names are known: its network, the names of its
//! selection, those of its rows, and no row twice.

ghost use Rattle.std.specs.Prelude.{◌≡◌, ◌≤◌, IfErr, IfOk, None, OnOk, length};
ghost use Rattle.cn_net.specs.Drafted.{draft_of};
ghost use Rattle.cn_open.specs.Depth.{named};
ghost use Rattle.cn_open.specs.Emulation.{ReadAs, plan_limit};
ghost use Rattle.cn_open.specs.Faults.{IsKnown, first_unknown, selection_names};
ghost use Rattle.cn_open.specs.Named.{AreRowsOf, IsNamed, IsNamedAs};
ghost use Rattle.cn_open.specs.OpenFaults.{IsAnswerOf, IsOpenFault};
ghost use Rattle.cn_open.specs.Selection.{IsSelectionOf, IsWithin};
ghost use Rattle.cn_open.specs.Steps.{StopsAt};

use crate::fault::{NameAnswer, OpenAnswer, OpenFault, PlanFault, StageAnswer};
use crate::rows::rows_of;
use crate::selection::selection_of;
use crate::text::plan_text;
use cn_net::{Draft, Net, NetAnswer};
use cn_plan::Selection;
use cn_readnet::NetText;
use cn_record::{Row, Saved, SavedFault};
use std::alloc::Global;

/// A plan whose names are known: its network, the devices that it selects, its rows, and the draft
/// of the network.
#[derive(Debug, Drop)]
pub struct Named {
    pub net: Net,
    pub selection: Selection,
    pub saved: Saved,
    pub draft: Draft,
}

/// The network of a plan.
fn network_of(alloc: Global, text: &NetText) -> Result<Net, StageAnswer>
    ensures network { IfOk result (λ net. draft_of net ≡ text.now.draft) }
    ensures fault { IfErr result (StopsAt text.now) }
{
    match Net::make(alloc, &text.draft) {
        Ok(net) => Ok(net),
        Err(NetAnswer::Fault(fault)) => Err(StageAnswer::Fault(PlanFault::Net(fault))),
        Err(NetAnswer::Memory) => Err(StageAnswer::Memory),
    }
}

/// The devices that a plan selects of its network.
fn selected(alloc: Global, net: &Net, text: &NetText) -> Result<Selection, StageAnswer>
    requires { draft_of net.now ≡ text.now.draft }
    ensures devices { IfOk result
        (λ s. IsSelectionOf net.now text.now.selection s × IsWithin net.now s) }
    ensures known { OnOk result
        (first_unknown (draft_of net.now) (selection_names text.now.selection) ≡ None) }
    ensures fault { IfErr result (StopsAt text.now) }
{
    net.valid();
    match selection_of(alloc, net, &text.selection) {
        Ok(selection) => Ok(selection),
        Err(NameAnswer::Unknown(name)) => Err(StageAnswer::Fault(PlanFault::Unknown(name))),
        Err(NameAnswer::Memory) => Err(StageAnswer::Memory),
    }
}

/// The rows of a plan whose selection is known, with a device for each name.
fn rows_named(alloc: Global, net: &Net, text: &NetText) -> Result<Vec<Row>, StageAnswer>
    requires drafted { draft_of net.now ≡ text.now.draft }
    requires known { first_unknown (draft_of net.now) (selection_names text.now.selection) ≡ None }
    ensures rows { IfOk result (λ rows. ReadAs net.now text.now.rows rows.items) }
    ensures known { OnOk result (IsKnown text.now) }
    ensures fault { IfErr result (StopsAt text.now) }
{
    net.valid();
    match rows_of(alloc, net, text.rows.items()) {
        Ok(rows) => Ok(rows),
        Err(NameAnswer::Unknown(name)) => Err(StageAnswer::Fault(PlanFault::Unknown(name))),
        Err(NameAnswer::Memory) => Err(StageAnswer::Memory),
    }
}

/// The rows of a plan whose selection is known, each once.
fn recorded(alloc: Global, net: &Net, text: &NetText) -> Result<Saved, StageAnswer>
    requires drafted { draft_of net.now ≡ text.now.draft }
    requires known { first_unknown (draft_of net.now) (selection_names text.now.selection) ≡ None }
    ensures rows { IfOk result (AreRowsOf net.now text.now) }
    ensures fault { IfErr result (StopsAt text.now) }
{
    net.valid();
    let rows = rows_named(alloc, net, text)?;
    match Saved::make(rows) {
        Ok(saved) => {
            // This tells what the type keeps.
            let _ = saved.rows();
            Ok(saved)
        }
        Err(repeat) => {
            let SavedFault { device, prefix } = repeat;
            Err(StageAnswer::Fault(PlanFault::Repeat { device, prefix }))
        }
    }
}

/// The network of a plan, the devices that it selects, and its rows.
fn parts_of(alloc: Global, text: &NetText) -> Result<(Net, Selection, Saved), StageAnswer>
    ensures parts { IfOk result (λ parts. IsNamedAs text.now parts.0 parts.1 parts.2) }
    ensures fault { IfErr result (StopsAt text.now) }
{
    let net = network_of(alloc, text)?;
    net.valid();
    let selection = selected(alloc, &net, text)?;
    let saved = recorded(alloc, &net, text)?;
    Ok((net, selection, saved))
}

/// What a text of a plan names: the network is made, each name is a device's, and no row is there
/// twice. A fault is the first that keeps the plan from that.
pub fn name_plan(alloc: Global, bytes: &[u8]) -> Result<Named, OpenAnswer>
    requires { length bytes.now ≤ plan_limit }
    ensures named { IfOk result (IsNamed bytes.now) }
    ensures fault { IfErr result (IsAnswerOf (IsOpenFault named bytes.now)) }
{
    let text = plan_text(alloc, bytes)?;
    match parts_of(alloc, &text) {
        Ok((net, selection, saved)) => Ok(Named {
            net,
            selection,
            saved,
            draft: text.draft,
        }),
        Err(StageAnswer::Fault(fault)) => {
            let draft = text.draft;
            Err(OpenAnswer::Fault(OpenFault::Net { draft, fault }))
        }
        Err(StageAnswer::Memory) => Err(OpenAnswer::Memory),
    }
}
