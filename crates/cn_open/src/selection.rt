//! The devices that a plan chooses: the names of its selection are looked up.

ghost use Rattle.std.specs.Prelude.{IfOk, All};
ghost use Rattle.cn_net.specs.Drafted.{draft_of};
ghost use Rattle.cn_net.specs.Islands.{IsAscending};
ghost use Rattle.cn_net.specs.Network.{IsDevice};
ghost use Rattle.cn_open.specs.Emulation.{Selects};
ghost use Rattle.cn_open.specs.Faults.{first_unknown, selection_names};
ghost use Rattle.cn_open.specs.Selection.{IsSelectionOf, IsWithin};
ghost use Rattle.cn_open.specs.Steps.{TellsUnknown};

use crate::fault::NameAnswer;
use crate::rows::device_of;
use cn_base::{DeviceId, Name};
use cn_net::{DeviceSet, Net};
use cn_plan::Selection;
use cn_readnet::NameSelection;
use std::alloc::Global;

/// The devices that bear these names.
fn devices_of(alloc: Global, net: &Net, names: &[Name]) -> Result<DeviceSet, NameAnswer>
    ensures devices { IfOk result
        (λ set. Selects net.now names.now set × All (IsDevice net.now) set × IsAscending set) }
    ensures unknown { TellsUnknown (first_unknown (draft_of net.now) names.now) result }
{
    net.valid();
    let mut devices = Vec::new(alloc);
    for name in names {
        let device = device_of(alloc, net, name)?;
        devices.push(device)?;
    }
    let set = DeviceSet::make(net, devices);
    // This tells what the type keeps.
    let _ = set.items();
    Ok(set)
}

/// The devices that a plan names, to emulate or to grow from.
pub fn selection_of(
    alloc: Global,
    net: &Net,
    selection: &NameSelection,
) -> Result<Selection, NameAnswer>
    ensures devices { IfOk result
        (λ s. IsSelectionOf net.now selection.now s × IsWithin net.now s) }
    ensures unknown { TellsUnknown
        (first_unknown (draft_of net.now) (selection_names selection.now)) result }
{
    match selection {
        NameSelection::Must(names) => {
            Ok(Selection::Must(devices_of(alloc, net, names.items())?))
        }
        NameSelection::Emulate(names) => {
            Ok(Selection::Emulate(devices_of(alloc, net, names.items())?))
        }
    }
}
