//! The devices to emulate.

ghost use Rattle.std.specs.Prelude.{◌≡◌, All, IfOk};
ghost use Rattle.cn_net.specs.Network.{IsDevice};
ghost use Rattle.cn_plan.specs.Selected.{IsSelected, named};

use cn_grow::grow;
use cn_net::{DeviceSet, Net};
use std::alloc::{AllocError, Global};

/// What is selected of a network: the devices that have to be emulated, from which the set grows;
/// or exactly those that are.
#[derive(Debug, Drop)]
pub enum Selection {
    Must(DeviceSet),
    Emulate(DeviceSet),
}

impl Selection {
    /// An equal selection.
    pub fn copy(&self, alloc: Global) -> Result<Selection, AllocError>
        ensures { IfOk result (λ selection. selection ≡ self.now) }
    {
        match self {
            Selection::Must(must) => Ok(Selection::Must(must.copy(alloc)?)),
            Selection::Emulate(emulated) => Ok(Selection::Emulate(emulated.copy(alloc)?)),
        }
    }
}

/// The devices to emulate. Those that are named are devices of the network, and so are these. Err
/// comes only for want of memory.
pub fn selected(alloc: Global, net: &Net, selection: Selection) -> Result<DeviceSet, AllocError>
    requires { All (IsDevice net.now) (named selection) }
    ensures selected { IfOk result (IsSelected net.now selection) }
    ensures within { IfOk result (All (IsDevice net.now)) }
{
    match selection {
        Selection::Must(must) => {
            let set = grow(alloc, net, &must)?;
            // This tells what the type keeps.
            let _ = set.items();
            Ok(set)
        }
        Selection::Emulate(emulated) => Ok(emulated),
    }
}
