//! The network that a change gives.

ghost use Rattle.std.specs.Prelude.{◌≡◌, IfOk};
ghost use Rattle.cn_change.specs.Journal.{IsPossible, TellsFirstFault, changed, fault_of};

use crate::change::{Change, ChangeAnswer};
use crate::faults::fault;
use cn_net::{DeviceSet, Net};
use std::alloc::{AllocError, Global};

/// The network after a change that can be made.
fn network_after(alloc: Global, net: &Net, change: &Change) -> Result<Net, AllocError>
    requires { IsPossible net.now change.now }
    ensures { IfOk result (λ after. after ≡ changed net.now change.now) }
{
    let net = net.copy(alloc)?;
    match change {
        Change::Reload { device, body } => net.with_body(alloc, *device, body.copy(alloc)?),
        Change::Cut { a, b } => Ok(net.with_link(*a, *b, false)),
        Change::Restore { a, b } => Ok(net.with_link(*a, *b, true)),
        Change::Reset { .. } => Ok(net),
    }
}

/// The network that a change gives, beside the one that is there.
pub fn applied(
    alloc: Global,
    net: &Net,
    emulated: &DeviceSet,
    change: &Change,
) -> Result<Net, ChangeAnswer>
    ensures ok { IfOk result (λ after. after ≡ changed net.now change.now) }
    ensures first { TellsFirstFault (fault_of net.now emulated.now change.now) result }
{
    // That the network is valid stands in its type, and is what makes a fault's absence enough.
    net.valid();
    match fault(alloc, net, emulated, change)? {
        Some(fault) => Err(ChangeAnswer::Fault(fault)),
        None => Ok(network_after(alloc, net, change)?),
    }
}
