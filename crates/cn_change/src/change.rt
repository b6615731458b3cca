//! Changes of a network, and why one isn't made.

ghost use Rattle.std.specs.Prelude.{◌≡◌, IfOk};
ghost use Rattle.cn_change.specs.declared.change.ChangeAnswer.TheVariants.{Memory};

use cn_base::{DeviceId, Prefix};
use cn_net::{Body, What};
use std::alloc::{AllocError, Global};

/// A change of a network that is emulated. Devices are told by their numbers, and the two ends of a
/// link in either order.
#[derive(Debug, Drop)]
pub enum Change {
    /// The device has another AS number, other own prefixes and other policies. Its sessions stand.
    Reload { device: DeviceId, body: Body },
    /// The link goes down.
    Cut { a: DeviceId, b: DeviceId },
    /// The link comes up.
    Restore { a: DeviceId, b: DeviceId },
    /// The session over the link begins anew; the network is as it was.
    Reset { a: DeviceId, b: DeviceId },
}

/// Why a change isn't made. The faults are looked for in the order in which they stand here
/// (`fault_of`, `specs/Journal.antt`).
#[derive(Clone, Copy, Debug)]
pub enum ChangeFault {
    /// No device has this number: that of the device to be reloaded, or else the first of its
    /// peers without a device; of a link the first end, or else the second.
    NoDevice { device: DeviceId },
    /// The device to be reloaded isn't emulated.
    NotEmulated { device: DeviceId },
    /// The two devices aren't linked.
    NoLink { a: DeviceId, b: DeviceId },
    /// Neither end of the link is emulated.
    LinkOutside { a: DeviceId, b: DeviceId },
    /// The link to be cut is down.
    AlreadyDown { a: DeviceId, b: DeviceId },
    /// The link to be restored is up.
    AlreadyUp { a: DeviceId, b: DeviceId },
    /// The link whose session is to be reset is down.
    IsDown { a: DeviceId, b: DeviceId },
    /// The reloaded device would have the AS number of this one, the least of those that are linked
    /// to it and have that number.
    SameAs { peer: DeviceId },
    /// The new own prefixes have this one twice, and up to its second place no other.
    DuplicateOwn { prefix: Prefix },
    /// The new policies have this peer twice, and up to its second place no other.
    DuplicatePeer { peer: DeviceId },
    /// After the reload there would be more than 16,384 distinct prefixes, or else more than
    /// 16,777,216 rows, and how many there would be.
    TooMany { what: What, count: u64 },
}

/// Why a change gave no network: its first fault, or want of memory.
#[derive(Clone, Copy, Debug)]
pub enum ChangeAnswer {
    Fault(ChangeFault),
    Memory,
}

impl From<AllocError> for ChangeAnswer {
    ghost from_gives = { λ _ e. e ≡ Memory };

    fn from(_: AllocError) -> ChangeAnswer {
        ChangeAnswer::Memory
    }
}

impl Change {
    /// An equal change. Err comes only for want of memory.
    pub fn copy(&self, alloc: Global) -> Result<Change, AllocError>
        ensures { IfOk result (λ change. change ≡ self.now) }
    {
        match self {
            Change::Reload { device, body } => Ok(Change::Reload {
                device: *device,
                body: body.copy(alloc)?,
            }),
            Change::Cut { a, b } => Ok(Change::Cut { a: *a, b: *b }),
            Change::Restore { a, b } => Ok(Change::Restore { a: *a, b: *b }),
            Change::Reset { a, b } => Ok(Change::Reset { a: *a, b: *b }),
        }
    }
}
