//! Why a draft stands for no network.

ghost use Rattle.std.specs.Prelude.{◌≡◌};
ghost use Rattle.cn_net.specs.declared.fault.NetAnswer.TheVariants.{Memory};

use cn_base::{DeviceId, Name, Prefix};
use std::alloc::{AllocError, AllocFailed};

/// What there is too much of: in a draft devices, links or distinct prefixes; of what is emulated
/// devices, or rows, which are the kept directed sessions times the distinct prefixes. A directed
/// session is kept where its receiver is emulated.
#[derive(Clone, Copy, Debug, PartialEq, Eq)]
pub enum What {
    Devices,
    Links,
    Prefixes,
    Emulated,
    Rows,
}

/// A fault of a draft. Device numbers are places in the draft, from 0.
#[derive(Debug, Drop)]
pub enum NetFault {
    /// More than 4,096 devices, 16,384 links or 16,384 distinct prefixes, and how many there are.
    TooMany { what: What, count: u64 },
    /// Two devices have this name.
    DuplicateName { name: Name },
    /// `b` has the router id of `a`, which stands before it, and no device before `a` has it.
    DuplicateId { a: DeviceId, b: DeviceId },
    /// The device's own prefixes have this one twice, and up to its second place no other.
    DuplicateOwn { device: DeviceId, prefix: Prefix },
    /// A device lists a peer of this name, or a link ends at one of this name, and there is none.
    UnknownName { name: Name },
    /// The device lists this peer twice.
    DuplicatePeer { device: DeviceId, peer: DeviceId },
    /// Both ends of a link are this device.
    SelfLink { device: DeviceId },
    /// The ends of a link, in its order, which a link before it has in this order or the other.
    DuplicateLink { a: DeviceId, b: DeviceId },
    /// The ends of a link, in its order, which have one AS number.
    SameAs { a: DeviceId, b: DeviceId },
}

/// Why no network was made: a fault of the draft, or want of memory.
#[derive(Debug, Drop)]
pub enum NetAnswer {
    Fault(NetFault),
    Memory,
}

impl From<AllocError> for NetAnswer {
    ghost from_gives = { λ _ e. e ≡ Memory };

    fn from(_: AllocError) -> NetAnswer {
        NetAnswer::Memory
    }
}

impl<T: Drop> From<AllocFailed<T>> for NetAnswer {
    ghost from_gives = { λ _ e. e ≡ Memory };

    fn from(_: AllocFailed<T>) -> NetAnswer {
        NetAnswer::Memory
    }
}
