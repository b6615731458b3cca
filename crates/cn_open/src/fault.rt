//! Why a plan doesn't open.

ghost use Rattle.std.specs.Prelude.{◌≡◌};
ghost use Rattle.cn_open.specs.declared.fault.NameAnswer.TheVariants.{Memory as NameMemory};
ghost use Rattle.cn_open.specs.declared.fault.OpenAnswer.TheVariants.{Memory as OpenMemory};

use cn_base::{Choice, DeviceId, Name, Prefix};
use cn_cert::Refusal;
use cn_net::{Draft, Net, NetFault, What};
use cn_text::TextAnswer;
use std::alloc::{AllocError, AllocFailed};

/// Why a plan that is read stands for no emulation. Device numbers are places in the plan, from 0.
#[derive(Debug, Drop)]
pub enum PlanFault {
    /// What is wrong with its network.
    Net(NetFault),
    /// A name to emulate, or of a record, is no device's.
    Unknown(Name),
    /// Two records have this device and prefix.
    Repeat { device: DeviceId, prefix: Prefix },
    /// There are so many emulated devices, or so many rows for the core to keep, which is more than
    /// there may be.
    TooMany { what: What, count: u64 },
}

/// Why no plan is read from a text.
#[derive(Debug, Drop)]
pub enum TextFault {
    /// It has more octets than this.
    TooLong { limit: u64 },
    /// Its first fault, with the place of it.
    Bad(TextAnswer),
}

/// Why the text of a plan doesn't open.
#[derive(Debug, Drop)]
pub enum OpenFault {
    /// No plan is read from the text.
    NoPlan(TextFault),
    /// The plan stands for no emulation; its draft has the names.
    Net {
        draft: Draft,
        fault: PlanFault,
    },
    /// The certificate of its boundary is refused, for this first.
    Refused {
        net: Net,
        refusal: Refusal,
    },
    /// The record of this device and prefix is the first that isn't sound: what is recorded, and
    /// what the device holds.
    Unsound {
        net: Net,
        device: DeviceId,
        prefix: Prefix,
        held: Option<Choice>,
        wanted: Option<Choice>,
    },
}

/// What is answered in place of an opening: its fault; or memory ran out.
#[derive(Debug, Drop)]
pub enum OpenAnswer {
    Fault(OpenFault),
    Memory,
}

impl From<AllocError> for OpenAnswer {
    ghost from_gives = { λ _ e. e ≡ OpenMemory };

    fn from(_: AllocError) -> OpenAnswer {
        OpenAnswer::Memory
    }
}

/// What a stage answers in place of its value: why the plan stands for no emulation; or memory ran
/// out.
#[derive(Debug, Drop)]
pub enum StageAnswer {
    Fault(PlanFault),
    Memory,
}

/// Why names give no devices: one is no device's, or memory ran out.
#[derive(Debug, Drop)]
pub enum NameAnswer {
    Unknown(Name),
    Memory,
}

impl From<AllocError> for NameAnswer {
    ghost from_gives = { λ _ e. e ≡ NameMemory };

    fn from(_: AllocError) -> NameAnswer {
        NameAnswer::Memory
    }
}

impl<T: Drop> From<AllocFailed<T>> for NameAnswer {
    ghost from_gives = { λ _ e. e ≡ NameMemory };

    fn from(_: AllocFailed<T>) -> NameAnswer {
        NameAnswer::Memory
    }
}
