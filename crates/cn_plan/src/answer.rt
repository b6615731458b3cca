//! The plan as one value, and why there is none.

ghost use Rattle.std.specs.Prelude.{◌≡◌};
ghost use Rattle.cn_plan.specs.declared.answer.PlanAnswer.TheVariants.{Memory};

use cn_base::{Choice, DeviceId, Prefix};
use cn_cert::Refusal;
use cn_net::{Net, What};
use cn_record::Recorded;
use std::alloc::AllocError;

/// A plan: an opening within the limits, whose boundary is certified and whose records are sound.
#[derive(Debug, Drop)]
pub struct Plan {
    pub recorded: Recorded,
}

/// Why there is no plan, in the order in which it is looked for: there is too much of something,
/// and how much; the first refusal of the certificate; the first device and prefix whose record
/// isn't sound, what is recorded and what the device holds. The network is handed back with a
/// refusal and with an unsound record. For want of memory nothing is said.
#[derive(Debug, Drop)]
pub enum PlanAnswer {
    TooMany {
        what: What,
        count: u64,
    },
    Refused {
        net: Net,
        refusal: Refusal,
    },
    Unsound {
        net: Net,
        device: DeviceId,
        prefix: Prefix,
        held: Option<Choice>,
        wanted: Option<Choice>,
    },
    Memory,
}

impl From<AllocError> for PlanAnswer {
    ghost from_gives = { λ _ e. e ≡ Memory };

    fn from(_: AllocError) -> PlanAnswer {
        PlanAnswer::Memory
    }
}
