//! The stages from a plan whose names are known to its opening: the limits, the certificate and the
//! records, in the order of `plan` of `cn_plan`.

ghost use Rattle.std.specs.Prelude.{◌≡◌, ◌≤◌, All, IfErr, IfOk, length};
ghost use Rattle.cn_net.specs.Network.{IsDevice};
ghost use Rattle.cn_plan.specs.Planned.{AnswersPlan, IsPlan};
ghost use Rattle.cn_plan.specs.Selected.{named as devices_named};
ghost use Rattle.cn_plan.specs.declared.answer.PlanAnswer.{PlanAnswer as NoPlanAnswer};
ghost use Rattle.cn_record.specs.Recorded.{IsRecorded};
ghost use Rattle.cn_open.specs.Depth.{sound};
ghost use Rattle.cn_open.specs.Emulation.{plan_limit};
ghost use Rattle.cn_open.specs.OpenFaults.{IsAnswerOf, IsOpenFault};
ghost use Rattle.cn_open.specs.Opens.{Opens};
ghost use Rattle.cn_open.specs.Steps.{unopened_answer};

use crate::fault::{OpenAnswer, OpenFault, PlanFault};
use crate::naming::{Named, name_plan};
use cn_net::Draft;
use cn_plan::{PlanAnswer, plan};
use cn_record::Recorded;
use std::alloc::Global;

// What is answered where there is no plan.
fn unopened(draft: Draft, why: PlanAnswer) -> OpenAnswer
    ensures { result ≡ unopened_answer draft why }
{
    match why {
        PlanAnswer::TooMany { what, count } => OpenAnswer::Fault(OpenFault::Net {
            draft,
            fault: PlanFault::TooMany { what, count },
        }),
        PlanAnswer::Refused { net, refusal } => {
            OpenAnswer::Fault(OpenFault::Refused { net, refusal })
        }
        PlanAnswer::Unsound {
            net,
            device,
            prefix,
            held,
            wanted,
        } => OpenAnswer::Fault(OpenFault::Unsound {
            net,
            device,
            prefix,
            held,
            wanted,
        }),
        PlanAnswer::Memory => OpenAnswer::Memory,
    }
}

/// The opening of a plan whose names are known.
fn opened(alloc: Global, named: Named) -> Result<Recorded, OpenAnswer>
    requires { All (IsDevice named.net) (devices_named named.selection) }
    ensures plan { IfOk result
        (λ r. IsPlan named.net named.selection named.saved r × IsRecorded r) }
    ensures answer { IfErr result (λ answer. (why : NoPlanAnswer)
        × AnswersPlan named.net named.selection named.saved why
        × (answer ≡ unopened_answer named.draft why)) }
{
    let Named {
        net,
        selection,
        saved,
        draft,
    } = named;
    match plan(alloc, net, selection, saved) {
        Ok(plan) => {
            plan.recorded.valid();
            Ok(plan.recorded)
        }
        Err(why) => Err(unopened(draft, why)),
    }
}

/// What the text of a plan opens with: the opening of its emulation within the limits, behind a
/// certified boundary, with sound records. A fault is the first that keeps the plan from that.
pub fn open_plan(alloc: Global, bytes: &[u8]) -> Result<Recorded, OpenAnswer>
    requires { length bytes.now ≤ plan_limit }
    ensures opens { IfOk result (Opens bytes.now) }
    ensures fault { IfErr result (IsAnswerOf (IsOpenFault sound bytes.now)) }
{
    let named = match name_plan(alloc, bytes) {
        Ok(named) => named,
        Err(answer) => return Err(answer),
    };
    opened(alloc, named)
}
