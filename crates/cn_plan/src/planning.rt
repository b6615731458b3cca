//! The steps to a plan.

ghost use Rattle.std.specs.Prelude.{◌≡◌, All, IfErr, IfOk};
ghost use Rattle.cn_net.specs.Islands.{outside_of};
ghost use Rattle.cn_net.specs.Network.{IsDevice};
ghost use Rattle.cn_record.specs.Recorded.{SaysSound};
ghost use Rattle.cn_plan.specs.Selected.{named};
ghost use Rattle.cn_plan.specs.Planned.{AnswersBoundary, AnswersPlan, AnswersRecords, IsPlan, IsPlanWith, uncertified_answer, unrecorded_answer};

use crate::answer::{Plan, PlanAnswer};
use crate::selection::{Selection, selected};
use cn_cert::{CertWhy, Uncertified, certify};
use cn_island::islands;
use cn_net::{Certified, DeviceSet, Net, passed_limit};
use cn_record::{RecordWhy, Saved, Unrecorded, check};
use std::alloc::Global;

// What is answered where records are refused.
fn unrecorded(refused: Unrecorded) -> PlanAnswer
    ensures { result ≡ unrecorded_answer refused.certified.net refused.why }
{
    let Unrecorded { certified, why } = refused;
    match why {
        RecordWhy::Unsound {
            device,
            prefix,
            held,
            wanted,
        } => {
            let (net, _, _) = certified.parts();
            PlanAnswer::Unsound {
                net,
                device,
                prefix,
                held,
                wanted,
            }
        }
        RecordWhy::Memory => PlanAnswer::Memory,
    }
}

// The plan of a certified opening, where these records are sound.
fn recorded(alloc: Global, certified: Certified, saved: Saved) -> Result<Plan, PlanAnswer>
    ensures ok { IfOk result (λ plan. (plan.recorded ≡ record { opening = certified; rows = saved })
        × SaysSound certified saved) }
    ensures answer { IfErr result (AnswersRecords certified saved) }
{
    match check(alloc, certified, saved) {
        Ok(recorded) => Ok(Plan { recorded }),
        Err(refused) => Err(unrecorded(refused)),
    }
}

// What is answered where a boundary gets no certificate.
fn uncertified(refused: Uncertified) -> PlanAnswer
    ensures { result ≡ uncertified_answer refused.net refused.why }
{
    let Uncertified { net, why, .. } = refused;
    match why {
        CertWhy::Refused(refusal) => PlanAnswer::Refused { net, refusal },
        CertWhy::Memory => PlanAnswer::Memory,
    }
}

// The plan of a network with these emulated devices, where its boundary is safe.
fn boundary(alloc: Global, net: Net, emulated: DeviceSet, saved: Saved) -> Result<Plan, PlanAnswer>
    requires { All (IsDevice net) emulated }
    ensures ok { IfOk result (λ plan. IsPlanWith net emulated saved plan.recorded) }
    ensures answer { IfErr result (AnswersBoundary net (outside_of emulated) saved) }
{
    let labels = islands(alloc, &net, &emulated)?;
    match certify(alloc, net, emulated, labels) {
        Ok(certified) => {
            // This tells what the type keeps.
            certified.valid();
            recorded(alloc, certified, saved)
        }
        Err(refused) => Err(uncertified(refused)),
    }
}

/// The plan of a network, of which this is selected and these rows are recorded. The devices that
/// the selection names are devices of the network. Looked at are first the limits, then the
/// certificate, then the records; an answer names the first that fails.
pub fn plan(alloc: Global, net: Net, selection: Selection, saved: Saved) -> Result<Plan, PlanAnswer>
    requires { All (IsDevice net) (named selection) }
    ensures ok { IfOk result (λ plan. IsPlan net selection saved plan.recorded) }
    ensures answer { IfErr result (AnswersPlan net selection saved) }
{
    let emulated = selected(alloc, &net, selection)?;
    match passed_limit(alloc, &net, &emulated)? {
        Some(excess) => Err(PlanAnswer::TooMany {
            what: excess.what,
            count: excess.count,
        }),
        None => boundary(alloc, net, emulated, saved),
    }
}
