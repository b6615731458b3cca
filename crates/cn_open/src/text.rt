//! The first stage: the plan as it is read from its text.

ghost use Rattle.std.specs.Prelude.{◌≤◌, IfErr, IfOk, length};
ghost use Rattle.cn_open.specs.Depth.{named};
ghost use Rattle.cn_open.specs.Emulation.{ReadsPlan, plan_limit};
ghost use Rattle.cn_open.specs.OpenFaults.{IsAnswerOf, IsOpenFault};

use crate::fault::{OpenAnswer, OpenFault, TextFault};
use cn_readnet::{NetText, read_net};
use cn_text::TextAnswer;
use std::alloc::Global;

/// The longest text of a plan, in octets.
pub const PLAN_LIMIT: usize = 16_777_216;

/// The plan as it is read from a text that is short enough, or the first fault of the text.
pub fn plan_text(alloc: Global, bytes: &[u8]) -> Result<NetText, OpenAnswer>
    requires { length bytes.now ≤ plan_limit }
    ensures text { IfOk result (ReadsPlan bytes.now) }
    ensures fault { IfErr result (IsAnswerOf (IsOpenFault named bytes.now)) }
{
    match read_net(alloc, bytes) {
        Ok(text) => Ok(text),
        Err(TextAnswer::Memory) => Err(OpenAnswer::Memory),
        Err(answer) => Err(OpenAnswer::Fault(OpenFault::NoPlan(TextFault::Bad(answer)))),
    }
}
