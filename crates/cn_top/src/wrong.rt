//! What can be wrong with the files that a command reads.

ghost use Rattle.std.specs.Prelude.{◌≡◌, IfOk};
ghost use Rattle.cn_top.specs.Wrong.{opening_status, opening_text, status_of, text_of};

use crate::fault_texts::bad_net_line;
use crate::form::Later;
use crate::status::Status;
use crate::text_faults::bad_text_line;
use crate::texts::{refused_line, unbuilt_line, unsound_line};
use cn_open::OpenFault;
use std::alloc::{AllocError, Global};

/// What is first wrong: the refusal of a command, with all that its line says.
#[derive(Debug, Drop)]
pub enum Wrong {
    /// The command isn't built yet.
    Later(Later),
    /// The plan opens no emulation.
    Plan(OpenFault),
    /// No script is read from the text.
    NoScript,
}

/// The status of a plan that opens no emulation.
fn opening_status(fault: &OpenFault) -> Status
    ensures { result ≡ opening_status fault.now }
{
    match fault {
        OpenFault::NoPlan(_) => Status::BadText,
        OpenFault::Net { .. } => Status::BadNet,
        OpenFault::Refused { .. } => Status::Refused,
        OpenFault::Unsound { .. } => Status::Refused,
    }
}

/// The line of a plan, in the file of this name, that opens no emulation.
fn opening_text(alloc: Global, file: &str, fault: &OpenFault) -> Result<Vec<u8>, AllocError>
    ensures { IfOk result (λ text. text.items ≡ opening_text file.now fault.now) }
{
    match fault {
        OpenFault::NoPlan(why) => bad_text_line(alloc, file, why),
        OpenFault::Net { draft, fault } => bad_net_line(alloc, draft, fault),
        OpenFault::Refused { net, refusal } => refused_line(alloc, net, refusal),
        OpenFault::Unsound {
            net,
            device,
            prefix,
            held,
            wanted,
        } => unsound_line(alloc, net, *device, prefix, held.as_ref(), wanted.as_ref()),
    }
}

impl Wrong {
    /// The status of the refusal.
    pub fn status(&self) -> Status
        ensures { result ≡ status_of self.now }
    {
        match self {
            Wrong::Later(_) => Status::Unbuilt,
            Wrong::Plan(fault) => opening_status(fault),
            Wrong::NoScript => Status::Unbuilt,
        }
    }

    /// The line of the refusal, for what is wrong with the file of this name.
    pub fn text(&self, alloc: Global, file: &str) -> Result<Vec<u8>, AllocError>
        ensures { IfOk result (λ text. text.items ≡ text_of file.now self.now) }
    {
        match self {
            Wrong::Later(later) => unbuilt_line(alloc, later.word()),
            Wrong::Plan(fault) => opening_text(alloc, file, fault),
            Wrong::NoScript => unbuilt_line(alloc, "script text"),
        }
    }
}
