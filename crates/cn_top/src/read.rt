//! The files that a command reads.

ghost use Rattle.std.specs.Prelude.{◌≡◌, IfOk, OnErr};
ghost use Rattle.cn_open.specs.Emulation.{plan_limit};
ghost use Rattle.cn_open.specs.Opens.{Opens};
ghost use Rattle.cn_open.specs.declared.fault.OpenFault.TheVariants.{NoPlan};
ghost use Rattle.cn_open.specs.declared.fault.TextFault.TheVariants.{TooLong};
ghost use Rattle.cn_top.specs.Ending.{KeepsNames};
ghost use Rattle.cn_top.specs.Reading.{IsBadPlan, IsBadScript, MayHaveRead, ReadsFile};
ghost use Rattle.cn_top.specs.Serial.{ReadsScript};
ghost use Rattle.cn_top.specs.declared.wrong.Wrong.TheVariants.{Plan};

use crate::wrong::Wrong;
use cn_change::Script;
use cn_open::{OpenAnswer, OpenFault, PLAN_LIMIT, TextFault, open_plan};
use cn_outside::{ReadAnswer, Shelf};
use cn_readscript::read_script;
use cn_record::Recorded;
use cn_text::TextAnswer;
use std::alloc::{AllocError, Global};

/// The longest text of a script, in octets.
const SCRIPT_LIMIT: usize = 16_777_216;

/// What the read of a file gives: what its text stands for, or what is wrong with it; or the read
/// failed.
#[derive(Drop)]
pub enum FileRead<T> {
    Good(T),
    Bad(Wrong),
    Unread,
}

/// The text of a plan is too long.
fn too_long() -> Wrong
    ensures { result ≡ Plan (NoPlan (TooLong plan_limit)) }
{
    Wrong::Plan(OpenFault::NoPlan(TextFault::TooLong {
        limit: PLAN_LIMIT as u64,
    }))
}

/// Reads the plan under a name, and opens it.
pub fn read_plan<S: Shelf>(
    alloc: Global,
    shelf: &mut S,
    file: &str,
) -> Result<FileRead<Recorded>, AllocError>
    ensures read { IfOk result
        (ReadsFile Opens IsBadPlan file.now (S.files shelf.old) (S.files shelf.new)) }
    ensures starved { OnErr result
        (MayHaveRead file.now (S.files shelf.old) (S.files shelf.new)) }
    ensures keeps { KeepsNames (S.files shelf.old) (S.files shelf.new) }
{
    match shelf.read(alloc, file, PLAN_LIMIT) {
        Ok(bytes) => match open_plan(alloc, &bytes) {
            Ok(recorded) => Ok(FileRead::Good(recorded)),
            Err(OpenAnswer::Fault(fault)) => Ok(FileRead::Bad(Wrong::Plan(fault))),
            Err(OpenAnswer::Memory) => Err(AllocError),
        },
        Err(ReadAnswer::TooLong { .. }) => Ok(FileRead::Bad(too_long())),
        Err(ReadAnswer::Failed) => Ok(FileRead::Unread),
        Err(ReadAnswer::Memory) => Err(AllocError),
    }
}

/// Reads the script under a name.
pub fn script_under<S: Shelf>(
    alloc: Global,
    shelf: &mut S,
    file: &str,
) -> Result<FileRead<Script>, AllocError>
    ensures read { IfOk result
        (ReadsFile ReadsScript IsBadScript file.now (S.files shelf.old) (S.files shelf.new)) }
    ensures starved { OnErr result
        (MayHaveRead file.now (S.files shelf.old) (S.files shelf.new)) }
    ensures keeps { KeepsNames (S.files shelf.old) (S.files shelf.new) }
{
    match shelf.read(alloc, file, SCRIPT_LIMIT) {
        Ok(bytes) => match read_script(alloc, &bytes) {
            Ok(script) => Ok(FileRead::Good(script)),
            Err(TextAnswer::Memory) => Err(AllocError),
            Err(_) => Ok(FileRead::Bad(Wrong::NoScript)),
        },
        Err(ReadAnswer::TooLong { .. }) => Ok(FileRead::Bad(Wrong::NoScript)),
        Err(ReadAnswer::Failed) => Ok(FileRead::Unread),
        Err(ReadAnswer::Memory) => Err(AllocError),
    }
}
