//! What each command means: its files are read, and what is to be done is made as one value.

ghost use Rattle.std.specs.Prelude.{IfOk};
ghost use Rattle.cn_top.specs.Deed.{deed_view};
ghost use Rattle.cn_top.specs.Ending.{KeepsNames};
ghost use Rattle.cn_top.specs.Form.{plan_form, serial_form};
ghost use Rattle.cn_top.specs.FormView.{form_view};
ghost use Rattle.cn_top.specs.Outcome.{Intends, ReadsSoFar};

use crate::deed::Deed;
use crate::form::Form;
use crate::read::{FileRead, read_plan, script_under};
use crate::serial::run_script;
use crate::wrong::Wrong;
use cn_outside::Shelf;
use std::alloc::{AllocError, Global};

/// What `plan` means.
fn plan_means<'a, S: Shelf>(
    alloc: Global,
    shelf: &mut S,
    file: &'a str,
) -> Result<Deed<'a>, AllocError>
    ensures intends { IfOk result (λ deed. Intends (plan_form file.now)
        (S.files shelf.old) (S.files shelf.new) (deed_view deed)) }
    ensures reads { ReadsSoFar (plan_form file.now) (S.files shelf.old) (S.files shelf.new) }
    ensures keeps { KeepsNames (S.files shelf.old) (S.files shelf.new) }
{
    match read_plan(alloc, shelf, file)? {
        FileRead::Good(recorded) => Deed::plan(alloc, recorded.certified()),
        FileRead::Bad(wrong) => Deed::wrong(alloc, file, &wrong),
        FileRead::Unread => Deed::unread(alloc, file),
    }
}

/// What `serial` means. The script is read only where the plan opens an emulation.
fn serial_means<'a, S: Shelf>(
    alloc: Global,
    shelf: &mut S,
    file: &'a str,
    script: &'a str,
    trace: &'a str,
) -> Result<Deed<'a>, AllocError>
    ensures intends { IfOk result (λ deed. Intends (serial_form file.now script.now trace.now)
        (S.files shelf.old) (S.files shelf.new) (deed_view deed)) }
    ensures reads { ReadsSoFar (serial_form file.now script.now trace.now)
        (S.files shelf.old) (S.files shelf.new) }
    ensures keeps { KeepsNames (S.files shelf.old) (S.files shelf.new) }
{
    let recorded = match read_plan(alloc, shelf, file)? {
        FileRead::Good(recorded) => recorded,
        FileRead::Bad(wrong) => return Deed::wrong(alloc, file, &wrong),
        FileRead::Unread => return Deed::unread(alloc, file),
    };
    match script_under(alloc, shelf, script)? {
        FileRead::Good(commands) => {
            let run = run_script(alloc, recorded, &commands)?;
            Ok(Deed::run(trace, run))
        }
        FileRead::Bad(wrong) => Deed::wrong(alloc, script, &wrong),
        FileRead::Unread => Deed::unread(alloc, script),
    }
}

/// What the words mean.
pub fn means<'a, S: Shelf>(
    alloc: Global,
    shelf: &mut S,
    form: Form<'a>,
) -> Result<Deed<'a>, AllocError>
    ensures intends { IfOk result (λ deed. Intends (form_view form.entry)
        (S.files shelf.old) (S.files shelf.new) (deed_view deed)) }
    ensures reads { ReadsSoFar (form_view form.entry) (S.files shelf.old) (S.files shelf.new) }
    ensures keeps { KeepsNames (S.files shelf.old) (S.files shelf.new) }
{
    match form {
        Form::Usage => Deed::usage(alloc),
        Form::Later(later) => Deed::wrong(alloc, "", &Wrong::Later(later)),
        Form::Plan(file) => plan_means(alloc, shelf, file),
        Form::Serial {
            file,
            script,
            trace,
        } => serial_means(alloc, shelf, file, script, trace),
    }
}
