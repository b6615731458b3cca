//! The top call.

ghost use Rattle.std.specs.Prelude.{◌≡◌, map, string_bytes};
ghost use Rattle.cn_outside.specs.Scene.{scene};
ghost use Rattle.cn_top.specs.Form.{asked, usage_form};
ghost use Rattle.cn_top.specs.Meaning.{IsValidInput, IsWrong};
ghost use Rattle.cn_top.specs.Outcome.{IsCalm, IsDone, IsMisused, IsRefusal, IsRefused, IsStarved, IsUnlessMemory, IsWriteFault, IsUnread, KeepsOthers, Outcome, Tells};
ghost use Rattle.cn_top.specs.Wrong.{status_of};
ghost use Rattle.cn_top.specs.declared.wrong.Wrong.{Wrong};

use crate::commands::means;
use crate::deed::carry_out;
use crate::form::form_of;
use crate::status::Status;
use cn_outside::{Out, Shelf};
use std::alloc::Global;

/// All that the words ask for.
fn run<S: Shelf, O: Out>(alloc: Global, words: &[String], shelf: &mut S, out: &mut O) -> Status
    ensures { Outcome (asked (map string_bytes words.now))
        (scene (S.files shelf.old) (O.printed out.old))
        (scene (S.files shelf.new) (O.printed out.new)) result }
{
    match means(alloc, shelf, form_of(words)) {
        Ok(deed) => carry_out(alloc, shelf, out, &deed),
        Err(_) => Status::NoMemory,
    }
}

/// Does what the words ask for, and puts the answer. The words are the arguments after the
/// program's name.
///
/// `plan FILE` reads a plan: a network, the devices to emulate or those from which they grow
/// (`must`), and records of the others. It checks the certificate of the boundary between them, and
/// the records against the one stable state of the others alone, and puts the plan or what is first
/// wrong, by one put: why no plan is read from the file (status 6), what makes it no emulation
/// (status 7), or its boundary unsafe (status 1).
///
/// `serial FILE SCRIPT TRACE` reads such a plan and a script, and runs the script in the serial
/// order on an emulation of the plan's emulated devices, with a static speaker in place of each
/// other device. It writes the trace of what happened under TRACE, and then puts the answer to each
/// command, one put for each. A `pull` that is answered quiet shows the routes (RFC 4271, section
/// 3.2) that every emulated device holds in the one stable state of the whole network, in which no
/// device is a speaker; a `pull` that is answered again names what is first pending. Where the plan
/// or the script can't be run, one line is put, and no file is touched.
///
/// All reads come before all writes. A name is read once for each place that it has among the files
/// of the command, the script only where the plan opens an emulation, and no call that failed is
/// made again. Each "exactly where" of the clauses yields to want of memory (status 5, of which no
/// clause says when it comes), and to statuses 3 and 4, which come only where a count of failed
/// calls rose. What a name held is meant as far as the shelf tells it (`MayHold`).
pub fn command<S: Shelf, O: Out>(
    alloc: Global,
    words: &[String],
    shelf: &mut S,
    out: &mut O,
) -> Status
    // All of it: what is meant by the words and by what the named files held when the call began,
    // and how the call ends: whole, or in part with 4 or 5.
    ensures outcome { Outcome (asked (map string_bytes words.now))
        (scene (S.files shelf.old) (O.printed out.old))
        (scene (S.files shelf.new) (O.printed out.new)) result }

    // 0 comes exactly where the input is valid, and then what is meant is done whole. That it comes
    // there is completeness.
    ensures right { result ≡ Status.Ok → IsDone (asked (map string_bytes words.now))
        (scene (S.files shelf.old) (O.printed out.old))
        (scene (S.files shelf.new) (O.printed out.new)) }
    ensures complete { IsValidInput (asked (map string_bytes words.now)) (S.files shelf.old).held
        → Tells (asked (map string_bytes words.now)) (scene (S.files shelf.old) (O.printed out.old))
        → IsCalm (asked (map string_bytes words.now))
        (scene (S.files shelf.old) (O.printed out.old))
        (scene (S.files shelf.new) (O.printed out.new))
        → IsUnlessMemory result Status.Ok }

    // The status of a refusal comes exactly where that is first wrong of which the status is, and
    // its line is put.
    ensures wrong { IsRefusal result → IsRefused (asked (map string_bytes words.now))
        (scene (S.files shelf.old) (O.printed out.old))
        (scene (S.files shelf.new) (O.printed out.new)) result }
    ensures wrongly { (w : Wrong)
        → IsWrong (asked (map string_bytes words.now)) (S.files shelf.old).held w
        → Tells (asked (map string_bytes words.now)) (scene (S.files shelf.old) (O.printed out.old))
        → IsCalm (asked (map string_bytes words.now))
        (scene (S.files shelf.old) (O.printed out.old))
        (scene (S.files shelf.new) (O.printed out.new))
        → IsUnlessMemory result (status_of w) }

    // 2 comes exactly where the words are no listed form.
    ensures usage { result ≡ Status.Usage → IsMisused (asked (map string_bytes words.now))
        (scene (S.files shelf.old) (O.printed out.old))
        (scene (S.files shelf.new) (O.printed out.new)) }
    ensures misused { asked (map string_bytes words.now) ≡ usage_form
        → IsCalm (asked (map string_bytes words.now))
        (scene (S.files shelf.old) (O.printed out.old))
        (scene (S.files shelf.new) (O.printed out.new))
        → IsUnlessMemory result Status.Usage }

    // 3, 4 and 5 with the counts, and what each leaves.
    ensures unread { result ≡ Status.ReadFault → IsUnread (asked (map string_bytes words.now))
        (scene (S.files shelf.old) (O.printed out.old))
        (scene (S.files shelf.new) (O.printed out.new)) }
    ensures unput { result ≡ Status.WriteFault → IsWriteFault (asked (map string_bytes words.now))
        (scene (S.files shelf.old) (O.printed out.old))
        (scene (S.files shelf.new) (O.printed out.new)) }
    ensures starved { result ≡ Status.NoMemory → IsStarved (asked (map string_bytes words.now))
        (scene (S.files shelf.old) (O.printed out.old))
        (scene (S.files shelf.new) (O.printed out.new)) }

    // What a call leaves alone.
    ensures others { KeepsOthers (asked (map string_bytes words.now))
        (scene (S.files shelf.old) (O.printed out.old))
        (scene (S.files shelf.new) (O.printed out.new)) }
{
    run(alloc, words, shelf, out)
}
