//! The run of a script.

ghost use Rattle.std.specs.Prelude.{◌≡◌, [], IfOk, OnOk};
ghost use Rattle.cn_core.specs.Play.{IsAnswer};
ghost use Rattle.cn_serial.specs.Ran.{HasWorked, IsAfter, IsRan};

use cn_base::Items;
use cn_change::{Command, Script};
use cn_core::{Answer, Core, StepAnswer};
use cn_record::Recorded;
use std::alloc::{AllocError, Global};

/// A core after the last command of a script, and the answers to the commands, in their order.
#[derive(Drop)]
pub struct Ran {
    pub core: Core,
    pub answers: Items<Answer>,
}

// The first event happens, again and again, until so many have happened or the state is quiet.
#[tactic(auto, using(crate::proofs::Runs::first_none))]
fn work(alloc: Global, core: &mut Core, count: u32) -> Result<(), AllocError>
    ensures { OnOk result (HasWorked core.old count core.new) }
{
    for done in 0..count {
        let _ = done;
        match core.first() {
            Some(event) => match core.step(alloc, event) {
                Ok(()) => {}
                Err(StepAnswer::Memory) => return Err(AllocError),
                Err(StepAnswer::NotEnabled) => unreachable!(),
            },
            None => return Ok(()),
        }
    }
    Ok(())
}

/// One command, whose number is `k`: the core goes to the mark behind it, to which its serial part
/// leads, and the answer comes. So each answer can be used and dropped before the next command is
/// run. The error is want of memory. The core may have gone a part of the way then, and nothing is
/// said of how far, so its caller is to drop it.
pub fn after_command(
    alloc: Global,
    core: &mut Core,
    k: u32,
    command: &Command,
) -> Result<Answer, AllocError>
    ensures after { OnOk result (IsAfter core.old k command.now core.new) }
    ensures answer { IfOk result (λ answer. IsAnswer core.new command.now answer) }
{
    match command {
        Command::Work { count } => {
            work(alloc, core, *count)?;
            core.mark(k)?;
            Ok(Answer::Done)
        }
        Command::Pull => {
            core.mark(k)?;
            Ok(Answer::Pulled(core.pull(alloc)?))
        }
    }
}

// The commands of a script, one after another, on a core at its start.
fn answered(alloc: Global, core: &mut Core, script: &Script) -> Result<Items<Answer>, AllocError>
    requires { core.old.history ≡ [] }
    ensures { IfOk result (λ answers. IsRan core.old.recorded script.now
        (record { core = core.new; answers = answers })) }
{
    let mut answers = Vec::with_capacity(alloc, script.items().len())?;
    let mut k = 1;
    for command in script.items() {
        answers.push(after_command(alloc, core, k, command)?)?;
        k += 1;
    }
    Ok(Items::make(answers))
}

/// Runs a script in the serial order on the emulated devices of an opening, with speakers in place
/// of the others: the core's history is the serial play of the script, which by
/// `laws::serial_play` is one and a play, and the answers are those along it. The error is want of
/// memory.
pub fn run_serial(alloc: Global, recorded: Recorded, script: &Script) -> Result<Ran, AllocError>
    ensures { IfOk result (λ ran. IsRan recorded script.now ran) }
{
    let Ok(core) = Core::start(alloc, recorded) else {
        return Err(AllocError);
    };
    // A core in a box is dropped by one call at each error below, and not field by field.
    let mut core = Box::new(alloc, core)?;
    let answers = answered(alloc, &mut core, script)?;
    Ok(Ran {
        core: Box::into_inner(core),
        answers,
    })
}
