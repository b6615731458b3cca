//! What comes of a script in the serial order.

ghost use Rattle.std.specs.Prelude.{◌≡◌, [], IfOk};
ghost use Rattle.cn_top.specs.Serial.{IsRunOf};

use cn_base::Items;
use cn_change::Script;
use cn_core::Core;
use cn_record::Recorded;
use cn_report::print_answer;
use cn_serial::after_command;
use cn_trace::write_trace;
use std::alloc::{AllocError, Global};

/// What comes of a script: the trace of its play, and the texts of its answers, in order.
#[derive(Drop)]
pub struct Run {
    pub trace: Items<u8>,
    pub texts: Items<Items<u8>>,
}

/// A script is run on a recorded opening. Each answer is printed and dropped before the next
/// command is run, so that its tables aren't held beside all texts.
pub fn run_script(alloc: Global, recorded: Recorded, script: &Script) -> Result<Run, AllocError>
    ensures { IfOk result (IsRunOf recorded script.now) }
{
    let Ok(core) = Core::start(alloc, recorded) else {
        return Err(AllocError);
    };
    // A core in a box is dropped by one call, and not field by field.
    let mut core = Box::new(alloc, core)?;
    run_on(alloc, &mut core, script)
}

// The same, on a core at its start.
fn run_on(alloc: Global, core: &mut Core, script: &Script) -> Result<Run, AllocError>
    requires { core.old.history ≡ [] }
    ensures { IfOk result (IsRunOf core.old.recorded script.now) }
{
    let mut texts = Vec::with_capacity(alloc, script.items().len())?;
    let mut k = 1;
    for command in script.items() {
        let answer = after_command(alloc, core, k, command)?;
        let text = print_answer(alloc, core.net(), k, command, &answer)?;
        texts.push(Items::make(text))?;
        k += 1;
    }
    let trace = write_trace(alloc, core.net(), core.history())?;
    Ok(Run {
        trace: Items::make(trace),
        texts: Items::make(texts),
    })
}
