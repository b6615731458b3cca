//! What happens to the core, event by event.

use cn_base::DeviceId;
use cn_core::{Core, Event, Step};
use cn_given::build::network_of;
use cn_given::opening::recorded;
use cn_given::tables::count;
use cn_given::words::compare;
use cn_report::print_pull;
use cn_trace::write_trace;
use std::alloc::Global;
use std::test::Fail;

// The rack and the leaf, the emulated ones, what was recorded of the other, how many events happen
// (or fewer, where nothing is left to do), and what is told: the steps, the event that comes first
// now, what is pending, and a pull.
const CASES: &str = "
# both are emulated, and nothing happened yet
devices t1 l1
links t1+l1
emulated t1 l1
events 0
gives
first decide t1 10.1.1.0/24
standing Device { device: DeviceId(0) }
1 pull again device t1
# after a decision and its send there is mail
devices t1 l1
links t1+l1
emulated t1 l1
events 2
gives
decide t1 10.1.1.0/24
send t1 l1
first receive t1 l1
standing Mailbox { from: DeviceId(0), to: DeviceId(1) }
1 pull again mailbox t1 l1
# both are emulated, until nothing is left to do
devices t1 l1
links t1+l1
emulated t1 l1
events 100
gives
decide t1 10.1.1.0/24
send t1 l1
receive t1 l1
decide l1 10.1.1.0/24
send l1 t1
receive l1 t1
decide t1 10.1.1.0/24
first none
standing Quiet
1 pull quiet
table t1
10.1.1.0/24 own path - origin igp
table l1
10.1.1.0/24 from t1 path 65101 origin igp
# a speaker has nothing to decide, and owes what it says from the start
devices t1 l1
links t1+l1
emulated l1
record t1 10.1.1.0/24 own igp -
events 0
gives
first send t1 l1
standing Device { device: DeviceId(0) }
1 pull again device t1
# a speaker takes in nothing, and has no table
devices t1 l1
links t1+l1
emulated l1
record t1 10.1.1.0/24 own igp -
events 100
gives
send t1 l1
receive t1 l1
decide l1 10.1.1.0/24
first none
standing Quiet
1 pull quiet
table l1
10.1.1.0/24 from t1 path 65101 origin igp
# what isn't of the speaker's island isn't said
devices t1 l1-own
links t1+l1
emulated l1
record t1 10.2.1.0/24 l1 igp 65201
record t1 10.1.1.0/24 own igp -
events 100
gives
send t1 l1
receive t1 l1
decide l1 10.1.1.0/24
decide l1 10.2.1.0/24
first none
standing Quiet
1 pull quiet
table l1
10.1.1.0/24 from t1 path 65101 origin igp
10.2.1.0/24 own path - origin igp
";

/// The core of a case, as it starts.
pub fn started(alloc: Global, case: &str) -> Result<Box<Core>, Fail> {
    let recorded = recorded(alloc, network_of(alloc, case)?, case)?;
    match Core::start(alloc, recorded) {
        Ok(core) => Ok(Box::new(alloc, core)?),
        Err(_) => Err(Fail::new("no memory")),
    }
}

// So many events happen, or fewer, where nothing is left to do.
fn run(alloc: Global, core: &mut Core, times: u32) -> Result<(), Fail> {
    for _ in 0..times {
        match core.first() {
            Some(event) => core.step(alloc, event)?,
            None => return Ok(()),
        }
    }
    Ok(())
}

// The core of a case after its events.
fn ran(alloc: Global, case: &str) -> Result<Box<Core>, Fail> {
    let times = count(case, "events")?;
    let mut core = started(alloc, case)?;
    run(alloc, &mut core, times)?;
    Ok(core)
}

// The lines of steps, without that which names the format.
fn lines(alloc: Global, core: &Core, steps: &[Step]) -> Result<String, Fail> {
    let trace = String::from_utf8(write_trace(alloc, core.net(), steps)?)?;
    let lines = trace.strip_prefix("trace 1\n").ok_or("no trace")?;
    Ok(String::from_str(alloc, lines)?)
}

fn first(alloc: Global, core: &Core) -> Result<String, Fail> {
    match core.first() {
        Some(event) => lines(alloc, core, &[Step::Work(event)]),
        None => Ok(String::from_str(alloc, "none\n")?),
    }
}

fn standing(alloc: Global, core: &Core) -> Result<String, Fail> {
    let standing = core.standing();
    Ok(format!(in alloc; "standing {standing:?}\n")?)
}

fn pulled(alloc: Global, core: &Core) -> Result<String, Fail> {
    let pull = core.pull(alloc)?;
    Ok(String::from_utf8(print_pull(alloc, core.net(), 1, &pull)?)?)
}

fn told(alloc: Global, core: &Core) -> Result<String, Fail> {
    let mut text = lines(alloc, core, core.history())?;
    text.push_str("first ")?;
    text.push_str(&first(alloc, core)?)?;
    text.push_str(&standing(alloc, core)?)?;
    text.push_str(&pulled(alloc, core)?)?;
    Ok(text)
}

fn answer(alloc: Global, case: &str) -> Result<String, Fail> {
    let core = ran(alloc, case)?;
    told(alloc, &core)
}

#[test]
fn cores_are_told(rt: HostRuntime) -> Result<(), Fail> {
    compare(rt.alloc(), CASES, answer)
}

// The emulated devices, the rows, how many events happen, and the numbers of the ends of a session
// over which nothing can be sent.
const REFUSED: &str = "
# nothing is decided yet
devices t1 l1
links t1+l1
emulated t1 l1
events 0
from 0
to 1
gives Err(NotEnabled), and as many steps as before
# what is held was sent
devices t1 l1
links t1+l1
emulated t1 l1
events 2
from 0
to 1
gives Err(NotEnabled), and as many steps as before
# no session leads to a speaker
devices t1 l1
links t1+l1
emulated l1
record t1 10.1.1.0/24 own igp -
events 100
from 1
to 0
gives Err(NotEnabled), and as many steps as before
";

// What a send is answered, and whether it is a step.
fn sent(alloc: Global, core: &mut Core, from: DeviceId, to: DeviceId) -> Result<String, Fail> {
    let before = core.history().len();
    let answer = core.step(alloc, Event::Send { from, to });
    let steps = if core.history().len() == before {
        "as many"
    } else {
        "other"
    };
    Ok(format!(in alloc; "{answer:?}, and {steps} steps as before")?)
}

fn refused(alloc: Global, case: &str) -> Result<String, Fail> {
    let (from, to) = (count(case, "from")?, count(case, "to")?);
    let mut core = ran(alloc, case)?;
    sent(alloc, &mut core, DeviceId(from), DeviceId(to))
}

#[test]
fn events_are_refused(rt: HostRuntime) -> Result<(), Fail> {
    compare(rt.alloc(), REFUSED, refused)
}
