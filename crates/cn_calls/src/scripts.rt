//! What scripts answer, and the traces that they leave.

use crate::events::started;
use cn_change::{Command, Script};
use cn_core::{Answer, Core};
use cn_given::build::network_of;
use cn_given::opening::recorded;
use cn_given::pieces::{text_of, wanted_text};
use cn_given::tables::given;
use cn_given::words::compare;
use cn_net::Net;
use cn_readscript::read_script;
use cn_report::print_answer;
use cn_serial::{Ran, after_command, run_serial};
use cn_trace::write_trace;
use std::alloc::Global;
use std::test::Fail;

// The devices, the links, the emulated devices, the rows, the script, and its answers. That the
// lower ORIGIN goes before the lower router id is RFC 4271, 9.1.2.2: b goes before f.
const ANSWERS: &str = "
# a rack and the leaf above it
devices t1 l1
links t1+l1
emulated t1 l1
script two-then-all
gives
1 work done
2 pull again mailbox t1 l1
3 work done
4 pull quiet
table t1
10.1.1.0/24 own path - origin igp
table l1
10.1.1.0/24 from t1 path 65101 origin igp
# no commands
devices t1 l1
links t1+l1
emulated t1 l1
script no-commands
# beside a speaker, one event after another
devices five
links five
emulated t1 l1 l2 s1
record t2 10.1.2.0/24 own igp -
script one-by-one
puts again
# beside a speaker, until nothing is left to do
devices five
links five
emulated t1 l1 l2 s1
record t2 10.1.2.0/24 own igp -
script until-quiet
puts four-tables
# the lower ORIGIN goes before the lower router id
devices t1:1:65101:10.0.0.1:10.9.0.0/16=incomplete t2:1:65102:10.0.0.2:10.9.0.0/16 s1
links t1+s1 t2+s1
emulated t1 t2 s1
script until-quiet
gives
1 work done
2 pull quiet
table t1
10.9.0.0/16 own path - origin incomplete
table t2
10.9.0.0/16 own path - origin igp
table s1
10.9.0.0/16 from t2 path 65102 origin igp
";

fn script(alloc: Global, case: &str) -> Result<Script, Fail> {
    let text = text_of(alloc, given(case, "script"))?;
    Ok(read_script(alloc, text.as_bytes())?)
}

fn ran(alloc: Global, case: &str) -> Result<Ran, Fail> {
    let script = script(alloc, case)?;
    let recorded = recorded(alloc, network_of(alloc, case)?, case)?;
    Ok(run_serial(alloc, recorded, &script)?)
}

// The text of an answer.
fn printed(
    alloc: Global,
    net: &Net,
    k: u32,
    command: &Command,
    answer: &Answer,
) -> Result<String, Fail> {
    Ok(String::from_utf8(print_answer(alloc, net, k, command, answer)?)?)
}

// The texts of the answers, one after another.
fn texts(alloc: Global, script: &Script, ran: &Ran) -> Result<String, Fail> {
    let mut k = 1u32;
    let mut texts = String::new(alloc);
    for (command, answer) in script.items().iter().zip(ran.answers.items()) {
        texts.push_str(&printed(alloc, ran.core.net(), k, command, answer)?)?;
        k = k.wrapping_add(1);
    }
    Ok(texts)
}

fn answers(alloc: Global, case: &str) -> Result<String, Fail> {
    let script = script(alloc, case)?;
    texts(alloc, &script, &ran(alloc, case)?)
}

#[test]
fn scripts_are_answered(rt: HostRuntime) -> Result<(), Fail> {
    compare(rt.alloc(), ANSWERS, answers)
}

// The texts of the answers, where each answer is dropped before the next command is run.
fn told(alloc: Global, core: &mut Core, script: &Script) -> Result<String, Fail> {
    let mut k = 1u32;
    let mut texts = String::new(alloc);
    for command in script.items() {
        let answer = after_command(alloc, core, k, command)?;
        texts.push_str(&printed(alloc, core.net(), k, command, &answer)?)?;
        k = k.wrapping_add(1);
    }
    Ok(texts)
}

fn told_of(alloc: Global, case: &str) -> Result<String, Fail> {
    let script = script(alloc, case)?;
    let mut core = started(alloc, case)?;
    told(alloc, &mut core, &script)
}

#[test]
fn commands_are_answered_one_by_one(rt: HostRuntime) -> Result<(), Fail> {
    compare(rt.alloc(), ANSWERS, told_of)
}

// The devices, the links, the emulated devices, the rows, the script, and its trace.
const TRACES: &str = "
# an exchange of a rack and the leaf above it
devices t1 l1
links t1+l1
emulated t1 l1
script until-quiet
puts trace
# no commands
devices t1 l1
links t1+l1
emulated t1 l1
script no-commands
puts trace-of-nothing
# beside a speaker, one event after another
devices five
links five
emulated t1 l1 l2 s1
record t2 10.1.2.0/24 own igp -
script one-by-one
puts trace-of-one-by-one
";

fn trace_of(alloc: Global, ran: &Ran) -> Result<String, Fail> {
    let octets = write_trace(alloc, ran.core.net(), ran.core.history())?;
    Ok(String::from_utf8(octets)?)
}

fn trace(alloc: Global, case: &str) -> Result<String, Fail> {
    trace_of(alloc, &ran(alloc, case)?)
}

#[test]
fn scripts_are_traced(rt: HostRuntime) -> Result<(), Fail> {
    compare(rt.alloc(), TRACES, trace)
}
