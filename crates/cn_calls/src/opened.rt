//! What the text of a plan names, and what it opens with.

use cn_given::pieces::text_of;
use cn_given::tables::given;
use cn_given::words::{self, compare};
use cn_open::{
    Named, OpenAnswer, OpenFault, PLAN_LIMIT, PlanFault, TextFault, name_plan, open_plan,
};
use cn_plan::Selection;
use cn_record::Recorded;
use cn_text::TextAnswer;
use std::alloc::Global;
use std::str;
use std::test::Fail;

// The pieces of a plan, what it names, and what it opens with.
const CASES: &str = "
# grown from a rack
plan grown t1 t2 l1 l2 s1 links record
gives
must t1 rows 1 devices 5
emulated t1 l1 l2 s1 islands - t2 - - - rows 1
# all by their names
plan all t1 t2 l1 l2 s1 links
gives
emulate t1 t2 l1 l2 s1 rows 0 devices 5
emulated t1 t2 l1 l2 s1 islands - - - - - rows 0
# the boundary is looked at last but one
plan three t1 t2 l1 l2 s1 links record
gives
emulate t1 l1 s1 rows 1 devices 5
facing Emulated t2: t1 65101 l1 65201
# the records are looked at last
plan grown t1 t2 l1 l2 s1 links wrong-record
gives
must t1 rows 1 devices 5
t2 10.1.2.0/24: held own path 65102 origin igp wanted own path - origin igp
# an empty text
gives
key version
key version
# a router id twice
plan grown t1 t2 l1 l2-same-id s1 links
gives
no network
no network
# an unknown name comes before a record twice
plan unknown t1 t2 l1 l2 s1 links record record
gives
unknown t9
unknown t9
# a record twice
plan grown t1 t2 l1 l2 s1 links record record
gives
twice 1 10.1.2.0/24
twice 1 10.1.2.0/24
";

fn selected(alloc: Global, plan: &Named) -> Result<String, Fail> {
    let (word, devices) = match &plan.selection {
        Selection::Emulate(devices) => ("emulate", devices),
        Selection::Must(devices) => ("must", devices),
    };
    let names = words::names(alloc, &plan.net, devices.items())?;
    Ok(format!(in alloc; "{word} {names}")?)
}

fn named(alloc: Global, plan: &Named) -> Result<String, Fail> {
    let selected = selected(alloc, plan)?;
    let (rows, devices) = (plan.saved.rows().len(), plan.draft.devices.len());
    Ok(format!(in alloc; "{selected} rows {rows} devices {devices}")?)
}

fn plan_fault(alloc: Global, fault: &PlanFault) -> Result<String, Fail> {
    match fault {
        PlanFault::Net(_) => Ok(String::from_str(alloc, "no network")?),
        PlanFault::Unknown(name) => {
            let name = name.text();
            Ok(format!(in alloc; "unknown {name}")?)
        }
        PlanFault::Repeat { device, prefix } => {
            let (number, prefix) = (device.0, words::prefix(alloc, prefix)?);
            Ok(format!(in alloc; "twice {number} {prefix}")?)
        }
        PlanFault::TooMany { count, .. } => Ok(format!(in alloc; "too many {count}")?),
    }
}

fn text_fault(alloc: Global, why: &TextFault) -> Result<String, Fail> {
    match why {
        TextFault::TooLong { limit } => Ok(format!(in alloc; "more than {limit}")?),
        TextFault::Bad(TextAnswer::Key { path }) => {
            let path = str::from_utf8(path.items())?;
            Ok(format!(in alloc; "key {path}")?)
        }
        TextFault::Bad(_) => Ok(String::from_str(alloc, "another fault")?),
    }
}

fn open_fault(alloc: Global, fault: &OpenFault) -> Result<String, Fail> {
    match fault {
        OpenFault::NoPlan(why) => text_fault(alloc, why),
        OpenFault::Net { fault, .. } => plan_fault(alloc, fault),
        OpenFault::Refused { net, refusal } => words::refusal(alloc, net, refusal),
        OpenFault::Unsound {
            net,
            device,
            prefix,
            held,
            wanted,
        } => words::unsound(alloc, net, *device, prefix, held, wanted),
    }
}

fn unopened(alloc: Global, answer: &OpenAnswer) -> Result<String, Fail> {
    match answer {
        OpenAnswer::Memory => Err(Fail::new("no memory")),
        OpenAnswer::Fault(fault) => open_fault(alloc, fault),
    }
}

fn naming(alloc: Global, answer: &Result<Named, OpenAnswer>) -> Result<String, Fail> {
    match answer {
        Ok(plan) => named(alloc, plan),
        Err(answer) => unopened(alloc, answer),
    }
}

fn opening(alloc: Global, answer: &Result<Recorded, OpenAnswer>) -> Result<String, Fail> {
    match answer {
        Ok(recorded) => words::recorded(alloc, recorded),
        Err(answer) => unopened(alloc, answer),
    }
}

fn names(alloc: Global, bytes: &[u8]) -> Result<String, Fail> {
    if bytes.len() > PLAN_LIMIT {
        return Err(Fail::new("too long"));
    }
    naming(alloc, &name_plan(alloc, bytes))
}

fn opens(alloc: Global, bytes: &[u8]) -> Result<String, Fail> {
    if bytes.len() > PLAN_LIMIT {
        return Err(Fail::new("too long"));
    }
    opening(alloc, &open_plan(alloc, bytes))
}

// What a text names, and what it opens with.
fn answer(alloc: Global, case: &str) -> Result<String, Fail> {
    let text = text_of(alloc, given(case, "plan"))?;
    let names = names(alloc, text.as_bytes())?;
    let opens = opens(alloc, text.as_bytes())?;
    Ok(format!(in alloc; "{names}\n{opens}\n")?)
}

#[test]
fn plans_are_opened(rt: HostRuntime) -> Result<(), Fail> {
    compare(rt.alloc(), CASES, answer)
}
