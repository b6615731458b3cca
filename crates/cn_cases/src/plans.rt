//! What is planned of a network, a selection and records.

ghost use Rattle.std.specs.Prelude.{All, IfOk};
ghost use Rattle.cn_net.specs.Network.{IsDevice};
ghost use Rattle.cn_plan.specs.Selected.{named};

use cn_given::build::{device, made, network_of, numbered_link, prefixes_from};
use cn_given::opening::{devices, saved};
use cn_given::tables::{all_given, count, given};
use cn_given::words::{self, compare};
use cn_net::{DeviceDraft, LinkDraft, Net};
use cn_plan::{Plan, PlanAnswer, Selection, plan};
use cn_record::Saved;
use std::alloc::Global;
use std::test::Fail;

// The devices, the links, what is selected (the devices behind `must`, or those that are emulated),
// the rows, and what is answered.
const CASES: &str = "
# grown from one rack
devices five
links five
selected must t1
record t2 10.1.2.0/24 own igp -
gives emulated t1 l1 l2 s1 islands - t2 - - - rows 1
# grown from both racks
devices five
links five
selected must t2 t1
gives emulated t1 t2 l1 l2 s1 islands - - - - - rows 0
# everything
devices five
links five
selected s1 l2 l1 t2 t1
gives emulated t1 t2 l1 l2 s1 islands - - - - - rows 0
# two AS numbers on the emulated side
devices five
links five
selected t1 l1 s1
record t2 10.1.2.0/24 own igp -
gives facing Emulated t2: t1 65101 l1 65201
# an emulated device originates a prefix of an island
devices t1-both t2 l1 l2 s1
links five
selected must t1
record t2 10.1.2.0/24 own igp -
gives origins t2 10.1.2.0/24: t2 t1
# a record with another path
devices five
links five
selected must t1
record t2 10.1.2.0/24 own igp 65102
gives t2 10.1.2.0/24: held own path 65102 origin igp wanted own path - origin igp
# nothing emulated and no record
devices five
links five
selected must
gives t1 10.1.1.0/24: held none wanted own path - origin igp
# a device without links is an island of its own
devices t1 t2 l1 l2 s1 x1
links five
selected must t1
record t2 10.1.2.0/24 own igp -
gives emulated t1 l1 l2 s1 islands - t2 - - - x1 rows 1
# links that are down join an island
devices five
links t1-l1 t2-l1 l1-s1
selected l2 s1
record t1 10.1.1.0/24 own igp -
record t2 10.1.2.0/24 own igp -
gives emulated l2 s1 islands t1 t1 t1 - - rows 2
";

fn selection(alloc: Global, net: &Net, text: &str) -> Result<Selection, Fail>
    ensures { IfOk result (λ selection. All (IsDevice net.now) (named selection)) }
{
    match text.strip_prefix("must") {
        Some(names) => Ok(Selection::Must(devices(alloc, net, names)?)),
        None => Ok(Selection::Emulate(devices(alloc, net, text)?)),
    }
}

fn unplanned(alloc: Global, answer: &PlanAnswer) -> Result<String, Fail> {
    match answer {
        PlanAnswer::TooMany { what, count } => Ok(format!(in alloc; "too many {what:?} {count}")?),
        PlanAnswer::Refused { net, refusal } => words::refusal(alloc, net, refusal),
        PlanAnswer::Unsound {
            net,
            device,
            prefix,
            held,
            wanted,
        } => words::unsound(alloc, net, *device, prefix, held, wanted),
        PlanAnswer::Memory => Err(Fail::new("no memory")),
    }
}

fn told(alloc: Global, answer: &Result<Plan, PlanAnswer>) -> Result<String, Fail> {
    match answer {
        Ok(plan) => words::recorded(alloc, &plan.recorded),
        Err(answer) => unplanned(alloc, answer),
    }
}

fn planned(alloc: Global, net: Net, selection: Selection, saved: Saved) -> Result<String, Fail>
    requires { All (IsDevice net) (named selection) }
{
    told(alloc, &plan(alloc, net, selection, saved))
}

// What is answered of a network, what is selected, and rows.
fn answer_in(alloc: Global, net: Net, text: &str, records: &[&str]) -> Result<String, Fail> {
    let saved = saved(alloc, &net, records)?;
    let selection = selection(alloc, &net, text)?;
    planned(alloc, net, selection, saved)
}

fn answer(alloc: Global, case: &str) -> Result<String, Fail> {
    let records = all_given(alloc, case, "record")?;
    answer_in(
        alloc,
        network_of(alloc, case)?,
        given(case, "selected"),
        &records,
    )
}

#[test]
fn plans_are_made_or_refused(rt: HostRuntime) -> Result<(), Fail> {
    compare(rt.alloc(), CASES, answer)
}

// ---- the limits

// Links that are down, from the device of this number to each of the second so many.
fn links_from(alloc: Global, links: &mut Vec<LinkDraft>, a: u32, linked: u32) -> Result<(), Fail> {
    for b in 0..linked {
        links.push(numbered_link(alloc, 'n', a, b.wrapping_add(linked), false)?)?;
    }
    Ok(())
}

// The same from each of the first so many devices.
fn links_between(alloc: Global, linked: u32) -> Result<Vec<LinkDraft>, Fail> {
    let mut links = Vec::new(alloc);
    for a in 0..linked {
        links_from(alloc, &mut links, a, linked)?;
    }
    Ok(links)
}

// The device of this number, of which the first originates so many prefixes.
fn nth_device(alloc: Global, number: u32, prefixes: u32) -> Result<DeviceDraft, Fail> {
    let text = format!(in alloc; "n{number}")?;
    let own = prefixes_from(alloc, 0, if number == 0 { prefixes } else { 0 })?;
    device(alloc, &text, 0, number.wrapping_add(1), number, own)
}

fn first_devices(alloc: Global, count: u32, prefixes: u32) -> Result<Vec<DeviceDraft>, Fail> {
    let mut devices = Vec::new(alloc);
    for number in 0..count {
        devices.push(nth_device(alloc, number, prefixes)?)?;
    }
    Ok(devices)
}

fn wide(alloc: Global, case: &str) -> Result<Net, Fail> {
    let devices = first_devices(alloc, count(case, "devices")?, count(case, "prefixes")?)?;
    made(
        alloc,
        devices,
        links_between(alloc, count(case, "linked")?)?,
    )
}

fn all_names(alloc: Global, net: &Net) -> Result<String, Fail> {
    let mut text = String::new(alloc);
    for device in net.devices() {
        text.push_str(device.name.text())?;
        text.push_str(" ")?;
    }
    Ok(text)
}

// What is answered where all devices are emulated.
fn answer_of_all(alloc: Global, net: Net) -> Result<String, Fail> {
    let names = all_names(alloc, &net)?;
    answer_in(alloc, net, &names, &[])
}

// The same, and of a plan that is made only that it is.
fn limited(alloc: Global, case: &str) -> Result<String, Fail> {
    let found = answer_of_all(alloc, wide(alloc, case)?)?;
    if found.starts_with("emulated ") {
        return Ok(String::from_str(alloc, "emulated")?);
    }
    Ok(found)
}

// How many devices are emulated, how many are linked to as many, how many prefixes there are, and
// what is answered.
const LIMITS: &str = "
# as many devices as may be
devices 1024
linked 0
prefixes 1
gives emulated
# a device more
devices 1025
linked 0
prefixes 1
gives too many Emulated 1025
# as many rows as may be
devices 128
linked 64
prefixes 2048
gives emulated
# a prefix more
devices 128
linked 64
prefixes 2049
gives too many Rows 16785408
";

#[test]
fn limits_are_told(rt: HostRuntime) -> Result<(), Fail> {
    compare(rt.alloc(), LIMITS, limited)
}
