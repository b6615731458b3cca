//! Answers in words, and whether they are those of a case.

use crate::pieces::wanted_text;
use crate::tables::{cases, name};
use cn_base::{Choice, DeviceId, Prefix};
use cn_cert::Refusal;
use cn_net::{Labels, Net};
use cn_record::Recorded;
use cn_report::put_choice;
use cn_text::put_prefix;
use std::alloc::Global;
use std::test::Fail;

/// Fails, naming the case, where another text is found than its own.
pub fn same(case: &str, found: &str, text: &str) -> Result<(), Fail> {
    if found == text {
        return Ok(());
    }
    Err(Fail::new(format_args!("{case}: found {found}, wanted {text}")))
}

/// Fails, naming the case, where the answer for one of the table isn't what it wants.
pub fn compare<F: Fn(Global, &str) -> Result<String, Fail>>(
    alloc: Global,
    table: &str,
    answer: F,
) -> Result<(), Fail>
    requires { F.IsAlwaysCallable answer }
{
    for case in cases(alloc, table)? {
        same(
            name(case),
            &answer(alloc, case)?,
            &wanted_text(alloc, case)?,
        )?;
    }
    Ok(())
}

/// The name of a device, and a dash where there is no such device.
pub fn name_of(net: &Net, device: DeviceId) -> &str {
    match net.device(device) {
        Some(found) => found.name.text(),
        None => "-",
    }
}

/// The names of devices.
pub fn names(alloc: Global, net: &Net, devices: &[DeviceId]) -> Result<String, Fail> {
    let mut names: Vec<&str> = Vec::new(alloc);
    for device in devices {
        names.push(name_of(net, *device))?;
    }
    Ok(names.join(alloc, " ")?)
}

/// The name of each device's label, and a dash where it has none.
pub fn labels(alloc: Global, net: &Net, labels: &Labels) -> Result<String, Fail> {
    let mut names: Vec<&str> = Vec::new(alloc);
    for number in 0..net.count() {
        names.push(match labels.of(DeviceId(number)) {
            Some(label) => name_of(net, label),
            None => "-",
        })?;
    }
    Ok(names.join(alloc, " ")?)
}

/// A prefix, as it is written.
pub fn prefix(alloc: Global, prefix: &Prefix) -> Result<String, Fail> {
    let mut text = Vec::new(alloc);
    put_prefix(alloc, &mut text, prefix)?;
    Ok(String::from_utf8(text)?)
}

/// What a device holds, as it is written, and `none` where it holds nothing.
pub fn choice(alloc: Global, net: &Net, choice: Option<&Choice>) -> Result<String, Fail> {
    let mut text = Vec::new(alloc);
    match choice {
        Some(choice) => put_choice(alloc, &mut text, net, choice)?,
        None => text.extend_from_slice(b"none")?,
    }
    Ok(String::from_utf8(text)?)
}

/// Why a boundary isn't certified.
pub fn refusal(alloc: Global, net: &Net, refusal: &Refusal) -> Result<String, Fail> {
    match refusal {
        Refusal::Facing {
            side,
            island,
            a,
            a_asn,
            b,
            b_asn,
        } => {
            let (island, a, b) = (name_of(net, *island), name_of(net, *a), name_of(net, *b));
            let (one, other) = (a_asn.0, b_asn.0);
            Ok(format!(in alloc; "facing {side:?} {island}: {a} {one} {b} {other}")?)
        }
        Refusal::Origins {
            island,
            prefix: shared,
            inside,
            elsewhere,
        } => {
            let shared = prefix(alloc, shared)?;
            let (island, inside) = (name_of(net, *island), name_of(net, *inside));
            let elsewhere = name_of(net, *elsewhere);
            Ok(format!(in alloc; "origins {island} {shared}: {inside} {elsewhere}")?)
        }
    }
}

/// A device and a prefix whose record isn't sound, what is held and what is wanted.
pub fn unsound(
    alloc: Global,
    net: &Net,
    device: DeviceId,
    about: &Prefix,
    held: &Option<Choice>,
    wanted: &Option<Choice>,
) -> Result<String, Fail> {
    let (name, about) = (name_of(net, device), prefix(alloc, about)?);
    let held = choice(alloc, net, held.as_ref())?;
    let wanted = choice(alloc, net, wanted.as_ref())?;
    Ok(format!(in alloc; "{name} {about}: held {held} wanted {wanted}")?)
}

/// The emulated devices, the labels of all, and how many rows are recorded.
pub fn recorded(alloc: Global, recorded: &Recorded) -> Result<String, Fail> {
    let opening = recorded.certified();
    let net = opening.net();
    let emulated = names(alloc, net, opening.emulated().items())?;
    let labels = labels(alloc, net, opening.labels())?;
    let rows = recorded.rows().len();
    Ok(format!(in alloc; "emulated {emulated} islands {labels} rows {rows}")?)
}
