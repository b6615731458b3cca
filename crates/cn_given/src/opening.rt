//! Openings: a network, the devices that are emulated, by their names, and what is recorded of the
//! others.

ghost use Rattle.std.specs.Prelude.{All, IfOk};
ghost use Rattle.cn_net.specs.Network.{IsDevice};

use crate::build::{origin, prefix};
use crate::tables::{all_given, given};
use cn_base::{AsPath, Choice, DeviceId};
use cn_cert::{Uncertified, certify};
use cn_island::islands;
use cn_net::laws::islands_are_a_labelling;
use cn_net::{Certified, DeviceSet, Labels, Net};
use cn_record::{Recorded, Row, Saved, check};
use cn_text::path_of;
use std::alloc::Global;
use std::test::Fail;

/// The devices with these names.
pub fn devices(alloc: Global, net: &Net, names: &str) -> Result<DeviceSet, Fail>
    ensures { IfOk result (λ set. All (IsDevice net.now) set) }
{
    let mut devices = Vec::new(alloc);
    for name in names.split_whitespace() {
        devices.push(net.find(name).ok_or("no device")?)?;
    }
    Ok(DeviceSet::make(net, devices))
}

/// The labels of the islands where these devices are emulated.
pub fn labels(alloc: Global, net: &Net, names: &str) -> Result<Labels, Fail> {
    let emulated = devices(alloc, net, names)?;
    Ok(islands(alloc, net, &emulated)?)
}

/// The device with this name.
pub fn device(net: &Net, name: &str) -> Result<DeviceId, Fail> {
    Ok(net.find(name).ok_or("no device")?)
}

fn sender(net: &Net, name: &str) -> Result<Option<DeviceId>, Fail> {
    if name == "own" {
        return Ok(None);
    }
    Ok(Some(device(net, name)?))
}

/// The path of these AS numbers.
pub fn path(alloc: Global, text: &str) -> Result<AsPath, Fail> {
    Ok(path_of(alloc, text.as_bytes())?.ok_or("no path")?)
}

/// What a device holds: from whom the route came (`own` where it is the device's own), its ORIGIN,
/// and its path.
pub fn choice(alloc: Global, net: &Net, text: &str) -> Result<Choice, Fail> {
    let (from, more) = text.split_once(' ').ok_or("no ORIGIN")?;
    let (lowness, numbers) = more.split_once(' ').ok_or("no path")?;
    let path = path(alloc, numbers)?;
    Ok(Choice {
        from: sender(net, from)?,
        path,
        origin: origin(lowness)?,
    })
}

// The row of a text: a device, a prefix, and what the device holds.
fn row(alloc: Global, net: &Net, text: &str) -> Result<Row, Fail> {
    let (name, more) = text.split_once(' ').ok_or("no prefix")?;
    let (about, held) = more.split_once(' ').ok_or("nothing held")?;
    let choice = choice(alloc, net, held)?;
    Ok(Row {
        device: device(net, name)?,
        prefix: prefix(about)?,
        choice,
    })
}

/// Rows as they are recorded.
pub fn rows(alloc: Global, net: &Net, list: &[&str]) -> Result<Vec<Row>, Fail> {
    let mut rows = Vec::new(alloc);
    for text in list {
        rows.push(row(alloc, net, text)?)?;
    }
    Ok(rows)
}

/// The rows that a case gives, each once.
pub fn saved(alloc: Global, net: &Net, list: &[&str]) -> Result<Saved, Fail> {
    Ok(Saved::make(rows(alloc, net, list)?)?)
}

/// The network with these emulated devices, behind a certified boundary, or why it gets no
/// certificate.
pub fn certificate(
    alloc: Global,
    net: Net,
    names: &str,
) -> Result<Result<Certified, Uncertified>, Fail> {
    let emulated = devices(alloc, &net, names)?;
    let labels = islands(alloc, &net, &emulated)?;
    islands_are_a_labelling();
    Ok(certify(alloc, net, emulated, labels))
}

/// The network with these emulated devices, behind a certified boundary.
pub fn certified(alloc: Global, net: Net, names: &str) -> Result<Certified, Fail> {
    Ok(certificate(alloc, net, names)?.ok().ok_or("not certified")?)
}

// The certified opening with rows that are sound.
fn sound(alloc: Global, certified: Certified, saved: Saved) -> Result<Recorded, Fail> {
    Ok(check(alloc, certified, saved).ok().ok_or("not sound")?)
}

/// The network of a case with the emulated devices and the sound rows that it gives.
pub fn recorded(alloc: Global, net: Net, case: &str) -> Result<Recorded, Fail> {
    let list = all_given(alloc, case, "record")?;
    let saved = saved(alloc, &net, &list)?;
    sound(
        alloc,
        certified(alloc, net, given(case, "emulated"))?,
        saved,
    )
}
