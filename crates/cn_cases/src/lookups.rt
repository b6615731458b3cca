//! What a network tells of its devices and links.

use cn_base::DeviceId;
use cn_given::build::{five, prefix};
use cn_given::tables::{count, given};
use cn_given::words::{compare, name_of, same};
use cn_net::Net;
use std::alloc::Global;
use std::test::Fail;

// Names, and the numbers of the devices that bear them.
const NUMBERS: &str = "
# the first
name t1
gives Some(DeviceId(0))
# the second
name t2
gives Some(DeviceId(1))
# the third
name l1
gives Some(DeviceId(2))
# the fourth
name l2
gives Some(DeviceId(3))
# the last
name s1
gives Some(DeviceId(4))
# none
name t3
gives None
# no name
gives None
";

fn found_in(alloc: Global, net: &Net, name: &str) -> Result<String, Fail> {
    net.valid();
    let device = net.find(name);
    Ok(format!(in alloc; "{device:?}")?)
}

fn found(alloc: Global, case: &str) -> Result<String, Fail> {
    found_in(alloc, &five(alloc)?, given(case, "name"))
}

#[test]
fn devices_are_found(rt: HostRuntime) -> Result<(), Fail> {
    compare(rt.alloc(), NUMBERS, found)
}

// What is told of each device: whether it is there, its name, its AS number, its router id, the
// ORIGIN with which it originates the second rack's prefix, and its neighbours, each with the place
// of the link. The last line is of the number behind all.
const TOLD: &str = "true t1 65101 a000001 None: l1 0, l2 1,
true t2 65102 a000002 Some(Igp): l1 2, l2 3,
true l1 65201 a000101 None: t1 0, t2 2, s1 4,
true l2 65201 a000102 None: t1 1, t2 3, s1 5,
true s1 65000 a000201 None: l1 4, l2 5,
false - 0 0 None:
";

fn head(alloc: Global, net: &Net, device: DeviceId) -> Result<String, Fail> {
    let (is_there, name) = (net.device(device).is_some(), name_of(net, device));
    let (asn, id) = (net.asn(device).0, net.router(device).0);
    Ok(format!(in alloc; "{is_there} {name} {asn} {id:x}")?)
}

fn own(alloc: Global, net: &Net, device: DeviceId) -> Result<String, Fail> {
    let origin = net.own_origin(device, &prefix("10.1.2.0/24")?);
    Ok(format!(in alloc; " {origin:?}:")?)
}

fn neighbours(alloc: Global, net: &Net, device: DeviceId) -> Result<String, Fail> {
    let mut text = String::new(alloc);
    for end in net.neighbours(device) {
        let (peer, place) = (name_of(net, end.device), end.link);
        text.push_str(&format!(in alloc; " {peer} {place},")?)?;
    }
    Ok(text)
}

// The same of all devices, and of the number behind them.
fn told(alloc: Global, net: &Net) -> Result<String, Fail> {
    let mut text = String::new(alloc);
    for number in 0..net.count().saturating_add(1) {
        let device = DeviceId(number);
        text.push_str(&head(alloc, net, device)?)?;
        text.push_str(&own(alloc, net, device)?)?;
        text.push_str(&neighbours(alloc, net, device)?)?;
        text.push_str("\n")?;
    }
    Ok(text)
}

fn number_of_all(alloc: Global, net: &Net) -> Result<String, Fail> {
    let (count, devices) = (net.count(), net.devices().len());
    Ok(format!(in alloc; "{count} {devices}")?)
}

#[test]
fn devices_are_told(rt: HostRuntime) -> Result<(), Fail> {
    same("each", &told(rt.alloc(), &five(rt.alloc())?)?, TOLD)?;
    same(
        "all",
        &number_of_all(rt.alloc(), &five(rt.alloc())?)?,
        "5 5",
    )
}

// The numbers of two devices, and whether the link between them is up.
const LINKED: &str = "
# first link
from 0
to 2
gives Some(true)
# by its other end
from 3
to 1
gives Some(true)
# last link
from 4
to 3
gives Some(true)
# a rack and the spine
from 0
to 4
gives None
# two racks
from 0
to 1
gives None
# the device itself
from 0
to 0
gives None
# no such device
from 0
to 5
gives None
";

fn linked_in(alloc: Global, net: &Net, case: &str) -> Result<String, Fail> {
    let (a, b) = (count(case, "from")?, count(case, "to")?);
    let link = net.link(DeviceId(a), DeviceId(b));
    Ok(format!(in alloc; "{link:?}")?)
}

fn linked(alloc: Global, case: &str) -> Result<String, Fail> {
    linked_in(alloc, &five(alloc)?, case)
}

#[test]
fn links_are_found(rt: HostRuntime) -> Result<(), Fail> {
    compare(rt.alloc(), LINKED, linked)
}
