//! Which fault of a draft is told, and that it is the first.

use cn_given::build::{
    FIVE, FIVE_LINKS, device, devices_of, draft, links_of, numbered_link, prefixes_from,
};
use cn_given::tables::{count, given};
use cn_given::words::compare;
use cn_net::{DeviceDraft, Draft, LinkDraft, Net, NetAnswer};
use std::alloc::Global;
use std::test::Fail;

// What stands behind five devices and behind their links, and the fault.
const CASES: &str = "
# a sixth device
devices t3
gives none
# a name twice
devices l2:1:65103:10.0.0.3:10.1.3.0/24:10.1.4.0/24
gives Fault(DuplicateName { name: Name { text: \"l2\" } })
# a router id twice
devices t3:1:65103:10.0.1.1:10.1.3.0/24:10.1.4.0/24
gives Fault(DuplicateId { a: DeviceId(2), b: DeviceId(5) })
# an own prefix twice
devices t3-twice
gives Fault(DuplicateOwn { device: DeviceId(5), prefix: Prefix { bits: 167838720, len: 24 } })
# a name before a router id and a prefix
devices t1:1:65103:10.0.0.1:10.1.4.0/24:10.1.4.0/24
gives Fault(DuplicateName { name: Name { text: \"t1\" } })
# a router id before a prefix
devices t3:1:65103:10.0.0.1:10.1.4.0/24:10.1.4.0/24
gives Fault(DuplicateId { a: DeviceId(0), b: DeviceId(5) })
# a seventh link
links t1+s1
gives none
# both ends unknown
links t3+t4
gives Fault(UnknownName { name: Name { text: \"t3\" } })
# the second end unknown
links t1+t4
gives Fault(UnknownName { name: Name { text: \"t4\" } })
# one device at both ends
links t2+t2
gives Fault(SelfLink { device: DeviceId(1) })
# a link twice
links t2+l1
gives Fault(DuplicateLink { a: DeviceId(1), b: DeviceId(2) })
# a link twice, turned round
links l1+t2
gives Fault(DuplicateLink { a: DeviceId(2), b: DeviceId(1) })
# one AS number at both ends
links l2+l1
gives Fault(SameAs { a: DeviceId(3), b: DeviceId(2) })
# seven devices
devices t3 t4
links t3+l1 t4+l1
gives none
# a name before links
devices l2:1:65103:10.0.0.1:10.1.3.0/24:10.1.4.0/24 t4
links t3+l1 t4+l1
gives Fault(DuplicateName { name: Name { text: \"l2\" } })
# a router id before a prefix of the same device
devices t3:1:65103:10.0.1.1:10.1.4.0/24:10.1.4.0/24 t4
links t3+l1 t4+l1
gives Fault(DuplicateId { a: DeviceId(2), b: DeviceId(5) })
# a router id before the name of a later device
devices t3:1:65103:10.0.1.1:10.1.3.0/24:10.1.4.0/24 t1-again
links t3+l1 t4+l1
gives Fault(DuplicateId { a: DeviceId(2), b: DeviceId(5) })
# a prefix before the name of a later device
devices t3-twice t1-again
links t3+l1 t4+l1
gives Fault(DuplicateOwn { device: DeviceId(5), prefix: Prefix { bits: 167838720, len: 24 } })
# the name of a later device before links
devices t3 t1-again
links t9+l1 t4+l1
gives Fault(DuplicateName { name: Name { text: \"t1\" } })
# a prefix before links
devices t3-twice t4
links t1+t1 t4+l1
gives Fault(DuplicateOwn { device: DeviceId(5), prefix: Prefix { bits: 167838720, len: 24 } })
# the first end before the second
devices t3 t4
links t9+t8 t4+l1
gives Fault(UnknownName { name: Name { text: \"t9\" } })
# the first link before the second
devices t3 t4
links t1+t9 t8+l1
gives Fault(UnknownName { name: Name { text: \"t9\" } })
# one device at both ends before a later unknown end
devices t3 t4
links t4+t4 t9+l1
gives Fault(SelfLink { device: DeviceId(6) })
# a link twice before a later link
devices t3 t4
links l1+t1 t4+t4
gives Fault(DuplicateLink { a: DeviceId(2), b: DeviceId(0) })
# one AS number before the same link again
devices t3 t4
links l1+l2 l2+l1
gives Fault(SameAs { a: DeviceId(2), b: DeviceId(3) })
";

fn printed(alloc: Global, answer: &NetAnswer) -> Result<String, Fail> {
    Ok(format!(in alloc; "{answer:?}")?)
}

fn told(alloc: Global, answer: &Result<Net, NetAnswer>) -> Result<String, Fail> {
    match answer {
        Ok(_) => Ok(String::from_str(alloc, "none")?),
        Err(answer) => printed(alloc, answer),
    }
}

/// The fault that is answered, as its `Debug` prints it.
pub fn fault_of(alloc: Global, draft: &Draft) -> Result<String, Fail> {
    told(alloc, &Net::make(alloc, draft))
}

/// The fault of a draft of the five devices and more, with their links and more.
pub fn fault_with(
    alloc: Global,
    more: Vec<DeviceDraft>,
    links: Vec<LinkDraft>,
) -> Result<String, Fail> {
    let mut all = devices_of(alloc, FIVE)?;
    let mut all_links = links_of(alloc, FIVE_LINKS)?;
    for device in more {
        all.push(device)?;
    }
    for link in links {
        all_links.push(link)?;
    }
    fault_of(alloc, &draft(all, all_links))
}

fn fault(alloc: Global, case: &str) -> Result<String, Fail> {
    let more = devices_of(alloc, given(case, "devices"))?;
    fault_with(alloc, more, links_of(alloc, given(case, "links"))?)
}

#[test]
fn first_faults_are_told(rt: HostRuntime) -> Result<(), Fail> {
    compare(rt.alloc(), CASES, fault)
}

// ---- the limits

// The device of this number, with as many prefixes that no other has.
fn nth_device(alloc: Global, number: u32, each: u32) -> Result<DeviceDraft, Fail> {
    let text = format!(in alloc; "d{number}")?;
    let own = prefixes_from(alloc, number.wrapping_mul(each), each)?;
    device(alloc, &text, 1, number, number, own)
}

/// So many devices, with as many prefixes each that no other has.
pub fn many_devices(alloc: Global, count: u32, each: u32) -> Result<Vec<DeviceDraft>, Fail> {
    let mut devices = Vec::new(alloc);
    for number in 0..count {
        devices.push(nth_device(alloc, number, each)?)?;
    }
    Ok(devices)
}

// So many links, each from a device to an earlier one: each device has links to all earlier ones
// before the next has some.
fn many_links(alloc: Global, count: u32) -> Result<Vec<LinkDraft>, Fail> {
    let mut links = Vec::new(alloc);
    let (mut a, mut b) = (1u32, 0u32);
    for _ in 0..count {
        links.push(numbered_link(alloc, 'd', a, b, true)?)?;
        b = b.wrapping_add(1);
        if a == b {
            (a, b) = (a.wrapping_add(1), 0);
        }
    }
    Ok(links)
}

// Numbers of devices, of prefixes of each and of links, and the fault.
const LIMITS: &str = "
# as many as may be
devices 4096
each 4
links 16384
gives none
# a device more
devices 4097
each 0
links 0
gives Fault(TooMany { what: Devices, count: 4097 })
# a link more
devices 200
each 0
links 16385
gives Fault(TooMany { what: Links, count: 16385 })
# a prefix more
devices 3277
each 5
links 0
gives Fault(TooMany { what: Prefixes, count: 16385 })
# too many of each
devices 4097
each 5
links 16385
gives Fault(TooMany { what: Devices, count: 4097 })
# too many prefixes before a link of a device that isn't there
devices 100
each 164
links 4951
gives Fault(TooMany { what: Prefixes, count: 16400 })
# a link of a device that isn't there
devices 100
each 1
links 4951
gives Fault(UnknownName { name: Name { text: \"d100\" } })
";

fn fault_of_many(alloc: Global, case: &str) -> Result<String, Fail> {
    let devices = many_devices(alloc, count(case, "devices")?, count(case, "each")?)?;
    let links = many_links(alloc, count(case, "links")?)?;
    fault_of(alloc, &draft(devices, links))
}

#[test]
fn limits_are_told(rt: HostRuntime) -> Result<(), Fail> {
    compare(rt.alloc(), LIMITS, fault_of_many)
}
