//! Which fault of the peers of a draft's devices is told.

use crate::faults::{fault_of, fault_with, many_devices};
use crate::policies::{no_policy, peer};
use cn_given::build::{device, draft, links_of, with_peers};
use cn_given::tables::{count, given};
use cn_given::words::compare;
use cn_net::{DeviceDraft, PeerDraft};
use std::alloc::Global;
use std::test::Fail;

// The peers of a sixth and of a seventh device, t3 and t4, one more link, and the fault.
const CASES: &str = "
# peers that are linked, later, or the device itself
sixth l1 t4 t3
link t3+l1
gives none
# no device of this name
sixth t1 t9
link t3+l1
gives Fault(UnknownName { name: Name { text: \"t9\" } })
# a peer twice
sixth t1 l1 t1
link t3+l1
gives Fault(DuplicatePeer { device: DeviceId(5), peer: DeviceId(0) })
# a name before a repeat
sixth t1 t9 t1
link t3+l1
gives Fault(UnknownName { name: Name { text: \"t9\" } })
# a repeat before a name
sixth t4 t4 t9
link t3+l1
gives Fault(DuplicatePeer { device: DeviceId(5), peer: DeviceId(6) })
# one device before another
sixth l1 l1
seventh t9
link t3+l1
gives Fault(DuplicatePeer { device: DeviceId(5), peer: DeviceId(2) })
# peers before links
seventh t9
link t8+l1
gives Fault(UnknownName { name: Name { text: \"t9\" } })
";

// Peers of these names, with policies that change nothing.
fn listed(alloc: Global, names: &str) -> Result<Vec<PeerDraft>, Fail> {
    let mut peers = Vec::new(alloc);
    for text in names.split_whitespace() {
        peers.push(peer(alloc, text, no_policy())?)?;
    }
    Ok(peers)
}

// A device that originates nothing, with peers of these names.
fn with_named(
    alloc: Global,
    text: &str,
    asn: u32,
    id: u32,
    names: &str,
) -> Result<DeviceDraft, Fail> {
    let device = device(alloc, text, 1, asn, id, Vec::new(alloc))?;
    Ok(with_peers(device, listed(alloc, names)?))
}

fn fault(alloc: Global, case: &str) -> Result<String, Fail> {
    let mut more = Vec::new(alloc);
    more.push(with_named(alloc, "t3", 65103, 3, given(case, "sixth"))?)?;
    more.push(with_named(alloc, "t4", 65104, 4, given(case, "seventh"))?)?;
    fault_with(alloc, more, links_of(alloc, given(case, "link"))?)
}

#[test]
fn faults_of_peers_are_told(rt: HostRuntime) -> Result<(), Fail> {
    compare(rt.alloc(), CASES, fault)
}

// The router id of a last device whose peer has no device's name, how many devices with five
// prefixes each stand before it, and the fault.
const LATE: &str = "
# too many prefixes before a peer's name
id 4000
devices 3277
gives Fault(TooMany { what: Prefixes, count: 16385 })
# a peer's name alone
id 4000
devices 3276
gives Fault(UnknownName { name: Name { text: \"t9\" } })
# a router id before both
id 3
devices 3277
gives Fault(DuplicateId { a: DeviceId(3), b: DeviceId(3277) })
";

fn late_fault(alloc: Global, case: &str) -> Result<String, Fail> {
    let mut devices = many_devices(alloc, count(case, "devices")?, 5)?;
    devices.push(with_named(alloc, "t3", 7, count(case, "id")?, "t9")?)?;
    fault_of(alloc, &draft(devices, Vec::new(alloc)))
}

#[test]
fn peers_come_after_the_number_of_prefixes(rt: HostRuntime) -> Result<(), Fail> {
    compare(rt.alloc(), LATE, late_fault)
}
