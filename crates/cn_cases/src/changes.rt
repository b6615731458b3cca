//! Networks after a change: another state of a link, and a body anew.

use cn_base::DeviceId;
use cn_given::build::{five, prefix};
use cn_given::opening::device;
use cn_given::tables::{given, word};
use cn_given::words::{compare, name_of, same};
use cn_net::Net;
use std::alloc::Global;
use std::test::Fail;

// For each link its ends, behind a sign that says whether it is up.
fn links(alloc: Global, net: &Net) -> Result<String, Fail> {
    let mut text = String::new(alloc);
    for link in net.links() {
        let (a, b) = (name_of(net, link.a), name_of(net, link.b));
        let sign = if link.up { '+' } else { '-' };
        text.push_str(&format!(in alloc; "{sign}{a}{b}")?)?;
    }
    Ok(text)
}

// The links of a copy of the five devices' network, the number of the spine, and the ORIGIN with
// which the second rack originates its prefix.
fn told(alloc: Global, copy: &Net) -> Result<String, Fail> {
    let (links, found) = (links(alloc, copy)?, copy.find("s1"));
    let origin = copy.own_origin(DeviceId(1), &prefix("10.1.2.0/24")?);
    Ok(format!(in alloc; "{links} {found:?} {origin:?}")?)
}

fn copy(alloc: Global) -> Result<Net, Fail> {
    Ok(five(alloc)?.copy(alloc)?)
}

fn copied(alloc: Global) -> Result<String, Fail> {
    told(alloc, &copy(alloc)?)
}

#[test]
fn networks_are_copied(rt: HostRuntime) -> Result<(), Fail> {
    let wanted = "+t1l1+t1l2+t2l1+t2l2+l1s1+l2s1 Some(DeviceId(4)) Some(Igp)";
    same("a copy", &copied(rt.alloc())?, wanted)
}

// Two devices, the state that the link between them gets, and the links then.
const TURNED: &str = "
# down, of the first rack
ends t1 l1
state down
gives -t1l1+t1l2+t2l1+t2l2+l1s1+l2s1
# down, by its other end
ends s1 l2
state down
gives +t1l1+t1l2+t2l1+t2l2+l1s1-l2s1
# up, as it was
ends l2 t1
state up
gives +t1l1+t1l2+t2l1+t2l2+l1s1+l2s1
";

// The network with another state of the link between two devices.
fn with_state(net: Net, a: DeviceId, b: DeviceId, up: bool) -> Result<Net, Fail> {
    if net.link(a, b).is_none() {
        return Err(Fail::new("no link"));
    }
    Ok(net.with_link(a, b, up))
}

fn ends(net: &Net, names: &str) -> Result<(DeviceId, DeviceId), Fail> {
    Ok((device(net, word(names, 0))?, device(net, word(names, 1))?))
}

fn turned_net(alloc: Global, case: &str) -> Result<Net, Fail> {
    let net = five(alloc)?;
    let (a, b) = ends(&net, given(case, "ends"))?;
    with_state(net, a, b, given(case, "state") == "up")
}

fn turned(alloc: Global, case: &str) -> Result<String, Fail> {
    links(alloc, &turned_net(alloc, case)?)
}

#[test]
fn links_are_turned(rt: HostRuntime) -> Result<(), Fail> {
    compare(rt.alloc(), TURNED, turned)
}
