//! What policies and links that are down do to what is offered and accepted (RFC 4271, 5.1.2 and
//! 9.1).

use cn_base::{AsPath, Asn, DeviceId, Entry, Origin, Route};
use cn_given::build::{device_of, links_of, made, name, prefix, with_peers};
use cn_given::tables::{all_given, cases, given, word};
use cn_given::words::{compare, same};
use cn_net::{Device, DeviceDraft, Net, PeerDraft, Policy};
use cn_plist::PrefixList;
use std::alloc::Global;
use std::test::Fail;

// What t1 lists for l1 as export, and how many copies more; what l1 lists for t1 as import; whether
// the link is up; and what t1 offers of its prefix: the length of the path, and whether l1 accepts
// it. A list is `none`, `denies` or `permits` this prefix, or is `empty`. A list that isn't the
// peer's has no effect.
const CASES: &str = "
# no lists
export none
prepend 0
import none
links t1+l1
gives 1 true
# a link that is down
export none
prepend 0
import none
links t1-l1
gives none
# two copies more
export none
prepend 2
import none
links t1+l1
gives 3 true
# 254 copies more
export none
prepend 254
import none
links t1+l1
gives 255 true
# 255 copies more are too many
export none
prepend 255
import none
links t1+l1
gives none
# export denies
export denies
prepend 0
import none
links t1+l1
gives none
# export permits
export permits
prepend 0
import none
links t1+l1
gives 1 true
# an empty export denies
export empty
prepend 0
import none
links t1+l1
gives none
# import denies
export none
prepend 0
import denies
links t1+l1
gives 1 false
# import permits
export none
prepend 0
import permits
links t1+l1
gives 1 true
# an empty import denies
export none
prepend 0
import empty
links t1+l1
gives 1 false
";

// The entries of the lists that have some: whether one permits, its prefix, and the lengths that it
// matches.
const LISTS: &str = "
# denies
entry deny 10.1.1.0/24 24 24
entry permit 0.0.0.0/0 0 32
# permits
entry permit 10.1.1.0/24 24 24
# empty
";

fn entry(text: &str) -> Result<Entry, Fail> {
    let (ge, le) = (word(text, 2).parse::<u8>()?, word(text, 3).parse::<u8>()?);
    let entry = Entry::new(word(text, 0) == "permit", prefix(word(text, 1))?, ge, le);
    Ok(entry.ok_or("no entry")?)
}

fn entries(alloc: Global, list: &str) -> Result<PrefixList, Fail> {
    let mut entries = Vec::new(alloc);
    for text in all_given(alloc, list, "entry")? {
        entries.push(entry(text)?)?;
    }
    Ok(PrefixList::make(entries))
}

// The prefix list of this name, where there is one.
fn list_of(alloc: Global, name: &str) -> Result<Option<PrefixList>, Fail> {
    for list in cases(alloc, LISTS)? {
        if word(list, 0) == name {
            return Ok(Some(entries(alloc, list)?));
        }
    }
    Ok(None)
}

/// A policy that changes nothing.
pub fn no_policy() -> Policy {
    Policy {
        import: None,
        export: None,
        prepend: 0,
    }
}

/// A policy for the peer of this name.
pub fn peer(alloc: Global, text: &str, policy: Policy) -> Result<PeerDraft, Fail> {
    Ok(PeerDraft {
        name: name(alloc, text)?,
        policy,
    })
}

// A policy with the lists of these names.
fn policy(alloc: Global, import: &str, export: &str, prepend: &str) -> Result<Policy, Fail> {
    let (import, export) = (list_of(alloc, import)?, list_of(alloc, export)?);
    let prepend = prepend.parse::<u8>()?;
    Ok(Policy {
        import,
        export,
        prepend,
    })
}

// The device of a word, with one policy.
fn with_policy(
    alloc: Global,
    device: &str,
    name: &str,
    policy: Policy,
) -> Result<DeviceDraft, Fail> {
    let device = device_of(alloc, device)?;
    let mut peers = Vec::new(alloc);
    peers.push(peer(alloc, name, policy)?)?;
    Ok(with_peers(device, peers))
}

// The devices t1 and l1, whose lists for each other are those of a case; what t1 lists as import
// and l1 as export denies everything, and is asked for nothing.
fn devices(alloc: Global, case: &str) -> Result<Vec<DeviceDraft>, Fail> {
    let sends = policy(
        alloc,
        "empty",
        given(case, "export"),
        given(case, "prepend"),
    )?;
    let takes = policy(alloc, given(case, "import"), "empty", "9")?;
    let mut devices = Vec::new(alloc);
    devices.push(with_policy(alloc, "t1", "l1", sends)?)?;
    devices.push(with_policy(alloc, "l1", "t1", takes)?)?;
    Ok(devices)
}

fn net(alloc: Global, case: &str) -> Result<Net, Fail> {
    let links = links_of(alloc, given(case, "links"))?;
    made(alloc, devices(alloc, case)?, links)
}

fn own_route(alloc: Global) -> Result<Route, Fail> {
    Ok(Route {
        prefix: prefix("10.1.1.0/24")?,
        path: AsPath::empty(alloc),
        origin: Origin::Igp,
    })
}

// The length of an offer's path, and whether the second device accepts it from the first.
fn offered(alloc: Global, net: &Net, offer: &Route) -> Result<String, Fail> {
    if offer.path.get(0) != Some(Asn(65101)) {
        return Err(Fail::new("another number in front"));
    }
    let (length, accepted) = (
        offer.path.len(),
        net.accept(DeviceId(1), DeviceId(0), offer),
    );
    Ok(format!(in alloc; "{length} {accepted}")?)
}

// What the first device offers to the second of its own route.
fn told_in(alloc: Global, net: &Net) -> Result<String, Fail> {
    let own = own_route(alloc)?;
    match net.offer(alloc, DeviceId(0), DeviceId(1), &own)? {
        Some(offer) => offered(alloc, net, &offer),
        None => Ok(String::from_str(alloc, "none")?),
    }
}

fn told(alloc: Global, case: &str) -> Result<String, Fail> {
    told_in(alloc, &net(alloc, case)?)
}

#[test]
fn policies_are_followed(rt: HostRuntime) -> Result<(), Fail> {
    compare(rt.alloc(), CASES, told)
}

// The lists of two devices that are copied.
const COPIED: &str = "
# lists of both kinds
export denies
prepend 3
import permits
links t1+l1
";

// A copy of a device, as it prints.
fn copied(alloc: Global, device: &Device) -> Result<String, Fail> {
    let copy = device.copy(alloc)?;
    Ok(format!(in alloc; "{copy:?}")?)
}

// The devices as they print.
fn printed(alloc: Global, net: &Net) -> Result<String, Fail> {
    let mut text = String::new(alloc);
    for device in net.devices() {
        text.push_str(&format!(in alloc; "{device:?}")?)?;
    }
    Ok(text)
}

// The same of copies.
fn copies(alloc: Global, net: &Net) -> Result<String, Fail> {
    let mut text = String::new(alloc);
    for device in net.devices() {
        text.push_str(&copied(alloc, device)?)?;
    }
    Ok(text)
}

// A copy prints as what it is a copy of.
#[test]
fn devices_are_copied(rt: HostRuntime) -> Result<(), Fail> {
    let copies = copies(rt.alloc(), &net(rt.alloc(), COPIED)?)?;
    same(
        "copies",
        &copies,
        &printed(rt.alloc(), &net(rt.alloc(), COPIED)?)?,
    )
}
