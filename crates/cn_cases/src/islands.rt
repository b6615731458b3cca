//! The labels of islands, and sets of devices.

use cn_base::DeviceId;
use cn_given::build::{layered, links_of, numbered_link};
use cn_given::opening::{devices, labels};
use cn_given::tables::{count, given};
use cn_given::words::{self, compare, same};
use cn_net::{DeviceSet, Labels, Link, LinkDraft, Net};
use std::alloc::{AllocError, Global};
use std::test::Fail;

// A layer for each device, the links, the emulated devices, and the label of each device.
const CASES: &str = "
# a chain over a link that is down is one island
layers 0 0 0
links n1+n2 n0-n1
gives n0 n0 n0
# two devices that an emulated one alone joins
layers 0 0 0
links n0+n1 n1+n2
emulated n1
gives n0 - n2
# a device without links
layers 0 0 0
links n2+n0
gives n0 n1 n0
# a link joins two islands that earlier links made
layers 0 0 0 0 0
links n4+n3 n1+n2 n4+n2
emulated n0
gives - n1 n1 n1 n1
# no labels where all are emulated
layers 0 0
links n0+n1
emulated n1 n0 n1
gives - -
";

// The labels by following links.
fn followed(alloc: Global, net: &Net, names: &str) -> Result<String, Fail> {
    words::labels(alloc, net, &labels(alloc, net, names)?)
}

fn net(alloc: Global, case: &str) -> Result<Net, Fail> {
    let links = links_of(alloc, given(case, "links"))?;
    layered(alloc, given(case, "layers"), links)
}

fn labelled(alloc: Global, case: &str) -> Result<String, Fail> {
    followed(alloc, &net(alloc, case)?, given(case, "emulated"))
}

#[test]
fn islands_are_labelled(rt: HostRuntime) -> Result<(), Fail> {
    compare(rt.alloc(), CASES, labelled)
}

// ---- plain relabelling, as the definition has it: one link after another

fn label_at(labels: &[Option<DeviceId>], device: DeviceId) -> Option<DeviceId> {
    labels.get(device.0 as usize).copied().flatten()
}

// Puts the lesser label of the ends of a link in place of the greater.
fn join(labels: &mut [Option<DeviceId>], link: &Link) {
    if let (Some(x), Some(y)) = (label_at(labels, link.a), label_at(labels, link.b)) {
        let (low, high) = if x < y { (x, y) } else { (y, x) };
        for label in labels.iter_mut() {
            if *label == Some(high) {
                *label = Some(low);
            }
        }
    }
}

fn relabelled(alloc: Global, net: &Net, emulated: &DeviceSet) -> Result<Labels, AllocError> {
    let mut labels = Vec::new(alloc);
    for number in 0..net.count() {
        let device = DeviceId(number);
        labels.push((!emulated.holds(device)).then_some(device))?;
    }
    for link in net.links() {
        join(&mut labels, link);
    }
    Ok(Labels::make(labels))
}

// Links from each of sixty devices to the one that stands so many places on, of which each third is
// up.
fn stride(alloc: Global, places: u32) -> Result<Vec<LinkDraft>, Fail> {
    let mut links = Vec::new(alloc);
    for i in 0..60u32.saturating_sub(places) {
        links.push(numbered_link(alloc, 'n', i, i.wrapping_add(places), i % 3 == 0)?)?;
    }
    Ok(links)
}

fn strides(alloc: Global, near: u32, far: u32) -> Result<Vec<LinkDraft>, Fail> {
    let mut links = stride(alloc, near)?;
    for link in stride(alloc, far)? {
        links.push(link)?;
    }
    Ok(links)
}

// How far the links of sixty devices lead, the emulated devices, and whether both ways give the
// same labels.
const STRIDES: &str = "
# one stride
near 7
far 60
gives the same
# two that have a divisor
near 6
far 15
emulated n0 n5 n17 n40
gives the same
# the farther first
near 12
far 9
emulated n3 n4 n5 n20 n21 n22 n50
gives the same
# from the first devices to the last
near 59
far 58
emulated n1
gives the same
# rows of emulated devices
near 4
far 6
emulated n10 n11 n12 n13 n14 n15 n30 n32 n34 n36
gives the same
";

const SIXTY: &str = "0 0 0 0 0 0 0 0 0 0 0 0 0 0 0 0 0 0 0 0 0 0 0 0 0 0 0 0 0 0 \
    0 0 0 0 0 0 0 0 0 0 0 0 0 0 0 0 0 0 0 0 0 0 0 0 0 0 0 0 0 0";

fn sixty(alloc: Global, case: &str) -> Result<Net, Fail> {
    let links = strides(alloc, count(case, "near")?, count(case, "far")?)?;
    layered(alloc, SIXTY, links)
}

// The labels by plain relabelling.
fn plain(alloc: Global, net: &Net, names: &str) -> Result<String, Fail> {
    let emulated = devices(alloc, net, names)?;
    words::labels(alloc, net, &relabelled(alloc, net, &emulated)?)
}

// The labels by following links, if those by plain relabelling are others.
fn differing(alloc: Global, net: &Net, names: &str) -> Result<String, Fail> {
    let (followed, plain) = (followed(alloc, net, names)?, plain(alloc, net, names)?);
    if followed.as_str() == plain.as_str() {
        return Ok(String::from_str(alloc, "the same")?);
    }
    Ok(followed)
}

fn agrees(alloc: Global, case: &str) -> Result<String, Fail> {
    differing(alloc, &sixty(alloc, case)?, given(case, "emulated"))
}

#[test]
fn labels_are_as_by_relabelling(rt: HostRuntime) -> Result<(), Fail> {
    compare(rt.alloc(), STRIDES, agrees)
}

// ---- sets

// Which of five devices are in a set.
fn members(alloc: Global, set: &DeviceSet) -> Result<String, Fail> {
    let mut text = String::new(alloc);
    for number in 0..5 {
        text.push_str(if set.holds(DeviceId(number)) {
            " in"
        } else {
            " out"
        })?;
    }
    Ok(text)
}

// The names of a set, their number, and which devices are in it.
fn set_told(alloc: Global, net: &Net, set: &DeviceSet) -> Result<String, Fail> {
    let names = words::names(alloc, net, set.items())?;
    let (members, len) = (members(alloc, set)?, set.len());
    Ok(format!(in alloc; "{names}, {len}:{members}")?)
}

fn set_in(alloc: Global, net: &Net, names: &str) -> Result<String, Fail> {
    set_told(alloc, net, &devices(alloc, net, names)?)
}

// The same of a set of four devices.
fn told(alloc: Global, names: &str) -> Result<String, Fail> {
    set_in(alloc, &layered(alloc, "0 0 0 0", Vec::new(alloc))?, names)
}

// A set has each device once, in order, however the names stood.
#[test]
fn devices_stand_once_in_a_set(rt: HostRuntime) -> Result<(), Fail> {
    let found = told(rt.alloc(), "n3 n1 n3 n0 n1")?;
    same("a set", &found, "n0 n1 n3, 3: in in out in out")
}
