//! The sessions that an emulation keeps, and where they stand.

use cn_base::DeviceId;
use cn_given::build::five;
use cn_given::opening::devices;
use cn_given::words::same;
use cn_net::{Net, SessionEnds, SessionIndex};
use std::alloc::Global;
use std::test::Fail;

// The sessions where t1 and l1 are emulated, at each place the numbers of its ends, and the place
// that is found for these: into t1 from both leaves, and into l1 from both racks and the spine.
// Behind all there is none.
const ENDS: &str = "0: 0 2 Some(0)
1: 1 2 Some(1)
2: 2 0 Some(2)
3: 3 0 Some(3)
4: 4 2 Some(4)
5: none
";

// For each device, and the number behind all, the places of the sessions from it and into it.
const PLACES: &str = "0..1: 2 3
1..2:
2..3: 0 1 4
3..4:
4..5:
0..0:
";

fn index_of(alloc: Global, net: &Net) -> Result<SessionIndex, Fail> {
    let emulated = devices(alloc, net, "t1 l1")?;
    Ok(SessionIndex::make(alloc, net, &emulated)?)
}

fn index(alloc: Global) -> Result<SessionIndex, Fail> {
    index_of(alloc, &five(alloc)?)
}

// The numbers of the ends of a session, and the place that is found for these.
fn ends(alloc: Global, index: &SessionIndex, ends: &SessionEnds) -> Result<String, Fail> {
    let place = index.place(ends.from, ends.to);
    let (from, to) = (ends.from.0, ends.to.0);
    Ok(format!(in alloc; "{from} {to} {place:?}")?)
}

fn at_place(alloc: Global, index: &SessionIndex, place: usize) -> Result<String, Fail> {
    match index.ends(place) {
        Some(found) => ends(alloc, index, &found),
        None => Ok(String::from_str(alloc, "none")?),
    }
}

fn all_ends(alloc: Global, index: &SessionIndex) -> Result<String, Fail> {
    let mut text = String::new(alloc);
    for place in 0..index.len().saturating_add(1) {
        let ends = at_place(alloc, index, place)?;
        text.push_str(&format!(in alloc; "{place}: {ends}\n")?)?;
    }
    Ok(text)
}

// The place of a session between two devices that keep none.
fn no_place(alloc: Global, index: &SessionIndex) -> Result<String, Fail> {
    let place = index.place(DeviceId(0), DeviceId(3));
    Ok(format!(in alloc; "{place:?}")?)
}

#[test]
fn sessions_ascend(rt: HostRuntime) -> Result<(), Fail> {
    let index = index(rt.alloc())?;
    index.valid();
    same("ends", &all_ends(rt.alloc(), &index)?, ENDS)?;
    same("no session", &no_place(rt.alloc(), &index)?, "None")
}

fn told(alloc: Global, index: &SessionIndex, device: DeviceId) -> Result<String, Fail> {
    let from = index.from(device);
    let (start, end) = (from.start, from.end);
    let mut text = format!(in alloc; "{start}..{end}:")?;
    for place in index.into(device) {
        text.push_str(&format!(in alloc; " {place}")?)?;
    }
    Ok(text)
}

fn all_places(alloc: Global, index: &SessionIndex) -> Result<String, Fail> {
    let mut text = String::new(alloc);
    for number in 0..6 {
        text.push_str(&told(alloc, index, DeviceId(number))?)?;
        text.push_str("\n")?;
    }
    Ok(text)
}

#[test]
fn sessions_stand_by_their_ends(rt: HostRuntime) -> Result<(), Fail> {
    let index = index(rt.alloc())?;
    same("places", &all_places(rt.alloc(), &index)?, PLACES)
}
