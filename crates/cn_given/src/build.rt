//! Small networks, from texts. What a draft is made of is known here alone.
//!
//! A device is a row `NAME:LAYER:AS NUMBER:ROUTER ID`, with each prefix that it originates behind
//! a colon more, and the ORIGIN of this behind `=` where it isn't IGP; or the word that stands for
//! such a row below. A link is `A+B` where it is up, and `A-B` where it is down.

use crate::tables::{given, number};
use cn_base::{Asn, Items, Name, Origin, Prefix, RouterId};
use cn_net::{BodyDraft, DeviceDraft, Draft, LinkDraft, Net, Own, PeerDraft};
use cn_text::{address_of, origin_of, prefix_of};
use std::alloc::Global;
use std::test::Fail;

// The devices that several cases share. Two racks, which originate a prefix each, two leaves of one
// AS above them, and a spine; racks that originate both prefixes or the other's; a leaf that
// originates one; a device beside these; a sixth device, and with a prefix twice; a seventh, and
// with the name of the first.
const DEVICES: &str = "
t1 t1:1:65101:10.0.0.1:10.1.1.0/24
t2 t2:1:65102:10.0.0.2:10.1.2.0/24
l1 l1:2:65201:10.0.1.1
l2 l2:2:65201:10.0.1.2
s1 s1:3:65000:10.0.2.1
t1-both t1:1:65101:10.0.0.1:10.1.1.0/24:10.1.2.0/24
t1-two t1:1:65101:10.0.0.1:10.1.2.0/24
t2-one t2:1:65102:10.0.0.2:10.1.1.0/24
t3-two t3:1:65103:10.0.0.3:10.1.2.0/24
l1-own l1:2:65201:10.0.1.1:10.2.1.0/24
x1 x1:1:65199:10.0.0.9
t3 t3:1:65103:10.0.0.3:10.1.3.0/24:10.1.4.0/24
t3-twice t3:1:65103:10.0.0.3:10.1.4.0/24:10.1.4.0/24
t4 t4:1:65104:10.0.0.4:10.1.5.0/24
t1-again t1:1:65104:10.0.0.4:10.1.5.0/24
";

/// Both racks, both leaves and the spine.
pub const FIVE: &str = "t1 t2 l1 l2 s1";

/// The links between these.
pub const FIVE_LINKS: &str = "t1+l1 t1+l2 t2+l1 t2+l2 l1+s1 l2+s1";

/// The name that a text is.
pub fn name(alloc: Global, text: &str) -> Result<Name, Fail> {
    Ok(Name::new(alloc, text)?.ok_or("no name")?)
}

/// The prefix that a text is.
pub fn prefix(text: &str) -> Result<Prefix, Fail> {
    Ok(prefix_of(text.as_bytes()).ok_or("no prefix")?)
}

/// The ORIGIN that a word is.
pub fn origin(text: &str) -> Result<Origin, Fail> {
    Ok(origin_of(text.as_bytes()).ok_or("no ORIGIN")?)
}

// A prefix that a device originates.
fn own(text: &str) -> Result<Own, Fail> {
    let (about, word) = text.split_once('=').unwrap_or((text, "igp"));
    Ok(Own {
        prefix: prefix(about)?,
        origin: origin(word)?,
    })
}

fn owns(alloc: Global, row: &str) -> Result<Vec<Own>, Fail> {
    let mut list = Vec::new(alloc);
    for text in row.split(':').skip(4) {
        list.push(own(text)?)?;
    }
    Ok(list)
}

/// The prefix of 24 bits of this number, which is that of its bits without the last eight.
pub fn prefix_of_number(number: u32) -> Result<Prefix, Fail> {
    Ok(Prefix::new(number.wrapping_mul(256), 24).ok_or("no prefix")?)
}

fn numbered(number: u32) -> Result<Own, Fail> {
    Ok(Own {
        prefix: prefix_of_number(number)?,
        origin: Origin::Igp,
    })
}

/// So many prefixes of 24 bits that a device originates, from the one of this number on.
pub fn prefixes_from(alloc: Global, first: u32, count: u32) -> Result<Vec<Own>, Fail> {
    let mut list = Vec::new(alloc);
    for number in 0..count {
        list.push(numbered(first.wrapping_add(number))?)?;
    }
    Ok(list)
}

/// A device that originates these prefixes.
pub fn device(
    alloc: Global,
    text: &str,
    layer: u8,
    asn: u32,
    id: u32,
    own: Vec<Own>,
) -> Result<DeviceDraft, Fail> {
    let name = name(alloc, text)?;
    let body = BodyDraft {
        asn: Asn(asn),
        own: Items::make(own),
        peers: Items::make(Vec::new(alloc)),
    };
    Ok(DeviceDraft {
        name,
        layer,
        id: RouterId(id),
        body,
    })
}

/// The device with these peers.
pub fn with_peers(device: DeviceDraft, peers: Vec<PeerDraft>) -> DeviceDraft {
    let mut device = device;
    device.body.peers = Items::make(peers);
    device
}

// The part of a row at this place.
fn part(row: &str, place: usize) -> &str {
    row.split(':').nth(place).unwrap_or("")
}

// The layer that a word is.
fn layer(text: &str) -> Result<u8, Fail> {
    Ok(text.parse::<u8>()?)
}

fn router(text: &str) -> Result<u32, Fail> {
    Ok(address_of(text.as_bytes()).ok_or("no router id")?)
}

fn device_in(alloc: Global, row: &str) -> Result<DeviceDraft, Fail> {
    let (layer, asn) = (layer(part(row, 1))?, number(part(row, 2))?);
    let id = router(part(row, 3))?;
    device(alloc, part(row, 0), layer, asn, id, owns(alloc, row)?)
}

/// The device that a word is, or stands for.
pub fn device_of(alloc: Global, word: &str) -> Result<DeviceDraft, Fail> {
    if word.contains(':') {
        device_in(alloc, word)
    } else {
        device_in(alloc, given(DEVICES, word))
    }
}

/// The devices that words are, or stand for.
pub fn devices_of(alloc: Global, words: &str) -> Result<Vec<DeviceDraft>, Fail> {
    let mut devices = Vec::new(alloc);
    for word in words.split_whitespace() {
        devices.push(device_of(alloc, word)?)?;
    }
    Ok(devices)
}

/// A link between two devices.
pub fn link(alloc: Global, a: &str, b: &str, up: bool) -> Result<LinkDraft, Fail> {
    let (a, b) = (name(alloc, a)?, name(alloc, b)?);
    Ok(LinkDraft { a, b, up })
}

/// A link between two devices of these numbers, whose names are a letter in front of them.
pub fn numbered_link(
    alloc: Global,
    letter: char,
    a: u32,
    b: u32,
    up: bool,
) -> Result<LinkDraft, Fail> {
    let a = format!(in alloc; "{letter}{a}")?;
    let b = format!(in alloc; "{letter}{b}")?;
    link(alloc, &a, &b, up)
}

fn link_of(alloc: Global, word: &str) -> Result<LinkDraft, Fail> {
    match word.split_once('+') {
        Some((a, b)) => link(alloc, a, b, true),
        None => {
            let (a, b) = word.split_once('-').ok_or("no link")?;
            link(alloc, a, b, false)
        }
    }
}

/// The links that words are.
pub fn links_of(alloc: Global, words: &str) -> Result<Vec<LinkDraft>, Fail> {
    let mut links = Vec::new(alloc);
    for word in words.split_whitespace() {
        links.push(link_of(alloc, word)?)?;
    }
    Ok(links)
}

/// The draft of these devices and links.
pub fn draft(devices: Vec<DeviceDraft>, links: Vec<LinkDraft>) -> Draft {
    Draft {
        devices: Items::make(devices),
        links: Items::make(links),
    }
}

/// The network of these devices and links.
pub fn made(alloc: Global, devices: Vec<DeviceDraft>, links: Vec<LinkDraft>) -> Result<Net, Fail> {
    Ok(Net::make(alloc, &draft(devices, links))?)
}

/// The network of the devices and links that words are.
pub fn network(alloc: Global, devices: &str, links: &str) -> Result<Net, Fail> {
    let devices = devices_of(alloc, devices)?;
    let links = links_of(alloc, links)?;
    made(alloc, devices, links)
}

/// The network of the five devices.
pub fn five(alloc: Global) -> Result<Net, Fail> {
    network(alloc, FIVE, FIVE_LINKS)
}

/// The network that a case gives: that of the five devices, or of its devices, and its links.
pub fn network_of(alloc: Global, case: &str) -> Result<Net, Fail> {
    let (devices, links) = (given(case, "devices"), given(case, "links"));
    let links = if links == "five" { FIVE_LINKS } else { links };
    network(alloc, if devices == "five" { FIVE } else { devices }, links)
}

// The device of this number, which originates nothing.
fn bare(alloc: Global, number: u32, word: &str) -> Result<DeviceDraft, Fail> {
    let text = format!(in alloc; "n{number}")?;
    let asn = number.wrapping_add(64512);
    device(alloc, &text, layer(word)?, asn, number, Vec::new(alloc))
}

/// A network of devices that originate nothing: n0, n1 and so on, with these layers, each with an
/// AS number of its own.
pub fn layered(alloc: Global, layers: &str, links: Vec<LinkDraft>) -> Result<Net, Fail> {
    let mut devices = Vec::new(alloc);
    let mut number = 0u32;
    for word in layers.split_whitespace() {
        devices.push(bare(alloc, number, word)?)?;
        number = number.wrapping_add(1);
    }
    made(alloc, devices, links)
}
