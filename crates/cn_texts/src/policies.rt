//! What is read of the policies of a plan, and of what its devices originate.

use crate::words::{fault, prefix_text, same};
use cn_base::Prefix;
use cn_net::{DeviceDraft, PeerDraft};
use cn_plist::PrefixList;
use cn_readnet::{NetText, read_net};
use std::alloc::Global;
use std::test::Fail;

// A table of cases: what stands in front of its texts and behind them, and the texts, each with
// what is read of it: the first device in words, or the kind of the first fault with its path.
type Table = (
    &'static str,
    &'static str,
    &'static [(&'static str, &'static str)],
);

const TABLES: &[Table] = &[
    (OWN, "\"]\n", OWNS),
    (ENTRY, "\"]\n", ENTRIES),
    (PEER, "", PEERS),
    (DEVICE, "", KEYS),
];

// A device, and what it originates.
const DEVICE: &str = "version = 1\nemulate = []\n[[device]]\nname = \"a\"\nlayer = 1\nasn = 1\n\
    id = \"1.2.3.4\"\n";

const OWN: &str = "version = 1\nemulate = []\n[[device]]\nname = \"a\"\nlayer = 1\nasn = 1\n\
    id = \"1.2.3.4\"\nown = [\"";

const OWNS: &[(&str, &str)] = &[
    ("10.1.1.0/24", "a 10.1.1.0/24 Igp"),
    ("10.1.1.0/24 igp", "a 10.1.1.0/24 Igp"),
    ("10.1.1.0/24 egp", "a 10.1.1.0/24 Egp"),
    ("0.0.0.0/0 incomplete", "a 0.0.0.0/0 Incomplete"),
    (
        "10.1.1.0/24 egp\", \"10.1.1.0/25\",\"10.1.1.0/24 incomplete",
        "a 10.1.1.0/24 Egp 10.1.1.0/25 Igp 10.1.1.0/24 Incomplete",
    ),
    ("", "value device[0].own[0]"),
    ("igp", "value device[0].own[0]"),
    (" 10.1.1.0/24", "value device[0].own[0]"),
    ("10.1.1.0/24 ", "value device[0].own[0]"),
    ("10.1.1.0/24  igp", "value device[0].own[0]"),
    ("10.1.1.0/24igp", "value device[0].own[0]"),
    ("10.1.1.0/24 IGP", "value device[0].own[0]"),
    ("10.1.1.0/24 igp ", "value device[0].own[0]"),
    ("10.1.1.0/24 igp egp", "value device[0].own[0]"),
    ("10.1.1.1/24 igp", "value device[0].own[0]"),
    ("10.1.1.0/33", "value device[0].own[0]"),
    ("10.1.1.0/24,igp", "value device[0].own[0]"),
    (
        "10.1.1.0/24\", \"10.1.1.0/24 bgp\",\"",
        "value device[0].own[1]",
    ),
    ("10.1.1.0/24\", 5, \"", "shape device[0].own[1]"),
];

// A list of what a device accepts from a peer. Of the prefixes in `ASKED` those are told, by their
// lengths, that the list permits.
const ENTRY: &str = "version = 1\nemulate = []\n[[device]]\nname = \"a\"\nlayer = 1\nasn = 1\n\
    id = \"1.2.3.4\"\n[[device.peer]]\nname = \"b\"\nimport = [\"";

const ENTRIES: &[(&str, &str)] = &[
    (
        "permit 10.1.1.0/24",
        "a; b import /24; export all; prepend 0",
    ),
    (
        "permit 10.1.1.0/24 ge 25",
        "a; b import /25 /32; export all; prepend 0",
    ),
    (
        "permit 10.1.1.0/24 le 25",
        "a; b import /24 /25; export all; prepend 0",
    ),
    (
        "permit 10.1.1.0/24 ge 25 le 25",
        "a; b import /25; export all; prepend 0",
    ),
    (
        "permit 10.1.1.0/24 ge 24 le 24",
        "a; b import /24; export all; prepend 0",
    ),
    (
        "permit 10.1.1.0/24 ge 24 le 32",
        "a; b import /24 /25 /32; export all; prepend 0",
    ),
    (
        "permit 10.1.1.0/24 le 32",
        "a; b import /24 /25 /32; export all; prepend 0",
    ),
    ("permit 0.0.0.0/0", "a; b import /0; export all; prepend 0"),
    (
        "permit 0.0.0.0/0 le 32",
        "a; b import /0 /8 /24 /25 /32; export all; prepend 0",
    ),
    (
        "permit 0.0.0.0/0 ge 0",
        "a; b import /0 /8 /24 /25 /32; export all; prepend 0",
    ),
    (
        "permit 0.0.0.0/0 ge 8 le 24",
        "a; b import /8 /24; export all; prepend 0",
    ),
    (
        "permit 10.1.1.0/32 ge 32",
        "a; b import /32; export all; prepend 0",
    ),
    (
        "permit 10.2.0.0/16 le 32",
        "a; b import; export all; prepend 0",
    ),
    ("deny 10.1.1.0/24", "a; b import; export all; prepend 0"),
    (
        "deny 10.1.1.0/24\", \"permit 0.0.0.0/0 le 32",
        "a; b import /0 /8 /25 /32; export all; prepend 0",
    ),
    (
        "permit 0.0.0.0/0 le 32\", \"deny 10.1.1.0/24",
        "a; b import /0 /8 /24 /25 /32; export all; prepend 0",
    ),
    (
        "deny 10.0.0.0/8 ge 25\", \"permit 10.0.0.0/8 le 32",
        "a; b import /8 /24; export all; prepend 0",
    ),
    ("", "value device[0].peer[0].import[0]"),
    ("permit", "value device[0].peer[0].import[0]"),
    ("permit ", "value device[0].peer[0].import[0]"),
    ("deny", "value device[0].peer[0].import[0]"),
    ("Permit 10.1.1.0/24", "value device[0].peer[0].import[0]"),
    ("permit  10.1.1.0/24", "value device[0].peer[0].import[0]"),
    (" permit 10.1.1.0/24", "value device[0].peer[0].import[0]"),
    ("permit 10.1.1.0/24 ", "value device[0].peer[0].import[0]"),
    ("permit 10.1.1.0", "value device[0].peer[0].import[0]"),
    ("permit 10.1.1.1/24", "value device[0].peer[0].import[0]"),
    ("permit 10.1.1.0/33", "value device[0].peer[0].import[0]"),
    ("10.1.1.0/24", "value device[0].peer[0].import[0]"),
    ("permits 10.1.1.0/24", "value device[0].peer[0].import[0]"),
    ("permit 10.1.1.0/24 ge", "value device[0].peer[0].import[0]"),
    (
        "permit 10.1.1.0/24 ge ",
        "value device[0].peer[0].import[0]",
    ),
    (
        "permit 10.1.1.0/24 ge  25",
        "value device[0].peer[0].import[0]",
    ),
    (
        "permit 10.1.1.0/24  ge 25",
        "value device[0].peer[0].import[0]",
    ),
    (
        "permit 10.1.1.0/24ge 25",
        "value device[0].peer[0].import[0]",
    ),
    (
        "permit 10.1.1.0/24 ge 025",
        "value device[0].peer[0].import[0]",
    ),
    (
        "permit 10.1.1.0/24 ge 25 ",
        "value device[0].peer[0].import[0]",
    ),
    (
        "permit 10.1.1.0/24 ge 33",
        "value device[0].peer[0].import[0]",
    ),
    (
        "permit 10.1.1.0/24 ge 23",
        "value device[0].peer[0].import[0]",
    ),
    (
        "permit 10.1.1.0/24 le 23",
        "value device[0].peer[0].import[0]",
    ),
    (
        "permit 10.1.1.0/24 le 33",
        "value device[0].peer[0].import[0]",
    ),
    (
        "permit 10.1.1.0/24 ge 26 le 25",
        "value device[0].peer[0].import[0]",
    ),
    (
        "permit 10.1.1.0/24 ge 23 le 25",
        "value device[0].peer[0].import[0]",
    ),
    (
        "permit 10.1.1.0/24 le 25 ge 25",
        "value device[0].peer[0].import[0]",
    ),
    (
        "permit 10.1.1.0/24 gt 25",
        "value device[0].peer[0].import[0]",
    ),
    (
        "permit 10.1.1.0/24 ge 25 ge 25",
        "value device[0].peer[0].import[0]",
    ),
    (
        "permit 10.1.1.0/24 le 25 x",
        "value device[0].peer[0].import[0]",
    ),
    (
        "permit 10.1.1.0/24 GE 25",
        "value device[0].peer[0].import[0]",
    ),
    (
        "permit 10.1.1.0/24 ge -1",
        "value device[0].peer[0].import[0]",
    ),
    (
        "permit 10.1.1.0/24\", \"",
        "value device[0].peer[0].import[1]",
    ),
    (
        "permit 10.1.1.0/24\", 1, \"",
        "shape device[0].peer[0].import[1]",
    ),
];

// A peer of a device, and what follows it.
const PEER: &str = "version = 1\nemulate = []\n[[device]]\nname = \"a\"\nlayer = 1\nasn = 1\n\
    id = \"1.2.3.4\"\n[[device.peer]]\n";

const PEERS: &[(&str, &str)] = &[
    ("name = \"b\"\n", "a; b import all; export all; prepend 0"),
    (
        "prepend = 254\nexport = [\"permit 10.1.1.0/24\"]\nimport = []\nname = \"b\"\n",
        "a; b import; export /24; prepend 254",
    ),
    (
        "name = \"b\"\nexport = []\n[[device.peer]]\nname = \"b\"\nprepend = 1\n",
        "a; b import all; export; prepend 0; b import all; export all; prepend 1",
    ),
    ("", "key device[0].peer[0].name"),
    ("name = 1\nx = 1\n", "shape device[0].peer[0].name"),
    ("name = \"\"\nimport = 1\n", "value device[0].peer[0].name"),
    ("import = 1\n", "key device[0].peer[0].name"),
    (
        "name = \"b\"\nimport = \"permit 10.1.1.0/24\"\nexport = 1\n",
        "shape device[0].peer[0].import",
    ),
    (
        "name = \"b\"\nimport = [1]\nexport = 1\n",
        "shape device[0].peer[0].import[0]",
    ),
    (
        "name = \"b\"\nimport = [\"\", 1]\nexport = 1\n",
        "value device[0].peer[0].import[0]",
    ),
    (
        "name = \"b\"\nexport = 1\nprepend = \"1\"\n",
        "shape device[0].peer[0].export",
    ),
    (
        "name = \"b\"\nexport = [[]]\nprepend = \"1\"\n",
        "shape device[0].peer[0].export[0]",
    ),
    (
        "name = \"b\"\nexport = [\"permit 1.0.0.0/8\", \"permit\"]\nprepend = \"1\"\n",
        "value device[0].peer[0].export[1]",
    ),
    (
        "name = \"b\"\nprepend = \"1\"\nx = 1\n",
        "shape device[0].peer[0].prepend",
    ),
    (
        "name = \"b\"\nprepend = 1.0\nx = 1\n",
        "shape device[0].peer[0].prepend",
    ),
    (
        "name = \"b\"\nprepend = 255\nx = 1\n",
        "value device[0].peer[0].prepend",
    ),
    (
        "name = \"b\"\nprepend = -1\nx = 1\n",
        "value device[0].peer[0].prepend",
    ),
    (
        "name = \"b\"\nup = true\na = 1\n",
        "key device[0].peer[0].a",
    ),
    (
        "name = \"b\"\nx = 1\n[[device]]\n",
        "key device[0].peer[0].x",
    ),
    (
        "name = \"b\"\n[[device.peer]]\nname = \"c\"\nimport = [\"\"]\n",
        "value device[0].peer[1].import[0]",
    ),
];

// The key `peer` itself, and its turn behind the other keys of a device.
const KEYS: &[(&str, &str)] = &[
    ("", "a"),
    ("peer = []\n", "a"),
    (
        "peer = [{ name = \"b\", prepend = 3 }]\n",
        "a; b import all; export all; prepend 3",
    ),
    ("peer = 1\nx = 1\n", "shape device[0].peer"),
    ("peer = {}\n", "shape device[0].peer"),
    ("peer = [1]\n", "shape device[0].peer[0]"),
    ("own = [\"\"]\npeer = 1\n", "value device[0].own[0]"),
    ("own = 1\npeer = 1\n", "shape device[0].own"),
    ("peers = []\n", "key device[0].peers"),
    ("peer = [{}]\nown = [1]\n", "shape device[0].own[0]"),
];

// Prefixes of which a list is asked, each within the one before.
const ASKED: &[(u32, u8)] = &[
    (0, 0),
    (0x0A00_0000, 8),
    (0x0A01_0100, 24),
    (0x0A01_0100, 25),
    (0x0A01_0100, 32),
];

fn list(alloc: Global, text: &mut String, list: &Option<PrefixList>) -> Result<(), Fail> {
    let Some(list) = list else {
        text.push_str(" all")?;
        return Ok(());
    };
    for (bits, len) in ASKED {
        if Prefix::new(*bits, *len).is_some_and(|prefix| list.permits(&prefix)) {
            text.push_str(&format!(in alloc; " /{len}")?)?;
        }
    }
    Ok(())
}

fn peer(alloc: Global, text: &mut String, peer: &PeerDraft) -> Result<(), Fail> {
    text.push_str(&format!(in alloc; "; {} import", peer.name.text())?)?;
    list(alloc, text, &peer.policy.import)?;
    text.push_str("; export")?;
    list(alloc, text, &peer.policy.export)?;
    text.push_str(&format!(in alloc; "; prepend {}", peer.policy.prepend)?)?;
    Ok(())
}

fn device(alloc: Global, device: &DeviceDraft) -> Result<String, Fail> {
    let mut text = String::from_str(alloc, device.name.text())?;
    for own in device.body.own.items() {
        let (prefix, origin) = (prefix_text(alloc, &own.prefix)?, own.origin);
        text.push_str(&format!(in alloc; " {prefix} {origin:?}")?)?;
    }
    for one in device.body.peers.items() {
        peer(alloc, &mut text, one)?;
    }
    Ok(text)
}

fn first(alloc: Global, plan: &NetText) -> Result<String, Fail> {
    match plan.draft.devices.items() {
        [first, ..] => device(alloc, first),
        [] => Ok(String::from_str(alloc, "no device")?),
    }
}

// What is read of this text.
fn told(alloc: Global, text: &str) -> Result<String, Fail> {
    match read_net(alloc, text.as_bytes()) {
        Ok(plan) => first(alloc, &plan),
        Err(answer) => fault(alloc, &answer),
    }
}

#[test]
fn policies_are_read_or_not(rt: HostRuntime) -> Result<(), Fail> {
    let alloc = rt.alloc();
    for (front, end, texts) in TABLES {
        for (text, want) in *texts {
            let whole = format!(in alloc; "{front}{text}{end}")?;
            same(&rt, text, &told(alloc, &whole)?, want);
        }
    }
    Ok(())
}
