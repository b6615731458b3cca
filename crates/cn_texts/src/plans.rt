//! What is read of the texts of plans.

use crate::words::{fault, path_text, prefix_text, same};
use cn_base::Name;
use cn_net::{DeviceDraft, LinkDraft};
use cn_readnet::{NameSelection, NetText, RowDraft, read_net};
use std::alloc::Global;
use std::test::Fail;

// A table of cases: what stands in front of its texts, and the texts, each with what is read of it:
// the plan in words, or the kind of its first fault with the fault's path.
type Table = (&'static str, &'static [(&'static str, &'static str)]);

const TABLES: &[Table] = &[
    ("", WHOLE),
    ("version = 1\n", SELECTIONS),
    (ONE_DEVICE, DEVICES),
    (ONE_LINK, LINKS),
    (ONE_RECORD, RECORDS),
];

// Whole texts. The devices are selected by either key, in the plan's order and with repeats.
const WHOLE: &[(&str, &str)] = &[
    (
        "version = 1
emulate = [\"t1\", \"l1\"]
[[device]]
name = \"t1\"
layer = 1
asn = 65101
id = \"10.0.0.1\"
own = [\"10.1.1.0/24\"]
[[device]]
name = \"l1\"
layer = 2
asn = 65201
id = \"10.0.1.1\"
[[link]]
a = \"t1\"
b = \"l1\"
",
        "emulate t1 l1
device t1 layer 1 asn 65101 id a000001 own 10.1.1.0/24 Igp
device l1 layer 2 asn 65201 id a000101 own
link t1 l1 up true
",
    ),
    (
        "version = 1
emulate = []
[[record]]
device = \"s1\"
prefix = \"10.1.1.0/24\"
path = \"65101 4294967295\"
origin = \"incomplete\"
from = \"t1\"
[[record]]
device = \"s2\"
prefix = \"0.0.0.0/0\"
path = \"-\"
origin = \"egp\"
",
        "emulate
record s1 10.1.1.0/24 path 65101 4294967295 Incomplete from t1
record s2 0.0.0.0/0 path - Egp from -
",
    ),
    ("version = 1\nmust = [\"t2\", \"t1\"]\n", "must t2 t1\n"),
    ("must = [\"t1\", \"t1\"]\nversion = 1\n", "must t1 t1\n"),
    (
        "version = 1\nemulate = [\"t2\", \"t1\"]\n",
        "emulate t2 t1\n",
    ),
    ("version =", "toml"),
    ("", "key version"),
    ("version = \"1\"\n", "shape version"),
    ("version = 2\n", "version 2"),
    ("version = -9\nmust = 3\n", "version -9"),
    ("version = 1.0\nmust = 3\n", "shape version"),
    ("version = 2\nmust = 3\n", "version 2"),
    (
        "version = 1\nemulate = []\ndevice = [1]\n",
        "shape device[0]",
    ),
    (
        "version = 1\nemulate = []\nz = 1\n\"caf\u{e9}\" = 2\n",
        "key caf??",
    ),
    (
        "version = 1\nemulate = []\nlink = [{ a = \"t1\" }]\n",
        "key link[0].b",
    ),
    (
        "version = 1\nemulate = []\ndevice = 1\nlink = 1\n",
        "shape device",
    ),
    (
        "version = 1\nemulate = []\nlink = 1\nrecord = 1\n",
        "shape link",
    ),
    ("version = 1\nemulate = []\nrecord = 1\n", "shape record"),
    (
        "version = 1\nemulate = []\nrecord = [1]\nz = 1\n",
        "shape record[0]",
    ),
    (
        "version = 1\nemulate = []\nrecord = 1\nlink = [1]\n",
        "shape link[0]",
    ),
];

// What stands after the version where devices are selected.
const SELECTIONS: &[(&str, &str)] = &[
    ("", "key must"),
    ("device = 1\na = 2\n", "key must"),
    ("must = 3\n", "shape must"),
    ("must = [\"t1\", 4]\n", "shape must[1]"),
    ("must = [\"t1\", \"a b\"]\n", "value must[1]"),
    ("must = [\"\", 5]\n", "value must[0]"),
    ("emulate = 3\n", "shape emulate"),
    ("emulate = [\"t1\", 4]\n", "shape emulate[1]"),
    ("emulate = [\"a b\"]\n", "value emulate[0]"),
    ("must = [\"t1\"]\nemulate = [\"t1\"]\n", "key emulate"),
    ("emulate = [\"t1\"]\nmust = [\"t1\"]\n", "key emulate"),
    ("must = []\nemulate = []\n", "key emulate"),
    ("must = []\nemulate = 3\n", "key emulate"),
    ("must = []\nemulate = [4]\n", "key emulate"),
    ("must = []\n[[emulate]]\n", "key emulate"),
    ("must = 3\nemulate = [4]\n", "shape must"),
    ("must = [\"a b\"]\nemulate = 3\n", "value must[0]"),
    (
        "must = []\nemulate = []\ndevice = 1\na = 2\n",
        "key emulate",
    ),
    ("must = []\ndevice = 1\na = 2\n", "shape device"),
    ("must = []\nmusts = 1\n", "key musts"),
];

const ONE_DEVICE: &str = "version = 1\nemulate = []\n[[device]]\n";

// Texts of one device and what follows it.
const DEVICES: &[(&str, &str)] = &[
    ("layer = 1\n", "key device[0].name"),
    ("name = 1\nlayer = \"1\"\n", "shape device[0].name"),
    ("name = \"a b\"\nlayer = \"1\"\n", "value device[0].name"),
    ("name = \"a\"\nasn = 0\n", "key device[0].layer"),
    (
        "name = \"a\"\nlayer = \"1\"\nasn = 0\n",
        "shape device[0].layer",
    ),
    (
        "name = \"a\"\nlayer = -1\nasn = 0\n",
        "value device[0].layer",
    ),
    ("name = \"a\"\nlayer = 255\nid = 1\n", "key device[0].asn"),
    (
        "name = \"a\"\nlayer = 1\nasn = \"1\"\nid = 1\n",
        "shape device[0].asn",
    ),
    (
        "name = \"a\"\nlayer = 1\nasn = 4294967296\nid = 1\n",
        "value device[0].asn",
    ),
    (
        "name = \"a\"\nlayer = 1\nasn = 1\nown = 1\n",
        "key device[0].id",
    ),
    (
        "name = \"a\"\nlayer = 1\nasn = 1\nid = 1\nown = 1\n",
        "shape device[0].id",
    ),
    (
        "name = \"a\"\nlayer = 1\nasn = 4294967295\nid = \"1.2.3.4\"\nown = 1\npeer = 1\n",
        "shape device[0].own",
    ),
    ("name = \"a\"\nlayer = 256\n", "value device[0].layer"),
    ("name = \"a\"\nlayer = 1\nasn = 0\n", "value device[0].asn"),
    (
        "name = \"a\"\nlayer = 1\nasn = 1\nid = \"1.2.3\"\n",
        "value device[0].id",
    ),
    (
        "name = \"a\"\nlayer = 1\nasn = 1\nid = \"1.2.3.4\"\n\
        own = [\"1.0.0.0/8\", \"1.0.0.0/8\", 5]\n",
        "shape device[0].own[2]",
    ),
    (
        "name = \"a\"\nlayer = 1\nasn = 1\nid = \"1.2.3.4\"\nown = [\"1.1.0.0/8\"]\n",
        "value device[0].own[0]",
    ),
    (
        "name = \"a\"\nlayer = 1\nasn = 1\nid = \"1.2.3.4\"\nx = 1\n[[device]]\n",
        "key device[0].x",
    ),
    (
        "name = \"a\"\nlayer = 1\nasn = 1\nid = \"1.2.3.4\"\n[[device]]\n[[link]]\n",
        "key device[1].name",
    ),
];

const ONE_LINK: &str = "version = 1\nemulate = []\n[[link]]\n";

// Texts of a link and what follows it.
const LINKS: &[(&str, &str)] = &[
    ("a = \"t1\"\nb = \"l1\"\n", "emulate\nlink t1 l1 up true\n"),
    (
        "up = true\nb = \"l1\"\na = \"t1\"\n",
        "emulate\nlink t1 l1 up true\n",
    ),
    (
        "a = \"t1\"\nb = \"l1\"\nup = false\n[[link]]\na = \"l1\"\nb = \"t2\"\n",
        "emulate\nlink t1 l1 up false\nlink l1 t2 up true\n",
    ),
    ("", "key link[0].a"),
    ("a = 1\nb = 1\n", "shape link[0].a"),
    ("a = \"\"\nb = 1\n", "value link[0].a"),
    ("a = \"t1\"\nup = 1\n", "key link[0].b"),
    ("a = \"t1\"\nb = 1\nup = 1\n", "shape link[0].b"),
    ("a = \"t1\"\nb = \"a b\"\nup = 1\n", "value link[0].b"),
    (
        "a = \"t1\"\nb = \"l1\"\nup = 1\nx = 1\n",
        "shape link[0].up",
    ),
    (
        "a = \"t1\"\nb = \"l1\"\nup = \"false\"\n",
        "shape link[0].up",
    ),
    (
        "a = \"t1\"\nb = \"l1\"\nup = true\nc = \"t2\"\n",
        "key link[0].c",
    ),
    ("a = \"t1\"\nb = \"l1\"\nx = 1\n[[link]]\n", "key link[0].x"),
    (
        "a = \"t1\"\nb = \"l1\"\n[[link]]\na = \"t1\"\nb = \"l1\"\nup = []\n[[record]]\n",
        "shape link[1].up",
    ),
];

const ONE_RECORD: &str =
    "version = 1\nemulate = []\n[[record]]\ndevice = \"a\"\nprefix = \"1.0.0.0/8\"\npath = \"-\"\n\
    origin = \"igp\"\n[[record]]\n";

// Texts of a second record.
const RECORDS: &[(&str, &str)] = &[
    ("prefix = \"1.0.0.0/8\"\n", "key record[1].device"),
    ("device = \"a b\"\n", "value record[1].device"),
    ("device = 1\n", "shape record[1].device"),
    (
        "device = \"a\"\nprefix = 1\npath = 7\n",
        "shape record[1].prefix",
    ),
    (
        "device = \"a\"\nprefix = \"1.0.0.0/8\"\npath = \"7\"\norigin = 1\nfrom = 1\n",
        "shape record[1].origin",
    ),
    ("device = \"a\"\n", "key record[1].prefix"),
    (
        "device = \"a\"\nprefix = \"1.0.0.1/8\"\npath = 7\n",
        "value record[1].prefix",
    ),
    (
        "device = \"a\"\nprefix = \"1.0.0.0/8\"\norigin = \"igp\"\n",
        "key record[1].path",
    ),
    (
        "device = \"a\"\nprefix = \"1.0.0.0/8\"\npath = 7\n",
        "shape record[1].path",
    ),
    (
        "device = \"a\"\nprefix = \"1.0.0.0/8\"\npath = \"7 \"\norigin = 1\n",
        "value record[1].path",
    ),
    (
        "device = \"a\"\nprefix = \"1.0.0.0/8\"\npath = \"7\"\n",
        "key record[1].origin",
    ),
    (
        "device = \"a\"\nprefix = \"1.0.0.0/8\"\npath = \"7\"\norigin = \"bgp\"\nfrom = 1\n",
        "value record[1].origin",
    ),
    (
        "device = \"a\"\nprefix = \"1.0.0.0/8\"\npath = \"7\"\norigin = \"egp\"\nfrom = 1\n",
        "shape record[1].from",
    ),
    (
        "device = \"a\"\nprefix = \"1.0.0.0/8\"\npath = \"7\"\norigin = \"egp\"\nfrom = \"\"\n",
        "value record[1].from",
    ),
    (
        "device = \"a\"\nprefix = \"1.0.0.0/8\"\npath = \"7\"\norigin = \"egp\"\nasn = 1\n",
        "key record[1].asn",
    ),
];

fn selects(alloc: Global, text: &mut String, selection: &NameSelection) -> Result<(), Fail> {
    let (key, names) = match selection {
        NameSelection::Must(names) => ("must", names.items()),
        NameSelection::Emulate(names) => ("emulate", names.items()),
    };
    text.push_str(key)?;
    for name in names {
        text.push_str(&format!(in alloc; " {}", name.text())?)?;
    }
    Ok(())
}

fn device(alloc: Global, text: &mut String, device: &DeviceDraft) -> Result<(), Fail> {
    let (name, layer) = (device.name.text(), device.layer);
    let (asn, id) = (device.body.asn.0, device.id.0);
    text.push_str(&format!(in alloc; "\ndevice {name} layer {layer} asn {asn} id {id:x} own")?)?;
    for own in device.body.own.items() {
        let (prefix, origin) = (prefix_text(alloc, &own.prefix)?, own.origin);
        text.push_str(&format!(in alloc; " {prefix} {origin:?}")?)?;
    }
    Ok(())
}

fn link(alloc: Global, link: &LinkDraft) -> Result<String, Fail> {
    let (a, b, up) = (link.a.text(), link.b.text(), link.up);
    Ok(format!(in alloc; "\nlink {a} {b} up {up}")?)
}

fn record(alloc: Global, row: &RowDraft) -> Result<String, Fail> {
    let (device, prefix) = (row.device.text(), prefix_text(alloc, &row.prefix)?);
    let (path, origin) = (path_text(alloc, &row.path)?, row.origin);
    let from = row.from.as_ref().map_or("-", Name::text);
    Ok(format!(in alloc; "\nrecord {device} {prefix} path {path} {origin:?} from {from}")?)
}

fn plan(alloc: Global, plan: &NetText) -> Result<String, Fail> {
    let mut text = String::new(alloc);
    selects(alloc, &mut text, &plan.selection)?;
    for one in plan.draft.devices.items() {
        device(alloc, &mut text, one)?;
    }
    for one in plan.draft.links.items() {
        text.push_str(&link(alloc, one)?)?;
    }
    for one in plan.rows.items() {
        text.push_str(&record(alloc, one)?)?;
    }
    text.push_str("\n")?;
    Ok(text)
}

// What is read of these bytes.
fn told(alloc: Global, bytes: &[u8]) -> Result<String, Fail> {
    match read_net(alloc, bytes) {
        Ok(text) => plan(alloc, &text),
        Err(answer) => fault(alloc, &answer),
    }
}

#[test]
fn texts_are_read_or_not(rt: HostRuntime) -> Result<(), Fail> {
    let alloc = rt.alloc();
    for (front, texts) in TABLES {
        for (text, want) in *texts {
            let whole = format!(in alloc; "{front}{text}")?;
            same(&rt, text, &told(alloc, whole.as_bytes())?, want);
        }
    }
    same(&rt, "no text", &told(alloc, b"version = \xFF")?, "utf8");
    Ok(())
}
