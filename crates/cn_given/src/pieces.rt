//! The texts of the cases of the top call: the files, and what is put in several of them. A text is
//! written as the names of its pieces, in their order, and each piece stands here once, behind a
//! line `# NAME`.

use crate::tables::{given, wanted};
use std::alloc::Global;
use std::test::Fail;

// How a plan begins: with the emulated devices, or with those that have to be.
const HEADS: &str = "
# all
version = 1
emulate = [\"t1\", \"t2\", \"l1\", \"l2\", \"s1\"]
# four
version = 1
emulate = [\"t1\", \"l1\", \"l2\", \"s1\"]
# three
version = 1
emulate = [\"t1\", \"l1\", \"s1\"]
# both
version = 1
emulate = [\"t1\", \"l1\"]
# leaf
version = 1
emulate = [\"l1\"]
# rack
version = 1
emulate = [\"t1\"]
# version
version = -9
# unknown
version = 1
emulate = [\"t9\"]
# none
version = 1
emulate = []
# grown
version = 1
must = [\"t1\"]
# grown-from-none
version = 1
must = []
";

// Devices. With another name than its own: the first rack, which originates the other's prefix too,
// or has a policy and an ORIGIN behind its prefix, or no AS number; the first leaf, which
// originates a prefix; the second leaf, with the router id of the first. The third rack originates
// the second's prefix, and x1 has no links.
const DEVICES: &str = "
# t1
[[device]]
name = \"t1\"
layer = 1
asn = 65101
id = \"10.0.0.1\"
own = [\"10.1.1.0/24\"]
# t1-both
[[device]]
name = \"t1\"
layer = 1
asn = 65101
id = \"10.0.0.1\"
own = [\"10.1.1.0/24\", \"10.1.2.0/24\"]
# t1-policy
[[device]]
name = \"t1\"
layer = 1
asn = 65101
id = \"10.0.0.1\"
own = [\"10.1.1.0/24 igp\"]
peer = [{ name = \"l1\", import = [], export = [\"permit 0.0.0.0/0 le 32\"], prepend = 2 }]
# t1-no-number
[[device]]
name = \"t1\"
layer = 1
id = \"10.0.0.1\"
# t2
[[device]]
name = \"t2\"
layer = 1
asn = 65102
id = \"10.0.0.2\"
own = [\"10.1.2.0/24\"]
# t3
[[device]]
name = \"t3\"
layer = 1
asn = 65103
id = \"10.0.0.3\"
own = [\"10.1.2.0/24\"]
# l1
[[device]]
name = \"l1\"
layer = 2
asn = 65201
id = \"10.0.1.1\"
# l1-own
[[device]]
name = \"l1\"
layer = 2
asn = 65201
id = \"10.0.1.1\"
own = [\"10.1.9.0/24\"]
# l2
[[device]]
name = \"l2\"
layer = 2
asn = 65201
id = \"10.0.1.2\"
# l2-same-id
[[device]]
name = \"l2\"
layer = 2
asn = 65201
id = \"10.0.1.1\"
# s1
[[device]]
name = \"s1\"
layer = 3
asn = 65000
id = \"10.0.2.1\"
# x1
[[device]]
name = \"x1\"
layer = 1
asn = 65199
id = \"10.0.0.9\"
";

const LINKS: &str = "
# t1-l1
[[link]]
a = \"t1\"
b = \"l1\"
# l1-l2
[[link]]
a = \"l1\"
b = \"l2\"
# triangle-links
[[link]]
a = \"t1\"
b = \"l1\"
[[link]]
a = \"l1\"
b = \"s1\"
[[link]]
a = \"t1\"
b = \"s1\"
# links
[[link]]
a = \"t1\"
b = \"l1\"
[[link]]
a = \"t1\"
b = \"l2\"
[[link]]
a = \"t2\"
b = \"l1\"
[[link]]
a = \"t2\"
b = \"l2\"
[[link]]
a = \"l1\"
b = \"s1\"
[[link]]
a = \"l2\"
b = \"s1\"
# t3-links
[[link]]
a = \"t3\"
b = \"l1\"
[[link]]
a = \"t3\"
b = \"l2\"
";

// Records. The stale one is of a prefix that the island of its device doesn't originate.
const RECORDS: &str = "
# record
[[record]]
device = \"t2\"
prefix = \"10.1.2.0/24\"
path = \"-\"
origin = \"igp\"
# record-of-t1
[[record]]
device = \"t1\"
prefix = \"10.1.1.0/24\"
path = \"-\"
origin = \"igp\"
# wrong-record
[[record]]
device = \"t2\"
prefix = \"10.1.2.0/24\"
path = \"65102\"
origin = \"igp\"
# stale-record
[[record]]
device = \"t2\"
prefix = \"10.1.1.0/24\"
path = \"65201 65101\"
origin = \"igp\"
from = \"l1\"
";

const SCRIPTS: &str = "
# pull
version = 1
command = [ { kind = \"pull\" } ]
# one-by-one
version = 1
command = [
  { kind = \"work\", count = 1 },
  { kind = \"pull\" },
  { kind = \"work\", count = 1 },
  { kind = \"pull\" },
]
# step-by-step
version = 1
command = [
  { kind = \"pull\" },
  { kind = \"work\", count = 1 },
  { kind = \"pull\" },
  { kind = \"work\", count = 100 },
  { kind = \"pull\" },
]
# two-then-all
version = 1
command = [
  { kind = \"work\", count = 2 },
  { kind = \"pull\" },
  { kind = \"work\", count = 1000000 },
  { kind = \"pull\" },
]
# pull-work-pull
version = 1
command = [
  { kind = \"pull\" },
  { kind = \"work\", count = 1 },
  { kind = \"pull\" },
]
# until-quiet
version = 1
command = [
  { kind = \"work\", count = 1000000 },
  { kind = \"pull\" },
]
# no-commands
version = 1
# another-version
version = 2
";

// Traces, and what stands for a name that holds nothing.
const TRACES: &str = "
# trace
trace 1
decide t1 10.1.1.0/24
send t1 l1
receive t1 l1
decide l1 10.1.1.0/24
send l1 t1
receive l1 t1
decide t1 10.1.1.0/24
mark 1
mark 2
# trace-of-one-by-one
trace 1
decide t1 10.1.1.0/24
mark 1
mark 2
send t1 l1
mark 3
mark 4
# trace-beside-a-speaker
trace 1
mark 1
send t1 l1
mark 2
mark 3
receive t1 l1
decide l1 10.1.1.0/24
mark 4
mark 5
# trace-from-a-speaker
trace 1
mark 1
send t1 l1
mark 2
mark 3
# older
trace 1
decide t1 10.1.1.0/24
send t1 l1
mark 1
# trace-of-a-pull
trace 1
mark 1
# trace-of-nothing
trace 1
# nothing
nothing
";

// What is put.
const ANSWERS: &str = "
# work-done
1 work done
# usage
usage: crystal plan FILE, serial FILE SCRIPT TRACE, replay FILE SCRIPT TRACE, save FILE, make \
PODS LEAVES RACKS SPINES SHIFT, sample PODS LEAVES RACKS SPINES SHIFT, live FILE SCRIPT TRACE \
WORKERS WATCHERS
# emulated
certified emulated 5 islands 0
emulate t1
emulate t2
emulate l1
emulate l2
emulate s1
# one-island
certified emulated 4 islands 1
emulate t1
emulate l1
emulate l2
emulate s1
island t2: t2
# two-islands
certified emulated 4 islands 2
emulate t1
emulate l1
emulate l2
emulate s1
island t2: t2
island x1: x1
# emulated-side
refused facing emulated island t2: t1 65101 l1 65201
# outside-side
refused facing outside island l1: l1 65201 s1 65000
# inside-origin
refused origins island t2 prefix 10.1.2.0/24: t2 t1
# island-origin
refused origins island t2 prefix 10.1.2.0/24: t2 t3
# no-record
refused record t1 10.1.1.0/24: held none wanted own path - origin igp
# no-record-of-t2
refused record t2 10.1.2.0/24: held none wanted own path - origin igp
# another-path
refused record t2 10.1.2.0/24: held own path 65102 origin igp wanted own path - origin igp
# tables
1 work done
2 pull quiet
table t1
10.1.1.0/24 own path - origin igp
table l1
10.1.1.0/24 from t1 path 65101 origin igp
# four-tables
1 work done
2 pull quiet
table t1
10.1.1.0/24 own path - origin igp
10.1.2.0/24 from l1 path 65201 65102 origin igp
table l1
10.1.1.0/24 from t1 path 65101 origin igp
10.1.2.0/24 from t2 path 65102 origin igp
table l2
10.1.1.0/24 from t1 path 65101 origin igp
10.1.2.0/24 from t2 path 65102 origin igp
table s1
10.1.1.0/24 from l1 path 65201 65101 origin igp
10.1.2.0/24 from l1 path 65201 65102 origin igp
# again
1 work done
2 pull again device t1
3 work done
4 pull again mailbox t1 l1
# beside-a-speaker
1 pull again device t1
2 work done
3 pull again mailbox t1 l1
4 work done
5 pull quiet
table l1
10.1.1.0/24 from t1 path 65101 origin igp
# from-a-speaker
1 pull again device t1
2 work done
3 pull again mailbox t1 l1
";

const TABLES: [&str; 7] = [HEADS, DEVICES, LINKS, RECORDS, SCRIPTS, TRACES, ANSWERS];

// The piece of this name in a table.
fn found(table: &'static str, name: &str) -> Option<&'static str> {
    for piece in table.split("# ") {
        let (first, text) = piece.split_once('\n')?;
        if first == name {
            return Some(text);
        }
    }
    None
}

fn piece(name: &str) -> Result<&'static str, Fail> {
    for table in TABLES {
        if let Some(text) = found(table, name) {
            return Ok(text);
        }
    }
    Err(Fail::new("no piece"))
}

/// The text of which these are the pieces.
pub fn text_of(alloc: Global, names: &str) -> Result<String, Fail> {
    let mut text = String::new(alloc);
    for name in names.split_whitespace() {
        text.push_str(piece(name)?)?;
    }
    Ok(text)
}

/// What a case wants: the pieces behind `puts`, and what it wants beside them.
pub fn wanted_text(alloc: Global, case: &str) -> Result<String, Fail> {
    let mut text = text_of(alloc, given(case, "puts"))?;
    text.push_str(wanted(case))?;
    Ok(text)
}
