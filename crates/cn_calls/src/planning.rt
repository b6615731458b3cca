//! What `plan` answers, and words that are no listed form.

use crate::commands::answer;
use std::test::Fail;

const CERTIFIED: &str = "
# everything is emulated
crystal plan q.toml
holds q.toml all t1 t2 l1 l2 s1 links
ends Ok 1 1
puts emulated
# nothing at all
crystal plan q.toml
holds q.toml none
ends Ok 1 1
gives
certified emulated 0 islands 0
# grown from a rack, beside the other's record
crystal plan q.toml
holds q.toml grown t1 t2 l1 l2 s1 links record
ends Ok 1 1
puts one-island
# the same devices by their names
crystal plan q.toml
holds q.toml four t1 t2 l1 l2 s1 links record
ends Ok 1 1
puts one-island
# grown, and a record of a prefix that the island doesn't originate
crystal plan q.toml
holds q.toml grown t1 t2 l1 l2 s1 links record stale-record
ends Ok 1 1
puts one-island
# named, and a record of a prefix that the island doesn't originate
crystal plan q.toml
holds q.toml four t1 t2 l1 l2 s1 links record stale-record
ends Ok 1 1
puts one-island
# a policy and an ORIGIN
crystal plan q.toml
holds q.toml all t1-policy t2 l1 l2 s1 links
ends Ok 1 1
puts emulated
# a device without links is an island of its own
crystal plan q.toml
holds q.toml grown t1 t2 l1 l2 s1 x1 links record
ends Ok 1 1
puts two-islands
";

const BOUNDARIES: &str = "
# two AS numbers on the emulated side come before what faces them
crystal plan q.toml
holds q.toml three t1 t2 l1 l2 s1 links record
ends Refused 1 1
puts emulated-side
# two AS numbers on the emulated side, without a record
crystal plan q.toml
holds q.toml three t1 t2 l1 l2 s1 links
ends Refused 1 1
puts emulated-side
# two AS numbers on the outside side
crystal plan q.toml
holds q.toml rack t1 l1 s1 triangle-links
ends Refused 1 1
puts outside-side
# two AS numbers on the outside side, one with a prefix of its own
crystal plan q.toml
holds q.toml rack t1 l1-own s1 triangle-links
ends Refused 1 1
puts outside-side
# an emulated device originates a prefix of the island
crystal plan q.toml
holds q.toml grown t1-both t2 l1 l2 s1 links record
ends Refused 1 1
puts inside-origin
# an emulated device originates a prefix of the island, without a record
crystal plan q.toml
holds q.toml four t1-both t2 l1 l2 s1 links
ends Refused 1 1
puts inside-origin
# two islands originate one prefix
crystal plan q.toml
holds q.toml grown t1 t2 l1 l2 s1 t3 links t3-links record
ends Refused 1 1
puts island-origin
";

const RECORDS: &str = "
# grown, and a record with another path
crystal plan q.toml
holds q.toml grown t1 t2 l1 l2 s1 links wrong-record
ends Refused 1 1
puts another-path
# named, and a record with another path
crystal plan q.toml
holds q.toml four t1 t2 l1 l2 s1 links wrong-record
ends Refused 1 1
puts another-path
# no record of what an outside device holds
crystal plan q.toml
holds q.toml four t1 t2 l1 l2 s1 links
ends Refused 1 1
puts no-record-of-t2
# nothing emulated and no record
crystal plan q.toml
holds q.toml none t1 t2 l1 l2 s1 links
ends Refused 1 1
puts no-record
# grown from nothing and no record
crystal plan q.toml
holds q.toml grown-from-none t1 t2 l1 l2 s1 links
ends Refused 1 1
puts no-record
";

const BAD_NETS: &str = "
# a router id twice comes before what is wrong with a link
crystal plan q.toml
holds q.toml grown t1 t2 l1 l2-same-id s1 links l1-l2 record
ends BadNet 1 1
gives
bad net: router id 10.0.1.1 twice: l1 l2
# one AS number at both ends of a link
crystal plan q.toml
holds q.toml grown t1 t2 l1 l2 s1 links l1-l2 record
ends BadNet 1 1
gives
bad net: same as number l1 l2
# an unknown name to emulate
crystal plan q.toml
holds q.toml unknown t1 t2 l1 l2 s1 links record
ends BadNet 1 1
gives
bad net: unknown name t9
# a record twice
crystal plan q.toml
holds q.toml grown t1 t2 l1 l2 s1 links record record
ends BadNet 1 1
gives
bad net: record t2 10.1.2.0/24 twice
";

// No plan is read from the file, whose name stands in the line.
const BAD_TEXTS: &str = "
# an empty text
crystal plan p.toml
holds p.toml
ends BadText 1 1
gives
bad text p.toml: key version
# another version
crystal plan q.toml
holds q.toml version
ends BadText 1 1
gives
bad text q.toml: version -9
# a device without its AS number
crystal plan q.toml
holds q.toml all t2 t1-no-number l1
ends BadText 1 1
gives
bad text q.toml: key device[1].asn
# a text that is no TOML, and the script isn't read
crystal serial q.toml s.toml t.txt
holds q.toml all all
holds s.toml another-version
ends BadText 1 1
left t.txt nothing
gives
bad text q.toml: not toml
";

const UNBUILTS: &str = "
# replay
crystal replay q.toml s.toml t.txt
ends Unbuilt 0 1
gives
not built yet: replay
# save without a word
crystal save
ends Unbuilt 0 1
gives
not built yet: save
# make
crystal make 4096 1 1 1 0
ends Unbuilt 0 1
gives
not built yet: make
# sample
crystal sample 1 1 1 1 0
ends Unbuilt 0 1
gives
not built yet: sample
";

// Words that are no listed form: no file is read.
const MISUSES: &str = "
# no words
crystal
holds q.toml none
holds s.toml pull
ends Usage 0 1
puts usage
# an unknown word
crystal planet q.toml
holds q.toml none
holds s.toml pull
ends Usage 0 1
puts usage
# plan without a file
crystal plan
holds q.toml none
holds s.toml pull
ends Usage 0 1
puts usage
# plan of two files
crystal plan q.toml q.toml
holds q.toml none
holds s.toml pull
ends Usage 0 1
puts usage
# serial without a trace
crystal serial q.toml s.toml
holds q.toml none
holds s.toml pull
ends Usage 0 1
puts usage
# serial with a word too many
crystal serial q.toml s.toml t.txt u.txt
holds q.toml none
holds s.toml pull
ends Usage 0 1
puts usage
# live, which is no command yet
crystal live q.toml s.toml t.txt 2 0
holds q.toml none
holds s.toml pull
ends Usage 0 1
puts usage
";

#[test]
fn plans_are_certified(rt: HostRuntime) -> Result<(), Fail> {
    answer(rt.alloc(), CERTIFIED)
}

#[test]
fn plans_are_refused(rt: HostRuntime) -> Result<(), Fail> {
    answer(rt.alloc(), BOUNDARIES)?;
    answer(rt.alloc(), RECORDS)?;
    answer(rt.alloc(), BAD_NETS)?;
    answer(rt.alloc(), BAD_TEXTS)
}

#[test]
fn words_are_refused(rt: HostRuntime) -> Result<(), Fail> {
    answer(rt.alloc(), UNBUILTS)?;
    answer(rt.alloc(), MISUSES)
}
