//! What `serial` answers, and the trace that it leaves.

use crate::commands::answer;
use std::test::Fail;

const RUNS: &str = "
# a rack and a leaf, until nothing is left to do
crystal serial q.toml s.toml t.txt
holds q.toml both t1 l1 t1-l1
holds s.toml until-quiet
ends Ok 3 2
left q.toml both t1 l1 t1-l1
left s.toml until-quiet
left t.txt trace
puts tables
# a device has something to do at first
crystal serial q.toml s.toml t.txt
holds q.toml all t1 t2 l1 l2 s1 links
holds s.toml pull
ends Ok 3 1
left t.txt trace-of-a-pull
gives
1 pull again device t1
# a device has something to do at first, beside a speaker
crystal serial q.toml s.toml t.txt
holds q.toml grown t1 t2 l1 l2 s1 links record
holds s.toml pull
ends Ok 3 1
left t.txt trace-of-a-pull
gives
1 pull again device t1
# one event after another
crystal serial q.toml s.toml t.txt
holds q.toml all t1 t2 l1 l2 s1 links
holds s.toml one-by-one
ends Ok 3 4
left t.txt trace-of-one-by-one
puts again
# one event after another, beside a speaker
crystal serial q.toml s.toml t.txt
holds q.toml grown t1 t2 l1 l2 s1 links record
holds s.toml one-by-one
ends Ok 3 4
left t.txt trace-of-one-by-one
puts again
# beside a speaker, until nothing is left to do
crystal serial q.toml s.toml t.txt
holds q.toml grown t1 t2 l1 l2 s1 links record
holds s.toml until-quiet
ends Ok 3 2
puts four-tables
# the speaker doesn't announce what isn't its island's
crystal serial q.toml s.toml t.txt
holds q.toml grown t1 t2 l1 l2 s1 links record stale-record
holds s.toml until-quiet
ends Ok 3 2
puts four-tables
# a speaker that owes its route is a pending device
crystal serial q.toml s.toml t.txt
holds q.toml leaf t1 l1 t1-l1 record-of-t1
holds s.toml pull-work-pull
ends Ok 3 3
left t.txt trace-from-a-speaker
puts from-a-speaker
# a speaker's route is taken over
crystal serial q.toml s.toml t.txt
holds q.toml leaf t1 l1 t1-l1 record-of-t1
holds s.toml step-by-step
ends Ok 3 5
left t.txt trace-beside-a-speaker
puts beside-a-speaker
# no commands
crystal serial q.toml s.toml t.txt
holds q.toml both t1 l1 t1-l1
holds s.toml no-commands
ends Ok 3 0
left t.txt trace-of-nothing
";

// A trace is there already.
const WRITTEN_OVER: &str = "
# a trace takes the place of a longer one
crystal serial q.toml s.toml t.txt
holds q.toml both t1 l1 t1-l1
holds s.toml until-quiet
holds t.txt older trace
ends Ok 3 2
left s.toml until-quiet
left t.txt trace
puts tables
# TRACE is the file of the script
crystal serial q.toml s.toml s.toml
holds q.toml both t1 l1 t1-l1
holds s.toml until-quiet
holds t.txt older trace
ends Ok 3 2
left s.toml trace
left t.txt older trace
puts tables
# TRACE is the file of the plan
crystal serial q.toml s.toml q.toml
holds q.toml both t1 l1 t1-l1
holds s.toml until-quiet
holds t.txt older trace
ends Ok 3 2
left q.toml trace
left t.txt older trace
puts tables
";

const REFUSED: &str = "
# where the boundary is refused, the script isn't read, and an older trace stays
crystal serial q.toml s.toml t.txt
holds q.toml three t1 t2 l1 l2 s1 links record
holds t.txt older
ends Refused 1 1
left t.txt older
puts emulated-side
# TRACE is the file of a plan that is refused
crystal serial q.toml s.toml q.toml
holds q.toml three t1 t2 l1 l2 s1 links
holds s.toml pull
ends Refused 1 1
left q.toml three t1 t2 l1 l2 s1 links
puts emulated-side
# where a record isn't sound, no trace is written
crystal serial q.toml s.toml t.txt
holds q.toml grown t1 t2 l1 l2 s1 links wrong-record
holds s.toml pull
ends Refused 1 1
left t.txt nothing
puts another-path
# where the plan is no network, no trace is written
crystal serial q.toml s.toml t.txt
holds q.toml all t1 t2 l1 l2 s1 links l1-l2
holds s.toml pull
ends BadNet 1 1
left t.txt nothing
gives
bad net: same as number l1 l2
# a script in another form
crystal serial q.toml s.toml t.txt
holds q.toml both t1 l1 t1-l1
holds s.toml another-version
ends Unbuilt 2 1
left t.txt nothing
gives
not built yet: script text
";

#[test]
fn scripts_are_run(rt: HostRuntime) -> Result<(), Fail> {
    answer(rt.alloc(), RUNS)?;
    answer(rt.alloc(), WRITTEN_OVER)
}

#[test]
fn runs_are_refused(rt: HostRuntime) -> Result<(), Fail> {
    answer(rt.alloc(), REFUSED)
}
