//! What the top call answers where its reads, writes and puts fail in turn. It makes no later call,
//! but that it puts the line which names a file that couldn't be read.

use crate::commands::answer;
use std::test::Fail;

const PLANS: &str = "
# a name that holds nothing
crystal plan q.toml
ends ReadFault 1 1
left q.toml nothing
gives
cannot read q.toml
# the read
crystal plan q.toml
holds q.toml all t1 t2 l1 l2 s1 links
fails 1 0
ends ReadFault 1 1
left q.toml all t1 t2 l1 l2 s1 links
gives
cannot read q.toml
# the put
crystal plan q.toml
holds q.toml all t1 t2 l1 l2 s1 links
trips 1 5
ends WriteFault 1 1
left q.toml all t1 t2 l1 l2 s1 links
gives certi
# the put of a refusal
crystal plan q.toml
holds q.toml three t1 t2 l1 l2 s1 links
trips 1 5
ends WriteFault 1 1
gives refus
# the read, and the put that tells it
crystal plan q.toml
holds q.toml all t1 t2 l1 l2 s1 links
fails 1 0
trips 1 0
ends WriteFault 1 1
# the put of the usage
crystal plan
trips 1 5
ends WriteFault 0 1
gives usage
";

// Of what TRACE holds after a write that failed nothing is said.
const RUNS: &str = "
# a plan that isn't there
crystal serial q.toml s.toml t.txt
holds s.toml one-by-one
holds t.txt older
ends ReadFault 1 1
left s.toml one-by-one
left t.txt older
gives
cannot read q.toml
# a script that isn't there
crystal serial q.toml s.toml t.txt
holds q.toml all t1 t2 l1 l2 s1 links
holds t.txt older
ends ReadFault 2 1
left s.toml nothing
left t.txt older
gives
cannot read s.toml
# the read of the plan
crystal serial q.toml s.toml t.txt
holds q.toml both t1 l1 t1-l1
holds s.toml until-quiet
holds t.txt older
fails 1 0
ends ReadFault 1 1
left q.toml both t1 l1 t1-l1
left s.toml until-quiet
left t.txt older
gives
cannot read q.toml
# the read of the script
crystal serial q.toml s.toml t.txt
holds q.toml both t1 l1 t1-l1
holds s.toml until-quiet
holds t.txt older
fails 2 0
ends ReadFault 2 1
left q.toml both t1 l1 t1-l1
left s.toml until-quiet
left t.txt older
gives
cannot read s.toml
# the read of the script, and the put that tells it
crystal serial q.toml s.toml t.txt
holds q.toml both t1 l1 t1-l1
holds s.toml until-quiet
holds t.txt older
fails 2 0
trips 1 5
ends WriteFault 2 1
left q.toml both t1 l1 t1-l1
left s.toml until-quiet
left t.txt older
gives canno
# the write of the trace
crystal serial q.toml s.toml t.txt
holds q.toml both t1 l1 t1-l1
holds s.toml until-quiet
holds t.txt older
fails 3 0
ends WriteFault 3 0
left q.toml both t1 l1 t1-l1
left s.toml until-quiet
# the write of the trace of five devices
crystal serial q.toml s.toml t.txt
holds q.toml all t1 t2 l1 l2 s1 links
holds s.toml one-by-one
fails 3 0
ends WriteFault 3 0
left s.toml one-by-one
# the first put, before an octet
crystal serial q.toml s.toml t.txt
holds q.toml both t1 l1 t1-l1
holds s.toml until-quiet
holds t.txt older
trips 1 0
ends WriteFault 3 1
left q.toml both t1 l1 t1-l1
left t.txt trace
# the second put, after three octets
crystal serial q.toml s.toml t.txt
holds q.toml both t1 l1 t1-l1
holds s.toml until-quiet
holds t.txt older
trips 2 3
ends WriteFault 3 2
left s.toml until-quiet
left t.txt trace
puts work-done
gives 2 p
";

#[test]
fn calls_of_a_plan_fail(rt: HostRuntime) -> Result<(), Fail> {
    answer(rt.alloc(), PLANS)
}

#[test]
fn calls_of_a_run_fail(rt: HostRuntime) -> Result<(), Fail> {
    answer(rt.alloc(), RUNS)
}
