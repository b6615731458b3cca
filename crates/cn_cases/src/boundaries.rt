//! The certificates of boundaries.

use cn_cert::{CertWhy, Refusal, Uncertified, first_refusal};
use cn_given::build::network_of;
use cn_given::opening::{certificate, devices};
use cn_given::tables::given;
use cn_given::words::{self, compare};
use cn_island::islands;
use cn_net::{Certified, DeviceSet, Net};
use std::alloc::Global;
use std::test::Fail;

// The devices and links, the emulated devices, and why the boundary isn't certified.
const CASES: &str = "
# two AS numbers on the emulated side
devices five
links five
emulated t1 l1 s1
gives facing Emulated t2: t1 65101 l1 65201
# one AS number on each side
devices five
links five
emulated t1 l1 l2 s1
gives none
# two AS numbers on the outside side
devices t1 l1 s1
links t1+l1 l1+s1 t1+s1
emulated t1
gives facing Outside l1: l1 65201 s1 65000
# the third device that faces an island has another AS number
devices five
links t1+l1 t1+l2 t2+l1 t2+l2 t1+s1
emulated l1 l2 s1
gives facing Emulated t1: l1 65201 s1 65000
# an emulated device originates a prefix of an island
devices t1-both t2 l1 l2 s1
links five
emulated t1 l1 l2 s1
gives origins t2 10.1.2.0/24: t2 t1
# two islands originate one prefix
devices t1 t2 l1 l2 s1 t3-two
links t1+l1 t2+l1 t2+l2 l1+s1 t3+l1 t3+l2
emulated t1 l1 l2 s1
gives origins t2 10.1.2.0/24: t2 t3
# the prefixes of a lower island before the sides of a higher one
devices t1-two t2 l1 l2 s1
links t1+l1 t1+l2 t2+l1 t2+s1
emulated l1 l2 s1
gives origins t1 10.1.2.0/24: t1 t2
# no island where all are emulated
devices t1-two t2 l1 l2 s1
links five
emulated t1 t2 l1 l2 s1
gives none
";

fn refused(alloc: Global, net: &Net, refusal: Option<&Refusal>) -> Result<String, Fail> {
    match refusal {
        Some(found) => words::refusal(alloc, net, found),
        None => Ok(String::from_str(alloc, "none")?),
    }
}

fn first_refused(alloc: Global, net: &Net, emulated: &DeviceSet) -> Result<Option<Refusal>, Fail> {
    let labels = islands(alloc, net, emulated)?;
    Ok(first_refusal(alloc, net, emulated, &labels)?)
}

fn first_in(alloc: Global, net: &Net, names: &str) -> Result<String, Fail> {
    let found = first_refused(alloc, net, &devices(alloc, net, names)?)?;
    refused(alloc, net, found.as_ref())
}

fn first(alloc: Global, case: &str) -> Result<String, Fail> {
    first_in(alloc, &network_of(alloc, case)?, given(case, "emulated"))
}

fn uncertified(alloc: Global, refused: &Uncertified) -> Result<String, Fail> {
    match &refused.why {
        CertWhy::Refused(found) => words::refusal(alloc, &refused.net, found),
        CertWhy::Memory => Err(Fail::new("no memory")),
    }
}

fn told(alloc: Global, answer: &Result<Certified, Uncertified>) -> Result<String, Fail> {
    match answer {
        Ok(_) => Ok(String::from_str(alloc, "none")?),
        Err(refused) => uncertified(alloc, refused),
    }
}

// The same from `certify`, which hands everything back with a refusal.
fn certificate_of(alloc: Global, case: &str) -> Result<String, Fail> {
    let answer = certificate(alloc, network_of(alloc, case)?, given(case, "emulated"))?;
    told(alloc, &answer)
}

#[test]
fn boundaries_are_certified_or_refused(rt: HostRuntime) -> Result<(), Fail> {
    compare(rt.alloc(), CASES, first)?;
    compare(rt.alloc(), CASES, certificate_of)
}
