//! What devices offer to each other, and what they accept (RFC 4271, 5.1.2 and 9.1.2).

use cn_base::{AsPath, Asn, DeviceId, Origin, Route};
use cn_given::build::{five, prefix};
use cn_given::opening::path;
use cn_given::tables::{count, given};
use cn_given::words::compare;
use cn_net::Net;
use std::alloc::Global;
use std::test::Fail;

// The sender, the receiver, a path, how many times 7 stands in front of it, and the offer: whether
// there is one, its first number and its length, whether it is accepted, and whether it is known,
// from its own path and from one without the sender's number.
const CASES: &str = "
# own
from 0
to 2
path -
sevens 0
gives true 65101 of 1 true true false
# no link
from 0
to 1
path -
sevens 0
gives false none
# the receiver's number
from 4
to 3
path 65201 65101
sevens 0
gives true 65000 of 3 false true false
# other numbers
from 4
to 2
path 65102 65103
sevens 0
gives true 65000 of 3 true true false
# 254 numbers
from 0
to 2
path -
sevens 254
gives true 65101 of 255 true true false
# 255 numbers
from 0
to 2
path -
sevens 255
gives false none
";

// A path with so many sevens in front.
fn with_sevens(alloc: Global, path: &AsPath, sevens: &str) -> Result<AsPath, Fail> {
    let longer = path.extended(alloc, Asn(7), sevens.parse::<u8>()?)?;
    Ok(longer.ok_or("too long")?)
}

fn route(alloc: Global, case: &str) -> Result<Route, Fail> {
    let path = path(alloc, given(case, "path"))?;
    let path = with_sevens(alloc, &path, given(case, "sevens"))?;
    Ok(Route {
        prefix: prefix("10.1.1.0/24")?,
        path,
        origin: Origin::Egp,
    })
}

// Whether an offer is the one with this path.
fn is_offer(net: &Net, a: DeviceId, b: DeviceId, route: &Route, path: &AsPath) -> bool {
    let (prefix, origin) = (&route.prefix, route.origin);
    net.is_offer(a, b, prefix, &route.path, origin, path, origin)
}

// The first number of a path, and the length of the path.
fn numbers(alloc: Global, path: &AsPath) -> Result<String, Fail> {
    let (first, length) = (path.get(0).map_or(0, |asn| asn.0), path.len());
    Ok(format!(in alloc; "{first} of {length}")?)
}

// What is told of an offer.
fn offered(
    alloc: Global,
    net: &Net,
    a: DeviceId,
    b: DeviceId,
    route: &Route,
    offer: &Route,
) -> Result<String, Fail> {
    let numbers = numbers(alloc, &offer.path)?;
    let takes = net.accept(b, a, offer);
    let known = is_offer(net, a, b, route, &offer.path);
    let other = is_offer(net, a, b, route, &route.path);
    Ok(format!(in alloc; "{numbers} {takes} {known} {other}")?)
}

// What is told of the offer, where there is one.
fn told(alloc: Global, net: &Net, a: DeviceId, b: DeviceId, route: &Route) -> Result<String, Fail> {
    match net.offer(alloc, a, b, route)? {
        Some(offer) => offered(alloc, net, a, b, route, &offer),
        None => Ok(String::from_str(alloc, "none")?),
    }
}

fn answer(alloc: Global, net: &Net, case: &str) -> Result<String, Fail> {
    let (a, b) = (DeviceId(count(case, "from")?), DeviceId(count(case, "to")?));
    let route = route(alloc, case)?;
    let has = net.has_offer(a, b, &route.prefix, &route.path);
    let told = told(alloc, net, a, b, &route)?;
    Ok(format!(in alloc; "{has} {told}")?)
}

fn answer_of_five(alloc: Global, case: &str) -> Result<String, Fail> {
    answer(alloc, &five(alloc)?, case)
}

#[test]
fn offers_are_told(rt: HostRuntime) -> Result<(), Fail> {
    compare(rt.alloc(), CASES, answer_of_five)
}
