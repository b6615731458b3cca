//! The limits on what is emulated. Those on what a draft may have are tried where the network is
//! made.

ghost use Rattle.std.specs.Prelude.{◌≡◌, ◌≤◌, IfOk, MatchOption};
ghost use Rattle.cn_net.specs.Limits.{IsWithinLimits, PassesLimit, emulated_ends, prefix_count, row_count, session_count};

use crate::device::Link;
use crate::fault::What;
use crate::net::Net;
use crate::repeat::add_prefixes;
use crate::sets::DeviceSet;
use indexmap::IndexSet;
use std::alloc::{AllocError, Global};

const MOST_EMULATED: usize = 1024;

const MOST_ROWS: u64 = 16_777_216;

/// A limit that is passed, and how many there are.
#[derive(Clone, Copy, Debug, PartialEq, Eq)]
pub struct Excess {
    pub what: What,
    pub count: u64,
}

/// How many ends of a link are emulated: each is the receiver of one directed session.
fn emulated_ends(emulated: &DeviceSet, link: &Link) -> u64
    ensures { result ≡ emulated_ends emulated.now link.now }
{
    match (emulated.holds(link.a), emulated.holds(link.b)) {
        (true, true) => 2,
        (false, false) => 0,
        _ => 1,
    }
}

/// How many directed sessions are kept, whether their links are up or down.
pub fn session_count(net: &Net, emulated: &DeviceSet) -> u64
    ensures count { result ≡ session_count net.now emulated.now }
    ensures few { result ≤ 32768 }
{
    net.valid();
    let mut count = 0u64;
    for link in net.links() {
        count += emulated_ends(emulated, link);
    }
    count
}

/// How many distinct prefixes the devices of the network originate.
fn prefix_count(alloc: Global, net: &Net) -> Result<u64, AllocError>
    ensures { IfOk result (λ count. count ≡ prefix_count net.now) }
{
    let mut prefixes = IndexSet::new(alloc);
    for device in net.devices() {
        add_prefixes(&mut prefixes, device.body.own.items())?;
    }
    Ok(prefixes.len() as u64)
}

/// How many rows may be held with these emulated devices. Err comes only for want of memory.
pub fn row_count(alloc: Global, net: &Net, emulated: &DeviceSet) -> Result<u64, AllocError>
    ensures { IfOk result (λ count. count ≡ row_count net.now emulated.now) }
{
    net.valid();
    let prefixes = prefix_count(alloc, net)?;
    Ok(session_count(net, emulated) * prefixes)
}

/// The limit that the network passes with these emulated devices; that on devices goes first. None
/// comes exactly where it is within both. Err comes only for want of memory.
pub fn passed_limit(
    alloc: Global,
    net: &Net,
    emulated: &DeviceSet,
) -> Result<Option<Excess>, AllocError>
    ensures { IfOk result (λ found. MatchOption found
        (IsWithinLimits net.now emulated.now)
        (λ excess. PassesLimit net.now emulated.now excess.what excess.count)) }
{
    if emulated.len() > MOST_EMULATED {
        return Ok(Some(Excess {
            what: What::Emulated,
            count: emulated.len() as u64,
        }));
    }
    let count = row_count(alloc, net, emulated)?;
    if count > MOST_ROWS {
        let what = What::Rows;
        return Ok(Some(Excess { what, count }));
    }
    Ok(None)
}
