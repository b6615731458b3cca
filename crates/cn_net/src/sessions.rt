//! The directed sessions that an emulation keeps. Each has a place, and is found by either end.

ghost use Rattle.std.specs.Prelude.{◌≡◌, ◌≢◌, ◌↔◌, ℕ, ◌+◌, ◌<◌, ◌≤◌, ◌^◌, ◌++◌, [], true, All, IfOk, List, MatchOption, length, map, replicate, slice_get, slice_index_or};
ghost use Rattle.cn_base.specs.declared.ids.DeviceId.{DeviceId as DeviceNumber};
ghost use Rattle.cn_net.specs.Limits.{session_count};
ghost use Rattle.cn_net.specs.Network.{Network};
ghost use Rattle.cn_net.specs.Sessions.{ArePlaces, SessionsBegin, Ascend, comes_from, places_into, session_ends, sessions_from};
ghost use Rattle.cn_net.specs.Valid.{IsValid};

use crate::limits::session_count;
use crate::net::Net;
use crate::sets::DeviceSet;
use cn_base::DeviceId;
use std::alloc::{AllocError, Global};
use std::marker::Model;
use std::ops::Range;

/// The ends of a directed session: the device that sends, and the one that receives.
#[derive(Clone, Copy, Debug, PartialEq, Eq)]
pub struct SessionEnds {
    pub from: DeviceId,
    pub to: DeviceId,
}

/// The sessions of an emulation, by (from, to): one for each direction of a link, up or down, whose
/// receiver is emulated. Contracts see the list of their ends, and a session goes by its place
/// there.
#[derive(Debug, Drop)]
pub struct SessionIndex {
    ends: Vec<SessionEnds>,
    /// Where the sessions from each device begin, and then how many there are.
    starts: Vec<u32>,
    /// The places of the sessions into each device.
    into: Vec<Vec<u32>>,
}

impl Model for SessionIndex {
    ghost use Rattle.std.specs.Prelude.{List, map};
    ghost use Rattle.cn_net.specs.Sessions.{IsIndexed};
    ghost use Rattle.cn_net.specs.declared.sessions.SessionEnds.{SessionEnds};

    ghost Value = { List SessionEnds };

    ghost view = { λ s. s.ends.items };

    ghost invariant = { λ s. IsIndexed s.ends.items s.starts.items
        (map (λ v. v.items) s.into.items) };
}

impl SessionIndex {
    /// The sessions that are kept for these emulated devices. Err comes only for want of memory.
    pub fn make(alloc: Global, net: &Net, emulated: &DeviceSet) -> Result<SessionIndex, AllocError>
        ensures { IfOk result (λ index. index ≡ session_ends net.now emulated.now) }
    {
        net.valid();
        let ends = ends_of(alloc, net, emulated)?;
        let starts = starts_of(alloc, ends.as_slice(), net.count())?;
        let into = into_of(alloc, ends.as_slice(), net.count())?;
        Ok(SessionIndex { ends, starts, into })
    }

    /// Does nothing: the sessions ascend by (from, to) by their type, and none stands twice. A
    /// proof that needs to know so cites this call.
    pub fn valid(&self)
        ensures { Ascend self.now }
    {
        let _ = &self.ends;
    }

    /// How many sessions there are: places are below this.
    pub fn len(&self) -> usize
        ensures { result ≡ length self.now }
    {
        self.ends.len()
    }

    /// The ends of the session at a place. None comes exactly past the last.
    pub fn ends(&self, place: usize) -> Option<SessionEnds>
        ensures { result ≡ slice_get self.now place }
    {
        match self.ends.get(place) {
            Some(ends) => Some(*ends),
            None => None,
        }
    }

    /// The places of the sessions from a device: they stand together. There are none where there is
    /// no such device. It takes two look-ups.
    pub fn from(&self, device: DeviceId) -> Range<usize>
        ensures ordered { result.start ≤ result.end }
        ensures within { result.end ≤ length self.now }
        ensures these { (place : ℕ)
            → ((result.start ≤ place) × (place < result.end))
            ↔ (comes_from self.now device place ≡ true) }
    {
        let device = device.0 as usize;
        if device + 1 < self.starts.len() {
            self.starts[device] as usize..self.starts[device + 1] as usize
        } else {
            0..0
        }
    }

    /// The places of the sessions into a device, ascending, and so in the order of their senders.
    /// There are none where the device isn't emulated, or there is no such device. It takes one
    /// look-up.
    pub fn into(&self, device: DeviceId) -> &[u32]
        ensures { result.now ≡ places_into self.now device }
    {
        match self.into.get(device.0 as usize) {
            Some(places) => places.as_slice(),
            None => &[],
        }
    }

    /// The place of the session between two devices, found by halving among those from the first.
    /// None comes exactly where there is no such session.
    pub fn place(&self, from: DeviceId, to: DeviceId) -> Option<usize>
        ensures { MatchOption result
            ((place : ℕ) → slice_get self.now place ≢ Some (record { from = from; to = to }))
            (λ place. slice_get self.now place ≡ Some (record { from = from; to = to })) }
    {
        let Range { start, end } = self.from(from);
        let these = &self.ends[start..end];
        match these.binary_search_by_key(&to, |ends| ends.to) {
            Ok(place) => Some(start + place),
            Err(_) => None,
        }
    }
}

/// The ends, and behind them those of the sessions from a device.
fn with_sessions(
    ends: Vec<SessionEnds>,
    net: &Net,
    emulated: &DeviceSet,
    from: DeviceId,
) -> Result<Vec<SessionEnds>, AllocError>
    ensures { IfOk result
        (λ more. more.items ≡ ends.items ++ sessions_from net.now emulated.now from) }
{
    let mut more = ends;
    for neighbour in net.neighbours(from) {
        let to = neighbour.device;
        if emulated.holds(to) {
            more.push(SessionEnds { from, to })?;
        }
    }
    Ok(more)
}

/// The ends of all sessions, in order.
fn ends_of(alloc: Global, net: &Net, emulated: &DeviceSet) -> Result<Vec<SessionEnds>, AllocError>
    ensures { IfOk result (λ ends. ends.items ≡ session_ends net.now emulated.now) }
{
    let mut ends = Vec::with_capacity(alloc, session_count(net, emulated) as usize)?;
    for from in 0..net.count() {
        ends = with_sessions(ends, net, emulated, DeviceId(from))?;
    }
    Ok(ends)
}

/// Where the sessions from each of so many devices begin, and then how many there are.
fn starts_of(alloc: Global, ends: &[SessionEnds], count: u32) -> Result<Vec<u32>, AllocError>
    requires few { length ends.now < 2 ^ 32 }
    requires devices { count ≤ 4096 }
    requires ascending { Ascend ends.now }
    ensures starts { IfOk result (λ starts. SessionsBegin ends.now starts.items) }
    ensures count { IfOk result (λ starts. length starts.items ≡ count + 1) }
{
    let mut starts = Vec::with_capacity(alloc, count as usize + 1)?;
    for device in 0..count + 1 {
        let start = ends.partition_point(|e| e.from.0 < device);
        starts.push(start as u32)?;
    }
    Ok(starts)
}

/// So many empty lists.
fn empty_lists(alloc: Global, count: u32) -> Result<Vec<Vec<u32>>, AllocError>
    ensures { IfOk result (λ lists. map (λ v. v.items) lists.items ≡ replicate count []) }
{
    let mut lists = Vec::with_capacity(alloc, count as usize)?;
    for _ in 0..count {
        lists.push(Vec::new(alloc))?;
    }
    Ok(lists)
}

/// The places of the sessions into each of so many devices.
fn into_of(alloc: Global, ends: &[SessionEnds], count: u32) -> Result<Vec<Vec<u32>>, AllocError>
    requires few { length ends.now < 2 ^ 32 }
    requires receivers { All (λ e. e.to.0 < count) ends.now }
    ensures count { IfOk result (λ into. length into.items ≡ count) }
    ensures places { IfOk result (λ into. ArePlaces ends.now (map (λ v. v.items) into.items)) }
{
    let mut into = empty_lists(alloc, count)?;
    for (place, session) in ends.iter().enumerate() {
        let list = &mut into[session.to.0 as usize];
        list.push(place as u32)?;
    }
    Ok(into)
}

/// There are as many sessions as the links have emulated ends.
pub fn sessions_are_counted()
    ensures { (net : Network) (emulated : List DeviceNumber) → IsValid net
        → length (session_ends net emulated) ≡ session_count net emulated }
{}
