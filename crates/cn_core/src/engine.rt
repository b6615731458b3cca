//! The state behind a core: the network, its sessions, and what its devices hold.
//!
//! A session is found by its place: the index of the sessions has the places of those from a
//! device, of those into a device, and of the one between two devices. It never changes, since no
//! event changes which sessions there are.

ghost use Rattle.std.specs.Prelude.{◌≡◌, ◌<◌, ◌&&◌, MatchOption, OnOk, OnErr, IsTrue, length, nat_lt, option_copied, option_map, slice_index_or};
ghost use Rattle.std.specs.List.{find};
ghost use Rattle.cn_net.specs.Network.{IsDevice};
ghost use Rattle.cn_rib.specs.PrefixSet as set;
ghost use Rattle.cn_core.specs.Machine.{after_event, can, decide, receive, send};
ghost use Rattle.cn_core.specs.Owed.{owes};
ghost use Rattle.cn_core.specs.State.{SessionState, is_session, rib, session};
ghost use Rattle.cn_core.specs.Stored.{rib_under, session_under, stands_for};
ghost use Rattle.cn_core.specs.Whole.{IsNowhere, IsPlaceOf};

use crate::event::Event;
use crate::message::message;
use crate::owed::{Owed, count, decide, send};
use crate::session::{Rib, Session, receive};
use cn_base::{DeviceId, Prefix};
use cn_net::{Certified, SessionIndex};
use cn_pool::Pool;
use cn_rib::Tally;
use std::alloc::{AllocError, Global};
use std::marker::Model;

/// The certified opening now, the sessions by `(from, to)` with an index of their places, and what
/// each device holds, by its number; their paths are held in a pool, the empty path first. Beside
/// these what each session owes, by its place, is kept, and how much there is to do.
#[derive(Drop)]
pub struct Engine {
    pub certified: Certified,
    /// The paths of all routes, each once.
    pub pool: Pool,
    /// The sessions of the emulation (`session_ends`), at the places where they stand here.
    pub index: SessionIndex,
    pub sessions: Vec<Session>,
    pub ribs: Vec<Rib>,
    pub owed: Vec<Owed>,
    /// How many messages are under way in each session.
    pub in_mail: Tally,
    /// How many prefixes each session owes.
    pub in_lists: Tally,
    /// How many prefixes of each device are dirty.
    pub in_ribs: Tally,
}

impl Model for Engine {
    ghost use Rattle.cn_core.specs.StoredCode.{stored_code};
    ghost use Rattle.cn_core.specs.Stored.{IsKeptRight, Stored};

    ghost Value = { Stored };

    ghost coded = { stored_code };

    ghost view = { λ t. record {
      now = t.certified;
      pool = t.pool;
      sessions = t.sessions.items;
      ribs = t.ribs.items;
    } };

    ghost invariant = { λ t.
        IsKeptRight (record {
          now = t.certified;
          pool = t.pool;
          sessions = t.sessions.items;
          ribs = t.ribs.items;
        }) t.index t.owed.items t.in_mail t.in_lists t.in_ribs };
}

impl Engine {
    /// The place of a session, found among those of its sender.
    pub fn place(&self, from: DeviceId, to: DeviceId) -> Option<usize>
        ensures { MatchOption result (IsNowhere from to (stands_for self.now).sessions)
            (λ i. IsPlaceOf from to (stands_for self.now).sessions i) }
    {
        self.index.valid();
        self.index.place(from, to)
    }

    fn session(&self, from: DeviceId, to: DeviceId) -> Option<&Session>
        ensures { option_map (session_under self.now.pool) (option_copied result)
            ≡ find (is_session from to) (stands_for self.now).sessions }
    {
        match self.place(from, to) {
            Some(at) => Some(&self.sessions[at]),
            None => None,
        }
    }

    /// What a device holds.
    pub fn rib(&self, device: DeviceId) -> &Rib
        requires { IsDevice self.now.now.net device }
        ensures { rib_under self.now.pool result.now ≡ rib (stands_for self.now) device }
    {
        &self.ribs[device.0 as usize]
    }

    /// Whether the session at a place owes something.
    pub fn owes(&self, place: usize) -> bool
        requires { place < length self.now.sessions }
        ensures { (x : SessionState)
            → result
            ≡ owes (stands_for self.now) (slice_index_or (stands_for self.now).sessions place x) }
    {
        !self.owed[place].is_empty()
    }

    // ---- whether an event is enabled

    #[tactic(auto, unfolding(crate::specs::State::session))]
    fn has_mail(&self, from: DeviceId, to: DeviceId) -> bool
        ensures { result ≡ nat_lt 0 (length (session (stands_for self.now) from to).mail) }
    {
        match self.session(from, to) {
            Some(session) => !session.mail.is_empty(),
            None => false,
        }
    }

    fn is_dirty(&self, device: DeviceId, prefix: &Prefix) -> bool
        ensures { result ≡ set.contains (rib (stands_for self.now) device).dirty prefix.now }
    {
        match self.ribs.get(device.0 as usize) {
            Some(rib) => rib.dirty.contains(prefix),
            None => false,
        }
    }

    fn can_send(&self, from: DeviceId, to: DeviceId) -> bool
        ensures { result ≡ can (stands_for self.now) (Event.Send from to) }
    {
        match self.place(from, to) {
            Some(at) => {
                let session = &self.sessions[at];
                self.owes(at) && session.mail.len() < 64
            }
            None => false,
        }
    }

    /// Whether an event is enabled.
    pub fn can(&self, event: &Event) -> bool
        ensures { result ≡ can (stands_for self.now) event.now }
    {
        match event {
            Event::Receive { from, to } => self.has_mail(*from, *to),
            Event::Decide { device, prefix } => self.is_dirty(*device, prefix),
            Event::Send { from, to } => self.can_send(*from, *to),
        }
    }

    // ---- an event that is enabled; all memory is taken before anything changes

    fn receive(&mut self, alloc: Global, from: DeviceId, to: DeviceId) -> Result<(), AllocError>
        ensures ok { OnOk result
            (stands_for self.new
            ≡ receive (stands_for self.old) from to
            (session (stands_for self.old) from to).mail) }
        ensures err { OnErr result (stands_for self.new ≡ stands_for self.old) }
    {
        let Some(at) = self.place(from, to) else {
            return Ok(());
        };
        let session = &mut self.sessions[at];
        let rib = &mut self.ribs[to.0 as usize];
        receive(alloc, &mut self.pool, session, rib)?;
        let left = session.mail.len();
        self.in_mail.set(at as u32, left as u128);
        self.in_ribs.set(to.0, rib.dirty.len() as u128);
        Ok(())
    }

    fn decide(&mut self, alloc: Global, device: DeviceId, prefix: &Prefix) -> Result<(), AllocError>
        requires { device.0 < length self.old.ribs }
        ensures ok { OnOk result
            (stands_for self.new ≡ decide (stands_for self.old) device prefix.now) }
        ensures err { OnErr result (stands_for self.new ≡ stands_for self.old) }
    {
        let choice = self.decided(device, prefix);
        let (start, end) = self.places_from(device);
        let net = self.certified.net();
        let pool = &self.pool;
        let rib = &mut self.ribs[device.0 as usize];
        let lists = &mut self.owed;
        let sessions = &self.sessions;
        let done = decide(
            alloc, net, pool, sessions, lists, start, end, rib, prefix, choice,
        );
        count(&mut self.in_lists, &self.owed, start, end);
        self.in_ribs.set(device.0, rib.dirty.len() as u128);
        done
    }

    fn send(&mut self, alloc: Global, from: DeviceId, to: DeviceId) -> Result<(), AllocError>
        requires { IsTrue (can (stands_for self.old) (Event.Send from to)) }
        ensures ok { OnOk result (stands_for self.new ≡ send (stands_for self.old) from to) }
        ensures err { OnErr result (stands_for self.new ≡ stands_for self.old) }
    {
        let Some(at) = self.place(from, to) else {
            return Ok(());
        };
        let rib = &self.ribs[from.0 as usize];
        let session = &mut self.sessions[at];
        let lists = &mut self.owed[at];
        let net = self.certified.net();
        let update = message(alloc, net, &self.pool, session, &rib.loc_rib, lists)?;
        send(alloc, &mut self.pool, session, lists, &update)?;
        self.in_mail.set(at as u32, session.mail.len() as u128);
        self.in_lists.set(at as u32, lists.len());
        Ok(())
    }

    /// An event that is enabled happens. All memory is taken before anything changes.
    pub fn apply(&mut self, alloc: Global, event: &Event) -> Result<(), AllocError>
        requires { IsTrue (can (stands_for self.old) event.now) }
        ensures ok { OnOk result
            (stands_for self.new ≡ after_event (stands_for self.old) event.now) }
        ensures err { OnErr result (stands_for self.new ≡ stands_for self.old) }
    {
        match event {
            Event::Receive { from, to } => self.receive(alloc, *from, *to),
            Event::Decide { device, prefix } => self.decide(alloc, *device, prefix),
            Event::Send { from, to } => self.send(alloc, *from, *to),
        }
    }
}
