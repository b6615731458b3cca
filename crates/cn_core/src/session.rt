//! What a session and a device keep, and what an event does to them.

ghost use Rattle.std.specs.Prelude.{◌≡◌, ◌<◌, OnOk, OnErr, length, true};
ghost use Rattle.cn_core.specs.Parts.{received, with_all_dirty};
ghost use Rattle.cn_core.specs.Machine.{put_out};
ghost use Rattle.cn_core.specs.Stored.{IsSessionUnder, best_decided, rib_under, session_under};
ghost use Rattle.cn_pool.specs.Pool.{Extends};
ghost use Rattle.cn_wire.specs.Writing.{fits};

use crate::best::Best;
use cn_base::{DeviceId, Items, Prefix};
use cn_mail::Mailbox;
use cn_pool::Pool;
use cn_rib::{IdRib, PrefixMap, PrefixSet, take_in};
use cn_wire::{Update, WireAnswer, decode, encode};
use std::alloc::{AllocError, Global};

/// A directed session: what was sent over it (the sender's Adj-RIB-Out), the messages that are
/// under way, each as its octets, and what came in over it (the receiver's Adj-RIB-In; RFC 4271,
/// 3.2). The paths are held in the pool of the engine.
#[derive(Drop)]
pub struct Session {
    pub from: DeviceId,
    pub to: DeviceId,
    pub adj_rib_out: IdRib,
    pub mail: Mailbox<Items<u8>>,
    pub adj_rib_in: IdRib,
}

/// What a device holds (its Loc-RIB; RFC 4271, 3.2), and the prefixes for which it is to decide
/// again.
#[derive(Drop)]
pub struct Rib {
    pub loc_rib: PrefixMap<Best>,
    pub dirty: PrefixSet,
}

impl Session {
    /// What an update says counts as sent, and the octets that spell it stand last in the mailbox.
    pub fn put_out(
        &mut self,
        alloc: Global,
        pool: &mut Pool,
        update: &Update,
    ) -> Result<(), AllocError>
        requires room { length self.old.mail < 64 }
        requires fits { fits update.now ≡ true }
        requires under { IsSessionUnder pool.old self.old }
        ensures ok { OnOk result (session_under pool.new self.new
            ≡ put_out update.now (session_under pool.old self.old)) }
        ensures under { IsSessionUnder pool.new self.new }
        ensures kept { Extends pool.old pool.new }
        ensures err { OnErr result (self.new ≡ self.old) }
    {
        let octets = encode(alloc, update)?;
        self.adj_rib_out.apply(alloc, pool, update)?;
        if self.mail.push(Items::make(octets)).is_err() {
            unreachable!();
        }
        Ok(())
    }
}

impl Rib {
    /// The choice is held, and the prefix is clean.
    pub fn decide(&mut self, prefix: &Prefix, choice: Option<Best>) -> Result<(), AllocError>
        ensures ok { OnOk result (self.new ≡ best_decided self.old prefix.now choice) }
        ensures err { OnErr result (self.new ≡ self.old) }
    {
        match choice {
            Some(choice) => self.loc_rib.insert(*prefix, choice)?,
            None => self.loc_rib.remove(prefix),
        }
        self.dirty.remove(prefix);
        Ok(())
    }
}

/// The update that the first message of a session spells is taken in, and its prefixes become dirty
/// at the receiver. Octets that spell none change nothing.
pub fn receive(
    alloc: Global,
    pool: &mut Pool,
    session: &mut Session,
    rib: &mut Rib,
) -> Result<(), AllocError>
    requires { IsSessionUnder pool.old session.old }
    ensures session { OnOk result (session_under pool.new session.new
        ≡ received (session_under pool.old session.old)) }
    ensures rib { OnOk result (rib_under pool.old rib.new
        ≡ with_all_dirty session.old.mail (rib_under pool.old rib.old)) }
    ensures best { rib.new.loc_rib ≡ rib.old.loc_rib }
    ensures under { IsSessionUnder pool.new session.new }
    ensures kept { Extends pool.old pool.new }
    ensures err_session { OnErr result (session.new ≡ session.old) }
    ensures err_rib { OnErr result (rib.new ≡ rib.old) }
{
    let Some(octets) = session.mail.front() else {
        return Ok(());
    };
    let update = match decode(alloc, octets.items()) {
        Ok(update) => update,
        Err(WireAnswer::Fault(_)) => return Ok(()),
        Err(WireAnswer::Memory) => return Err(AllocError),
    };
    take_in(
        alloc,
        pool,
        &mut session.adj_rib_in,
        &mut rib.dirty,
        &update,
    )?;
    session.mail.pop();
    Ok(())
}
