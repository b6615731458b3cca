//! What a session owes (RFC 4271, 9.2).

ghost use Rattle.std.specs.Prelude.{◌≡◌, ◌⊎◌, ℕ, ◌-◌, ◌==◌, ◌&&◌, ◌<◌, ◌≤◌, ◌^◌, IfOk, OnErr, OnOk, None, length, map, option_copied, option_map, slice_index, slice_index_or, true};
ghost use Rattle.std.specs.FinMap as fin;
ghost use Rattle.cn_core.specs.declared.owed.Owed.{Owed as Listed};
ghost use Rattle.cn_core.specs.Owed.{offered_attributes, unless_sent};
ghost use Rattle.cn_core.specs.Machine.{put_out};
ghost use Rattle.cn_core.specs.Stored.{IsSessionUnder, best_decided, choice_under, held_under, session_under};
ghost use Rattle.cn_pool.specs.Pool.{Extends};
ghost use Rattle.cn_rib.specs.Interned.{attributes_under};
ghost use Rattle.cn_core.specs.OwedLists.{AreAdded, AreDues, AreElsewhere, AreKept, AreListedBut, AreListedFrom, AreSomeAdded, IsListed, due_of, count_of, empty_lists, only_due, owed_over, with_all_due, with_due, without_all};
ghost use Rattle.cn_rib.specs.Updates.{prefixes_of};
ghost use Rattle.cn_wire.specs.Writing.{fits};

use crate::best::Best;
use crate::session::{Rib, Session};
use cn_base::{DeviceId, Prefix};
use cn_net::Net;
use cn_pool::Pool;
use cn_rib::{Interned, PrefixMap, PrefixSet, Row, Tally};
use cn_wire::Update;
use std::alloc::{AllocError, Global};

/// What a session owes for a prefix.
#[derive(Clone, Copy)]
pub enum Due {
    Nothing,
    Withdrawal,
    Announcement,
}

/// The prefixes that a session is to withdraw, and those that it is to announce.
#[derive(Drop)]
pub struct Owed {
    pub withdrawals: PrefixSet,
    pub announcements: PrefixSet,
}

// ---- for one prefix

// What is owed where nothing is offered.
fn due_unoffered(pool: &Pool, sent: Option<Interned>) -> Due
    ensures { result ≡ due_of (unless_sent (option_map (attributes_under pool.now) sent) None) }
{
    let _ = pool;
    match sent {
        Some(_) => Due::Withdrawal,
        None => Due::Nothing,
    }
}

// What is owed for a prefix, by what was sent and by what the sender holds.
fn due_with(
    net: &Net,
    pool: &Pool,
    from: DeviceId,
    to: DeviceId,
    prefix: &Prefix,
    sent: Option<Interned>,
    held: Option<&Best>,
) -> Due
    ensures { result
        ≡ due_of (unless_sent (option_map (attributes_under pool.now) sent)
        (offered_attributes net.now from to prefix.now
        (option_map (choice_under pool.now) (option_copied held.entry)))) }
{
    let Some(best) = held else {
        return due_unoffered(pool, sent);
    };
    let path = pool.path(best.path);
    if !net.has_offer(from, to, prefix, path) {
        return due_unoffered(pool, sent);
    }
    let Some(sent) = sent else {
        return Due::Announcement;
    };
    let sent_path = pool.path(sent.path);
    if net.is_offer(from, to, prefix, path, best.origin, sent_path, sent.origin) {
        return Due::Nothing;
    }
    Due::Announcement
}

// What a session owes for a prefix.
fn due_for(
    net: &Net,
    pool: &Pool,
    session: &Session,
    best: &PrefixMap<Best>,
    prefix: &Prefix,
) -> Due
    ensures { result
        ≡ due_of (fin.get
        (owed_over net.now (held_under pool.now best.now) (session_under pool.now session.now))
        prefix.now) }
{
    due_with(
        net,
        pool,
        session.from,
        session.to,
        prefix,
        session.adj_rib_out.at(prefix),
        best.get(prefix),
    )
}

// ---- of a session

impl Owed {
    // Nothing is owed.
    fn new(alloc: Global) -> Owed
        ensures { result ≡ empty_lists }
    {
        Owed {
            withdrawals: PrefixSet::new(alloc),
            announcements: PrefixSet::new(alloc),
        }
    }

    /// Holds where nothing is owed.
    pub fn is_empty(&self) -> bool
        ensures { result
            ≡ ((fin.len self.now.withdrawals == 0) && (fin.len self.now.announcements == 0)) }
    {
        self.withdrawals.is_empty() && self.announcements.is_empty()
    }

    /// How many prefixes are owed.
    pub fn len(&self) -> u128
        ensures { result ≡ count_of self.now }
    {
        self.withdrawals.len() as u128 + self.announcements.len() as u128
    }

    // The prefixes of a message are in no list.
    fn forget(&mut self, update: &Update)
        ensures { self.new ≡ without_all self.old (prefixes_of update.now) }
    {
        self.withdrawals.remove_all(update.withdrawn.items());
        self.withdrawals.remove_all(update.announced.items());
        self.announcements.remove_all(update.withdrawn.items());
        self.announcements.remove_all(update.announced.items());
    }

    // The prefix is taken out of the list that it doesn't belong to.
    fn keep(&mut self, prefix: &Prefix, due: Due)
        ensures { self.new ≡ only_due self.old prefix.now due }
    {
        match due {
            Due::Nothing => {
                self.withdrawals.remove(prefix);
                self.announcements.remove(prefix);
            }
            Due::Withdrawal => self.announcements.remove(prefix),
            Due::Announcement => self.withdrawals.remove(prefix),
        }
    }

    // The prefix stands in the list that it belongs to, and is taken out of none.
    fn add(&mut self, prefix: &Prefix, due: Due) -> Result<(), AllocError>
        ensures ok { OnOk result (self.new ≡ with_due self.old prefix.now due) }
        ensures err { OnErr result (self.new ≡ self.old) }
    {
        match due {
            Due::Nothing => Ok(()),
            Due::Withdrawal => self.withdrawals.insert(*prefix),
            Due::Announcement => self.announcements.insert(*prefix),
        }
    }

    // The same, of each of these prefixes.
    fn add_all<V>(
        &mut self,
        net: &Net,
        pool: &Pool,
        session: &Session,
        best: &PrefixMap<Best>,
        rows: &[Row<V>],
    ) -> Result<(), AllocError>
        ensures { OnOk result
            (self.new
            ≡ with_all_due
            (owed_over net.now (held_under pool.now best.now) (session_under pool.now session.now))
            self.old (map (λ r. r.prefix) rows.now)) }
    {
        for row in rows {
            let due = due_for(net, pool, session, best, &row.prefix);
            self.add(&row.prefix, due)?;
        }
        Ok(())
    }
}

/// What a session owes, found by looking at each prefix that was sent or is held.
pub fn listed(
    alloc: Global,
    net: &Net,
    pool: &Pool,
    session: &Session,
    best: &PrefixMap<Best>,
) -> Result<Owed, AllocError>
    ensures { IfOk result (λ lists. IsListed
        (owed_over net.now (held_under pool.now best.now) (session_under pool.now session.now))
        lists) }
{
    let mut lists = Owed::new(alloc);
    lists.add_all(net, pool, session, best, session.adj_rib_out.rows())?;
    lists.add_all(net, pool, session, best, best.rows())?;
    Ok(lists)
}

// ---- after a decision

// What each of these sessions owes for a prefix, once their sender holds a choice.
fn dues(
    alloc: Global,
    net: &Net,
    pool: &Pool,
    sessions: &[Session],
    start: usize,
    end: usize,
    prefix: &Prefix,
    held: Option<&Best>,
) -> Result<Vec<Due>, AllocError>
    requires inside { end ≤ length sessions.now }
    ensures dues { IfOk result (λ dues. AreDues net.now
        (option_map (choice_under pool.now) (option_copied held.entry)) prefix.now
        (map (session_under pool.now) sessions.now) start end dues.items) }
{
    let mut dues = Vec::with_capacity(alloc, end.saturating_sub(start))?;
    for at in start..end {
        let session = &sessions[at];
        let sent = session.adj_rib_out.at(prefix);
        dues.push(due_with(net, pool, session.from, session.to, prefix, sent, held))?;
    }
    Ok(dues)
}

// What these sessions owe for a prefix is put into the lists in which it isn't.
fn add_dues(
    lists: &mut Vec<Owed>,
    dues: &[Due],
    start: usize,
    end: usize,
    prefix: &Prefix,
) -> Result<(), AllocError>
    requires inside { end ≤ length lists.old.items }
    requires many { end - start ≤ length dues.now }
    ensures added { OnOk result
        (AreAdded dues.now prefix.now start end lists.old.items lists.new.items) }
    ensures some { AreSomeAdded dues.now prefix.now start end lists.old.items lists.new.items }
    ensures elsewhere { AreElsewhere start end lists.old.items lists.new.items }
{
    for at in start..end {
        lists[at].add(prefix, dues[at - start])?;
    }
    Ok(())
}

// A prefix is taken out of the lists in which it doesn't belong, by what these sessions owe.
fn keep_dues(lists: &mut Vec<Owed>, dues: &[Due], start: usize, end: usize, prefix: &Prefix)
    requires inside { end ≤ length lists.old.items }
    requires many { end - start ≤ length dues.now }
    ensures kept { AreKept dues.now prefix.now start end lists.old.items lists.new.items }
    ensures elsewhere { AreElsewhere start end lists.old.items lists.new.items }
{
    for at in start..end {
        lists[at].keep(prefix, dues[at - start]);
    }
}

// A prefix is taken out of the lists of these sessions in which it doesn't belong. What they owe is
// found anew: a decision that failed holds no choice, so what would be owed with it says nothing.
fn keep_due(
    net: &Net,
    pool: &Pool,
    sessions: &[Session],
    best: &PrefixMap<Best>,
    lists: &mut Vec<Owed>,
    start: usize,
    end: usize,
    prefix: &Prefix,
)
    requires inside { end ≤ length sessions.now }
    requires many { length lists.old.items ≡ length sessions.now }
    requires but { AreListedBut net.now (held_under pool.now best.now) prefix.now
        (map (session_under pool.now) sessions.now) start end lists.old.items }
    ensures listed { AreListedFrom net.now (held_under pool.now best.now)
        (map (session_under pool.now) sessions.now) start end lists.new.items }
    ensures elsewhere { AreElsewhere start end lists.old.items lists.new.items }
{
    for at in start..end {
        let due = due_for(net, pool, &sessions[at], best, prefix);
        lists[at].keep(prefix, due);
    }
}

/// A device holds a choice for a prefix, and its sessions, which stand at these places, have what
/// they owe then, which is found once. All memory is taken before anything is taken out, and what a
/// failure leaves is taken back.
pub fn decide(
    alloc: Global,
    net: &Net,
    pool: &Pool,
    sessions: &[Session],
    lists: &mut Vec<Owed>,
    start: usize,
    end: usize,
    rib: &mut Rib,
    prefix: &Prefix,
    choice: Option<Best>,
) -> Result<(), AllocError>
    requires inside { end ≤ length sessions.now }
    requires many { length lists.old.items ≡ length sessions.now }
    requires listed { AreListedFrom net.now (held_under pool.now rib.old.loc_rib)
        (map (session_under pool.now) sessions.now) start end lists.old.items }
    ensures ok { OnOk result (rib.new ≡ best_decided rib.old prefix.now choice) }
    ensures err { OnErr result (rib.new ≡ rib.old) }
    ensures listed { AreListedFrom net.now (held_under pool.now rib.new.loc_rib)
        (map (session_under pool.now) sessions.now) start end lists.new.items }
    ensures elsewhere { AreElsewhere start end lists.old.items lists.new.items }
{
    let held = choice.as_ref();
    let dues = dues(alloc, net, pool, sessions, start, end, prefix, held)?;
    if let Err(no_memory) = add_dues(lists, &dues, start, end, prefix) {
        keep_due(net, pool, sessions, &rib.loc_rib, lists, start, end, prefix);
        return Err(no_memory);
    }
    if let Err(no_memory) = rib.decide(prefix, choice) {
        keep_due(net, pool, sessions, &rib.loc_rib, lists, start, end, prefix);
        return Err(no_memory);
    }
    keep_dues(lists, &dues, start, end, prefix);
    Ok(())
}

/// How much each of these sessions owes, which stand at these places, is counted anew.
pub fn count(tally: &mut Tally, lists: &[Owed], start: usize, end: usize)
    requires inside { end ≤ length lists.now }
    requires few { length lists.now < 2 ^ 32 }
    requires many { length tally.old ≡ length lists.now }
    ensures many { length tally.new ≡ length tally.old }
    ensures these { (k : ℕ) (y : Listed) → start ≤ k → k < end
        → slice_index tally.new k ≡ count_of (slice_index_or lists.now k y) }
    ensures elsewhere { (k : ℕ) → (k < start) ⊎ (end ≤ k)
        → slice_index tally.new k ≡ slice_index tally.old k }
{
    for at in start..end {
        tally.set(at as u32, lists[at].len());
    }
}

// ---- after a send

/// A message is sent over a session, which owes its prefixes no more.
pub fn send(
    alloc: Global,
    pool: &mut Pool,
    session: &mut Session,
    lists: &mut Owed,
    update: &Update,
) -> Result<(), AllocError>
    requires room { length session.old.mail < 64 }
    requires fits { fits update.now ≡ true }
    requires under { IsSessionUnder pool.old session.old }
    ensures session { OnOk result (session_under pool.new session.new
        ≡ put_out update.now (session_under pool.old session.old)) }
    ensures lists { OnOk result (lists.new ≡ without_all lists.old (prefixes_of update.now)) }
    ensures under { IsSessionUnder pool.new session.new }
    ensures kept { Extends pool.old pool.new }
    ensures err_session { OnErr result (session.new ≡ session.old) }
    ensures err_lists { OnErr result (lists.new ≡ lists.old) }
{
    session.put_out(alloc, pool, update)?;
    lists.forget(update);
    Ok(())
}
