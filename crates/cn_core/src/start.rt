//! The state at the start: nothing was sent, the own prefixes of each emulated device are dirty,
//! and each speaker holds what it says.

ghost use Rattle.std.specs.Prelude.{◌≡◌, ◌<◌, ◌^◌, ◌∷◌, [], All, IfErr, IfOk, OnOk, length, map, option_copied};
ghost use Rattle.cn_record.specs.Rows.{AscendsByPair};
ghost use Rattle.cn_core.specs.OwedLists.{AreListed, count_of};
ghost use Rattle.cn_core.specs.Start.{emulated_rib, first_rib, first_ribs, rows_of, said_routes, speaker_rib, start, with_choice};
ghost use Rattle.cn_core.specs.Stored.{IsHeldUnder, IsKeptRight, held_under, rib_under, stands_for, unsent};
ghost use Rattle.cn_pool.specs.Pool.{Extends};
ghost use Rattle.cn_rib.specs.PrefixSet as set;
ghost use Rattle.std.specs.FinMap as fin;

use crate::best::Best;
use crate::engine::Engine;
use crate::owed::{Owed, count, listed};
use crate::session::{Rib, Session};
use cn_base::{AsPath, Choice, DeviceId, Prefix};
use cn_lists::part_at;
use cn_mail::Mailbox;
use cn_net::{Certified, DeviceSet, Own, SessionIndex, session_count};
use cn_pool::Pool;
use cn_record::{Recorded, Row};
use cn_rib::{IdRib, PrefixMap, PrefixSet, Tally};
use std::alloc::{AllocError, Global};

fn session(alloc: Global, from: DeviceId, to: DeviceId) -> Result<Session, AllocError>
    ensures { IfOk result (λ session. session ≡ unsent from to) }
{
    Ok(Session {
        from,
        to,
        adj_rib_out: IdRib::new(alloc),
        mail: Mailbox::new(alloc)?,
        adj_rib_in: IdRib::new(alloc),
    })
}

// An empty session for each that is kept, by the places of the index.
fn sessions(alloc: Global, index: &SessionIndex) -> Result<Vec<Session>, AllocError>
    ensures { IfOk result (λ sessions.
        sessions.items ≡ map (λ e. unsent e.from e.to) index.now) }
{
    let mut sessions = Vec::with_capacity(alloc, index.len())?;
    for place in 0..index.len() {
        if let Some(ends) = index.ends(place) {
            sessions.push(session(alloc, ends.from, ends.to)?)?;
        }
    }
    Ok(sessions)
}

// These prefixes are dirty.
fn own_dirty(alloc: Global, own: &[Own]) -> Result<PrefixSet, AllocError>
    ensures { IfOk result
        (λ dirty. dirty ≡ set.insert_all set.empty (map (λ o. o.prefix) own.now)) }
{
    let mut dirty = PrefixSet::new(alloc);
    for one in own {
        dirty.insert(one.prefix)?;
    }
    Ok(dirty)
}

// What an emulated device holds at the start.
fn emulated_rib(alloc: Global, certified: &Certified, device: DeviceId) -> Result<Rib, AllocError>
    ensures { IfOk result (λ rib. (rib.loc_rib ≡ fin.empty)
        × (rib.dirty ≡ (emulated_rib certified.now device).dirty)) }
{
    let dirty = match certified.net().device(device) {
        Some(device) => own_dirty(alloc, device.body.own.items())?,
        None => PrefixSet::new(alloc),
    };
    Ok(Rib {
        loc_rib: PrefixMap::new(alloc),
        dirty,
    })
}

// The rows that are recorded of a device: they stand together, and are found by halving.
fn rows_of(rows: &[Row], device: DeviceId) -> &[Row]
    requires { AscendsByPair rows.now }
    ensures { result.now ≡ rows_of rows.now device }
{
    part_at(rows, &device, |row| row.device)
}

// The choice is held too, if there is one.
fn hold(
    alloc: Global,
    pool: &mut Pool,
    routes: &mut PrefixMap<Best>,
    prefix: Prefix,
    choice: Option<&Choice>,
) -> Result<(), AllocError>
    requires { IsHeldUnder pool.old routes.old }
    ensures routes { OnOk result (held_under pool.new routes.new
        ≡ with_choice (held_under pool.old routes.old) prefix (option_copied choice.entry)) }
    ensures under { OnOk result (IsHeldUnder pool.new routes.new) }
    ensures kept { OnOk result (Extends pool.old pool.new) }
{
    let Some(choice) = choice else {
        return Ok(());
    };
    let path = pool.intern_copy(alloc, &choice.path)?;
    let (from, origin) = (choice.from, choice.origin);
    routes.insert(prefix, Best { from, path, origin })
}

// What a speaker says.
fn said_routes(
    alloc: Global,
    pool: &mut Pool,
    recorded: &Recorded,
    device: DeviceId,
) -> Result<PrefixMap<Best>, AllocError>
    ensures routes { IfOk result
        (λ routes. held_under pool.new routes ≡ said_routes recorded.now device) }
    ensures under { IfOk result (λ routes. IsHeldUnder pool.new routes) }
    ensures kept { OnOk result (Extends pool.old pool.new) }
{
    recorded.valid();
    let mut routes = PrefixMap::new(alloc);
    for row in rows_of(recorded.rows(), device) {
        let said = recorded.said(device, &row.prefix);
        hold(alloc, pool, &mut routes, row.prefix, said)?;
    }
    Ok(routes)
}

// What a speaker holds from the start.
fn speaker_rib(
    alloc: Global,
    pool: &mut Pool,
    recorded: &Recorded,
    device: DeviceId,
) -> Result<Rib, AllocError>
    ensures rib { IfOk result (λ rib. rib_under pool.new rib ≡ speaker_rib recorded.now device) }
    ensures under { IfOk result (λ rib. IsHeldUnder pool.new rib.loc_rib) }
    ensures kept { OnOk result (Extends pool.old pool.new) }
{
    Ok(Rib {
        loc_rib: said_routes(alloc, pool, recorded, device)?,
        dirty: PrefixSet::new(alloc),
    })
}

fn rib(
    alloc: Global,
    pool: &mut Pool,
    recorded: &Recorded,
    device: DeviceId,
) -> Result<Rib, AllocError>
    ensures rib { IfOk result (λ rib. rib_under pool.new rib ≡ first_rib recorded.now device) }
    ensures under { IfOk result (λ rib. IsHeldUnder pool.new rib.loc_rib) }
    ensures kept { OnOk result (Extends pool.old pool.new) }
{
    let certified = recorded.certified();
    if certified.emulated().holds(device) {
        return emulated_rib(alloc, certified, device);
    }
    speaker_rib(alloc, pool, recorded, device)
}

fn ribs(alloc: Global, pool: &mut Pool, recorded: &Recorded) -> Result<Vec<Rib>, AllocError>
    ensures ribs { IfOk result
        (λ ribs. map (rib_under pool.new) ribs.items ≡ first_ribs recorded.now) }
    ensures under { IfOk result
        (λ ribs. All (λ rib. IsHeldUnder pool.new rib.loc_rib) ribs.items) }
    ensures kept { OnOk result (Extends pool.old pool.new) }
{
    let mut ribs = Vec::new(alloc);
    for device in 0..recorded.certified().net().count() {
        ribs.push(rib(alloc, pool, recorded, DeviceId(device))?)?;
    }
    Ok(ribs)
}

// The pool with the empty path.
fn first_pool(alloc: Global) -> Result<Pool, AllocError>
    ensures { IfOk result (λ pool. pool ≡ [] ∷ []) }
{
    let mut pool = Pool::new(alloc);
    match pool.intern(AsPath::empty(alloc)) {
        Ok(_) => Ok(pool),
        Err(_) => Err(AllocError),
    }
}

// What each session owes.
fn lists(
    alloc: Global,
    certified: &Certified,
    pool: &Pool,
    sessions: &[Session],
    ribs: &[Rib],
) -> Result<Vec<Owed>, AllocError>
    requires { All (λ x. x.from.0 < length ribs.now) sessions.now }
    ensures { IfOk result (λ lists. AreListed
        (stands_for (record {
          now = certified.now;
          pool = pool.now;
          sessions = sessions.now;
          ribs = ribs.now;
        })) lists.items) }
{
    let net = certified.net();
    let mut lists = Vec::with_capacity(alloc, sessions.len())?;
    for session in sessions {
        let rib = &ribs[session.from.0 as usize];
        lists.push(listed(alloc, net, pool, session, &rib.loc_rib)?)?;
    }
    Ok(lists)
}

// How much each session owes.
fn counted_lists(alloc: Global, lists: &[Owed]) -> Result<Tally, AllocError>
    requires { length lists.now < 2 ^ 32 }
    ensures { IfOk result (λ tally. tally ≡ map count_of lists.now) }
{
    let mut tally = Tally::new(alloc, lists.len() as u32)?;
    count(&mut tally, lists, 0, lists.len());
    Ok(tally)
}

// How many prefixes of each device are dirty.
fn counted_ribs(alloc: Global, ribs: &[Rib]) -> Result<Tally, AllocError>
    requires { length ribs.now < 2 ^ 32 }
    ensures { IfOk result (λ tally. tally ≡ map (λ x. fin.len x.dirty) ribs.now) }
{
    let mut tally = Tally::new(alloc, ribs.len() as u32)?;
    for at in 0..ribs.len() {
        let rib = &ribs[at];
        tally.set(at as u32, rib.dirty.len() as u128);
    }
    Ok(tally)
}

/// The state at the start, and the emulated devices.
pub struct Opened {
    pub engine: Engine,
    pub emulated: DeviceSet,
}

// What is made of an opening for the start.
struct Parts {
    index: SessionIndex,
    pool: Pool,
    sessions: Vec<Session>,
    ribs: Vec<Rib>,
    owed: Vec<Owed>,
    in_mail: Tally,
    in_lists: Tally,
    in_ribs: Tally,
    emulated: DeviceSet,
}

// What the start is made of.
fn made(alloc: Global, recorded: &Recorded) -> Result<Parts, AllocError>
    ensures start { IfOk result (λ made. stands_for (record {
      now = recorded.now.opening;
      pool = made.pool;
      sessions = made.sessions.items;
      ribs = made.ribs.items;
    }) ≡ start recorded.now) }
    ensures right { IfOk result (λ made. IsKeptRight (record {
      now = recorded.now.opening;
      pool = made.pool;
      sessions = made.sessions.items;
      ribs = made.ribs.items;
    }) made.index made.owed.items made.in_mail made.in_lists made.in_ribs) }
    ensures emulated { IfOk result (λ made. made.emulated ≡ recorded.now.opening.emulated) }
{
    recorded.valid();
    let certified = recorded.certified();
    let net = certified.net();
    let emulated = certified.emulated();
    let index = SessionIndex::make(alloc, net, emulated)?;
    let slots = session_count(net, emulated);
    let sessions = sessions(alloc, &index)?;
    let mut pool = first_pool(alloc)?;
    let ribs = ribs(alloc, &mut pool, recorded)?;
    let owed = lists(alloc, certified, &pool, &sessions, &ribs)?;
    let in_mail = Tally::new(alloc, slots as u32)?;
    let in_lists = counted_lists(alloc, &owed)?;
    let in_ribs = counted_ribs(alloc, &ribs)?;
    let emulated = emulated.copy(alloc)?;
    Ok(Parts {
        index,
        pool,
        sessions,
        ribs,
        owed,
        in_mail,
        in_lists,
        in_ribs,
        emulated,
    })
}

/// The state at the start. The opening is handed back for want of memory.
#[tactic(auto, unfolding(crate::specs::Start::start))]
pub fn open(alloc: Global, recorded: Recorded) -> Result<Opened, Recorded>
    ensures engine { IfOk result (λ made. stands_for made.engine ≡ start recorded) }
    ensures emulated { IfOk result (λ made. made.emulated ≡ recorded.opening.emulated) }
    ensures err { IfErr result (λ back. back ≡ recorded) }
{
    let Ok(parts) = made(alloc, &recorded) else {
        return Err(recorded);
    };
    let Parts {
        index,
        pool,
        sessions,
        ribs,
        owed,
        in_mail,
        in_lists,
        in_ribs,
        emulated,
    } = parts;
    let (certified, _) = recorded.parts();
    Ok(Opened {
        engine: Engine {
            certified,
            pool,
            index,
            sessions,
            ribs,
            owed,
            in_mail,
            in_lists,
            in_ribs,
        },
        emulated,
    })
}
