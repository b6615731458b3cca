//! What came in or was sent over a session, after updates.

ghost use Rattle.std.specs.Prelude.{IfOk};
ghost use Rattle.cn_rib.specs.Interned.{IsUnder};

use crate::words::{prefix, same};
use cn_base::{AsPath, Asn, Items, Origin, Prefix};
use cn_pool::Pool;
use cn_rib::{IdRib, Interned, PrefixSet, Row, take_in};
use cn_wire::{Attrs, Update};
use std::alloc::Global;
use std::test::Fail;

// The bits and the length of a prefix.
type Bits = (u32, u8);

const NINE: Bits = (0x0900_0000, 8);

const TEN: Bits = (0x0A00_0000, 8);

const TEN_ZERO: Bits = (0x0A00_0000, 16);

const ELEVEN: Bits = (0x0B00_0000, 8);

// What an update says: the prefixes that are withdrawn, the one AS number of the path, if there are
// attributes, and the prefixes that are announced.
type Saying = (&'static [Bits], Option<u32>, &'static [Bits]);

// Routes to 10.0.0.0/8 and 11.0.0.0/8, by the AS number 1.
const FIRST: Saying = (&[], Some(1), &[ELEVEN, TEN]);

// A case, what an update says, and the AS numbers of the routes after FIRST and then that update,
// in the order of their prefixes; behind them, the prefixes that wait for a decision.
const UPDATES: &[(&str, Saying, &str)] = &[
    (
        "an announcement wins over a withdrawal",
        (&[TEN], Some(2), &[TEN]),
        "2 false: 10/8 2 11/8 1; 10/8",
    ),
    ("a withdrawal", (&[TEN], None, &[]), "1 false: 11/8 1; 10/8"),
    (
        "a withdrawal of no route",
        (&[TEN_ZERO], None, &[]),
        "2 false: 10/8 1 11/8 1; 10/16",
    ),
    (
        "all are withdrawn",
        (&[TEN, ELEVEN], None, &[]),
        "0 true:; 10/8 11/8",
    ),
    (
        "an announcement of two",
        (&[], Some(2), &[ELEVEN, NINE]),
        "3 false: 9/8 2 10/8 1 11/8 2; 9/8 11/8",
    ),
    (
        "an announcement without attributes",
        (&[], None, &[NINE]),
        "2 false: 10/8 1 11/8 1; 9/8",
    ),
    ("nothing", (&[], None, &[]), "2 false: 10/8 1 11/8 1;"),
];

fn prefixes(alloc: Global, list: &[Bits]) -> Result<Items<Prefix>, Fail> {
    let mut prefixes = Vec::new(alloc);
    for bits in list {
        prefixes.push(prefix(*bits)?)?;
    }
    Ok(Items::make(prefixes))
}

fn update_of(alloc: Global, saying: Saying) -> Result<Update, Fail> {
    let (withdrawn, number, announced) = saying;
    let attrs = match number {
        None => None,
        Some(number) => Some(Attrs {
            origin: Origin::Igp,
            path: AsPath::make(vec![in alloc; Asn(number)]?).ok_or("too long")?,
            next_hop: 0x0A00_0002,
        }),
    };
    Ok(Update {
        withdrawn: prefixes(alloc, withdrawn)?,
        attrs,
        announced: prefixes(alloc, announced)?,
    })
}

// A prefix, of whose address the first octet is told alone.
fn told(alloc: Global, prefix: &Prefix) -> Result<String, Fail> {
    let (bits, len) = (prefix.bits(), prefix.len());
    Ok(format!(in alloc; " {}/{len}", bits >> 24)?)
}

fn rows_told(alloc: Global, pool: &Pool, rows: &[Row<Interned>]) -> Result<String, Fail> {
    let mut text = String::new(alloc);
    for row in rows {
        text.push_str(&told(alloc, &row.prefix)?)?;
        let number = pool.path(row.value.path).get(0).ok_or("no number")?;
        text.push_str(&format!(in alloc; " {}", number.0)?)?;
    }
    Ok(text)
}

fn set_told(alloc: Global, set: &PrefixSet) -> Result<String, Fail> {
    let mut text = String::new(alloc);
    for row in set.rows() {
        text.push_str(&told(alloc, &row.prefix)?)?;
    }
    Ok(text)
}

// The routes after FIRST.
fn first(alloc: Global, pool: &mut Pool) -> Result<IdRib, Fail>
    ensures { IfOk result (λ routes. IsUnder pool.new routes) }
{
    let update = update_of(alloc, FIRST)?;
    let mut routes = IdRib::new(alloc);
    routes.apply(alloc, pool, &update)?;
    Ok(routes)
}

// The routes, and the prefixes of the update, after it was applied, or taken in.
fn after(alloc: Global, taken_in: bool, saying: Saying) -> Result<String, Fail> {
    let mut pool = Pool::new(alloc);
    let mut routes = first(alloc, &mut pool)?;
    let update = update_of(alloc, saying)?;
    let mut named = PrefixSet::new(alloc);
    if taken_in {
        take_in(alloc, &mut pool, &mut routes, &mut named, &update)?;
    } else {
        routes.apply(alloc, &mut pool, &update)?;
        named.insert_each(update.withdrawn.items())?;
        named.insert_each(update.announced.items())?;
    }
    let (len, none) = (routes.len(), routes.is_empty());
    let rows = rows_told(alloc, &pool, routes.rows())?;
    Ok(format!(in alloc; "{len} {none}:{rows};{}", set_told(alloc, &named)?)?)
}

// A place, and the prefix that stands there after FIRST.
const PLACES: &[(usize, &str)] = &[
    (0, "Some(Prefix { bits: 167772160, len: 8 })"),
    (1, "Some(Prefix { bits: 184549376, len: 8 })"),
    (2, "None"),
    (usize::MAX, "None"),
];

fn at(alloc: Global, place: usize) -> Result<String, Fail> {
    let mut pool = Pool::new(alloc);
    let routes = first(alloc, &mut pool)?;
    Ok(format!(in alloc; "{:?}", routes.prefix_at(place))?)
}

// The number of the route to a prefix after FIRST, and whether there is one after all routes were
// taken out.
fn has(alloc: Global, bits: Bits) -> Result<String, Fail> {
    let prefix = prefix(bits)?;
    let mut pool = Pool::new(alloc);
    let mut routes = first(alloc, &mut pool)?;
    let before = match routes.get(&pool, &prefix) {
        Some((path, _)) => path.get(0),
        None => None,
    };
    routes.clear();
    let after = routes.at(&prefix).is_some();
    Ok(format!(in alloc; "{before:?} {after}")?)
}

#[test]
fn updates_are_applied(rt: HostRuntime) -> Result<(), Fail> {
    let alloc = rt.alloc();
    for (case, saying, text) in UPDATES {
        same(&rt, case, &after(alloc, true, *saying)?, text);
        same(&rt, case, &after(alloc, false, *saying)?, text);
    }
    for (place, text) in PLACES {
        same(&rt, text, &at(alloc, *place)?, text);
    }
    same(&rt, "a route", &has(alloc, TEN)?, "Some(Asn(1)) false");
    same(&rt, "no route", &has(alloc, NINE)?, "None false");
    Ok(())
}
