//! Which ids a pool gives to paths.

use crate::words::same;
use cn_base::{AsPath, Asn};
use cn_pool::{PathId, Pool};
use std::alloc::Global;
use std::test::Fail;

// What is asked of a pool.
enum Ask {
    // The path of these numbers joins.
    Join(&'static [u32]),
    // The paths of one number each, from 0 on, join, so many.
    JoinEach(u32),
    // So many copies of 7 are put in front of the path with this id.
    Extend(u32, u8),
    // The first number of the path with this id.
    First(u32),
}

use Ask::{Extend, First, Join, JoinEach};

// A case, what is asked of a pool, and what it answers, with how many paths it has in the end.
const CASES: &[(&str, &[Ask], &str)] = &[
    (
        "equal paths share an id",
        &[Join(&[1, 2]), Join(&[2, 1]), Join(&[1, 2]), Join(&[2, 1])],
        "0 1 0 1 of 2",
    ),
    (
        "ids keep their paths while the pool grows",
        &[
            Join(&[8, 8]),
            JoinEach(100),
            First(1),
            First(100),
            First(101),
            Join(&[99]),
        ],
        "0 100 Some(Asn(0)) Some(Asn(99)) None 100 of 101",
    ),
    (
        "a longer path has one id, by whichever way it came",
        &[
            Join(&[3]),
            Extend(0, 2),
            Extend(0, 2),
            Join(&[7, 7, 3]),
            Extend(0, 0),
            Extend(1, 1),
        ],
        "0 Some(PathId(1)) Some(PathId(1)) 1 Some(PathId(0)) Some(PathId(2)) of 3",
    ),
    (
        "no path passes 255 numbers",
        &[Join(&[3]), Extend(0, 255), Extend(0, 254), Extend(1, 1)],
        "0 None Some(PathId(1)) None of 2",
    ),
];

// The id that a pool gives to the path of these numbers.
fn join(alloc: Global, pool: &mut Pool, numbers: &[u32]) -> Result<u32, Fail> {
    let mut made = Vec::new(alloc);
    for number in numbers {
        made.push(Asn(*number))?;
    }
    let path = AsPath::make(made).ok_or("too long")?;
    Ok(pool.intern(path).ok().ok_or("no memory")?.0)
}

// The last id that is given.
fn join_each(alloc: Global, pool: &mut Pool, count: u32) -> Result<u32, Fail> {
    let mut last = 0;
    for number in 0..count {
        last = join(alloc, pool, &[number])?;
    }
    Ok(last)
}

fn extend(alloc: Global, pool: &mut Pool, id: u32, times: u8) -> Result<Option<PathId>, Fail> {
    if u64::from(id) < pool.len() as u64 {
        Ok(pool.extended(alloc, PathId(id), Asn(7), times)?)
    } else {
        Err("no such id")?
    }
}

fn first(pool: &Pool, id: u32) -> Option<Asn> {
    pool.path_of(PathId(id)).and_then(|path| path.get(0))
}

fn answer(alloc: Global, pool: &mut Pool, ask: &Ask) -> Result<String, Fail> {
    match ask {
        Join(numbers) => Ok(format!(in alloc; "{} ", join(alloc, pool, numbers)?)?),
        JoinEach(count) => Ok(format!(in alloc; "{} ", join_each(alloc, pool, *count)?)?),
        Extend(id, times) => Ok(format!(in alloc; "{:?} ", extend(alloc, pool, *id, *times)?)?),
        First(id) => Ok(format!(in alloc; "{:?} ", first(pool, *id))?),
    }
}

fn answers(alloc: Global, asks: &[Ask]) -> Result<String, Fail> {
    let mut pool = Pool::new(alloc);
    let mut text = String::new(alloc);
    for ask in asks {
        text.push_str(&answer(alloc, &mut pool, ask)?)?;
    }
    text.push_str(&format!(in alloc; "of {}", pool.len())?)?;
    Ok(text)
}

#[test]
fn paths_have_ids(rt: HostRuntime) -> Result<(), Fail> {
    for (case, asks, text) in CASES {
        same(&rt, case, &answers(rt.alloc(), asks)?, text);
    }
    Ok(())
}
