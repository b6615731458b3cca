//! What the top call answers, puts and leaves. A case is one call over a shelf and an out that tell
//! what they hold; the tables stand in `planning.rt`, `running.rt` and `failing.rt`. It gives
//!
//! - `crystal`: the words of the call;
//! - `holds`: a name on the shelf, and the pieces of the text under it, once for each;
//! - `fails`, `trips`: the number of the read or write, or of the put, that fails, and how many
//!   octets are taken before;
//! - `ends`: the status, how many reads and writes are made, and how many puts;
//! - `left`: a name, and the pieces of what it holds after the call, once for each;
//! - `puts` and `gives`: the pieces of what is put, and what is put behind them.

use cn_given::pieces::{text_of, wanted_text};
use cn_given::tables::{all_given, cases, given, name, word};
use cn_given::words::same;
use cn_outside::{MemoryOut, MemoryShelf, Out, ReadAnswer, Shelf, Trip, WriteAnswer};
use cn_top::command;
use std::alloc::{AllocError, Global};
use std::test::Fail;

fn words_of(alloc: Global, text: &str) -> Result<Vec<String>, AllocError> {
    let mut words = Vec::new(alloc);
    for word in text.split_whitespace() {
        words.push(String::from_str(alloc, word)?)?;
    }
    Ok(words)
}

// The call that fails: that of the first number, after as many octets as the second. No numbers: no
// call.
fn trips(alloc: Global, text: &str) -> Result<Vec<Trip>, Fail> {
    if text.is_empty() {
        return Ok(Vec::new(alloc));
    }
    let (call, taken) = (
        word(text, 0).parse::<u64>()?,
        word(text, 1).parse::<usize>()?,
    );
    Ok(vec![in alloc; Trip { call, taken }]?)
}

// A name, and the names of the pieces under it.
fn file(text: &str) -> (&str, &str) {
    text.split_once(' ').unwrap_or((text, ""))
}

fn hold(alloc: Global, shelf: &mut MemoryShelf, text: &str) -> Result<(), Fail> {
    let (name, pieces) = file(text);
    let text = text_of(alloc, pieces)?;
    shelf.hold(alloc, name, text.as_bytes())?;
    Ok(())
}

// A shelf that holds the files of a case.
fn shelf_of(alloc: Global, case: &str) -> Result<MemoryShelf, Fail> {
    let mut shelf = MemoryShelf::new(alloc);
    for text in all_given(alloc, case, "holds")? {
        hold(alloc, &mut shelf, text)?;
    }
    shelf.trip(trips(alloc, given(case, "fails"))?);
    Ok(shelf)
}

fn out_of(alloc: Global, case: &str) -> Result<MemoryOut, Fail> {
    let mut out = MemoryOut::new(alloc);
    out.trip(trips(alloc, given(case, "trips"))?);
    Ok(out)
}

// The status of the call with these words, as it prints.
fn status(
    alloc: Global,
    text: &str,
    shelf: &mut MemoryShelf,
    out: &mut MemoryOut,
) -> Result<String, AllocError> {
    let words = words_of(alloc, text)?;
    let status = command(alloc, &words, shelf, out);
    format!(in alloc; "{status:?}")
}

// Whether so many reads and writes were made: then the next write has the number that is now made
// to fail.
fn has_read(alloc: Global, shelf: &mut MemoryShelf, calls: &str) -> Result<bool, Fail> {
    let call = calls.parse::<u64>()?.wrapping_add(1);
    shelf.trip(vec![in alloc; Trip { call, taken: 0 }]?);
    Ok(shelf.write(alloc, "next", b"") == Err(WriteAnswer::Failed))
}

// The same of puts.
fn has_put(alloc: Global, out: &mut MemoryOut, calls: &str) -> Result<bool, Fail> {
    let call = calls.parse::<u64>()?.wrapping_add(1);
    out.trip(vec![in alloc; Trip { call, taken: 0 }]?);
    Ok(out.put(alloc, b"") == Err(WriteAnswer::Failed))
}

// How the call ended: as the case says, where its status is the same and as many calls were made.
fn ending(
    alloc: Global,
    status: &str,
    shelf: &mut MemoryShelf,
    out: &mut MemoryOut,
    ends: &str,
) -> Result<String, Fail> {
    let calls = if has_read(alloc, shelf, word(ends, 1))? {
        word(ends, 1)
    } else {
        "others"
    };
    let puts = if has_put(alloc, out, word(ends, 2))? {
        word(ends, 2)
    } else {
        "others"
    };
    Ok(format!(in alloc; "{status} {calls} {puts}\n")?)
}

// What a name holds.
fn held(alloc: Global, shelf: &mut MemoryShelf, name: &str) -> Result<String, Fail> {
    match shelf.read(alloc, name, 1_000_000) {
        Ok(bytes) => Ok(String::from_utf8(bytes)?),
        Err(ReadAnswer::Failed) => text_of(alloc, "nothing"),
        Err(_) => Err(Fail::new("unread")),
    }
}

// What is under the names that a case gives, each behind its name.
fn found_left(alloc: Global, shelf: &mut MemoryShelf, case: &str) -> Result<String, Fail> {
    let mut text = String::new(alloc);
    for left in all_given(alloc, case, "left")? {
        let name = word(left, 0);
        text.push_str(name)?;
        text.push_str(&held(alloc, shelf, name)?)?;
    }
    Ok(text)
}

// The same as the case has it.
fn wanted_left(alloc: Global, case: &str) -> Result<String, Fail> {
    let mut text = String::new(alloc);
    for left in all_given(alloc, case, "left")? {
        let (name, pieces) = file(left);
        text.push_str(name)?;
        text.push_str(&text_of(alloc, pieces)?)?;
    }
    Ok(text)
}

fn taken(alloc: Global, out: &MemoryOut) -> Result<String, Fail> {
    Ok(String::from_utf8(out.taken().to_vec(alloc)?)?)
}

// What is put and left by a call with this status.
fn told(
    alloc: Global,
    case: &str,
    status: &str,
    shelf: &mut MemoryShelf,
    out: &mut MemoryOut,
) -> Result<String, Fail> {
    let mut text = taken(alloc, out)?;
    text.push_str(&ending(alloc, status, shelf, out, given(case, "ends"))?)?;
    text.push_str(&found_left(alloc, shelf, case)?)?;
    Ok(text)
}

// What is seen of the call of a case.
fn seen(alloc: Global, case: &str) -> Result<String, Fail> {
    let mut shelf = shelf_of(alloc, case)?;
    let mut out = out_of(alloc, case)?;
    let status = status(alloc, given(case, "crystal"), &mut shelf, &mut out)?;
    told(alloc, case, &status, &mut shelf, &mut out)
}

// What the case says of it.
fn said(alloc: Global, case: &str) -> Result<String, Fail> {
    let mut text = wanted_text(alloc, case)?;
    text.push_str(given(case, "ends"))?;
    text.push_str("\n")?;
    text.push_str(&wanted_left(alloc, case)?)?;
    Ok(text)
}

/// Makes the calls of a table, and compares what is seen of each.
pub fn answer(alloc: Global, table: &str) -> Result<(), Fail> {
    for case in cases(alloc, table)? {
        same(name(case), &seen(alloc, case)?, &said(alloc, case)?)?;
    }
    Ok(())
}
