//! What shelves and outs answer: those in memory whose calls can be made to fail, those whose calls
//! can't, and the host's.

use crate::words::{same, text_of, word};
use cn_outside::{
    HostOut, HostShelf, MemoryOut, MemoryShelf, Out, ReadAnswer, Shelf, SureOut, SureShelf, Trip,
    WriteAnswer,
};
use std::alloc::Global;
use std::fs;
use std::test::Fail;

// A call on a shelf: a name, and the limit of a read, or what is written.
enum Call {
    Read(&'static str, usize),
    Write(&'static str, &'static str),
}

use Call::{Read, Write};

// How a write or a put ended.
fn ending(answer: Result<(), WriteAnswer>) -> &'static str {
    match answer {
        Ok(()) => "done",
        Err(WriteAnswer::Failed) => "failed",
        Err(WriteAnswer::Memory) => "no memory",
    }
}

/// What is read, or why nothing is.
pub fn found_in(alloc: Global, answer: Result<Vec<u8>, ReadAnswer>) -> Result<String, Fail> {
    match answer {
        Ok(bytes) => text_of(alloc, &bytes),
        Err(ReadAnswer::Failed) => word(alloc, "failed"),
        Err(ReadAnswer::TooLong { limit }) => Ok(format!(in alloc; "longer than {limit}")?),
        Err(ReadAnswer::Memory) => word(alloc, "no memory"),
    }
}

fn answer<S: Shelf>(alloc: Global, shelf: &mut S, call: &Call) -> Result<String, Fail> {
    match call {
        Read(name, limit) => found_in(alloc, shelf.read(alloc, *name, *limit)),
        Write(name, text) => word(alloc, ending(shelf.write(alloc, *name, text.as_bytes()))),
    }
}

// What a shelf answers to calls, each answer in its line.
fn answers<S: Shelf>(alloc: Global, shelf: &mut S, calls: &[Call]) -> Result<String, Fail> {
    let mut text = String::new(alloc);
    for call in calls {
        text.push_str(&answer(alloc, shelf, call)?)?;
        text.push_str("\n")?;
    }
    Ok(text)
}

// How puts ended, each in its line.
fn puts<O: Out>(alloc: Global, out: &mut O, pieces: &[&str]) -> Result<String, Fail> {
    let mut text = String::new(alloc);
    for piece in pieces {
        text.push_str(ending(out.put(alloc, piece.as_bytes())))?;
        text.push_str("\n")?;
    }
    Ok(text)
}

// Calls on a shelf that holds `one` under `a`, of which those with the numbers fail.
struct ShelfRow {
    name: &'static str,
    failing: &'static [u64],
    calls: &'static [Call],
    text: &'static str,
}

const FOUR: ShelfRow = ShelfRow {
    name: "no trip",
    failing: &[],
    calls: &[Read("a", 3), Read("b", 3), Write("b", "two"), Read("b", 3)],
    text: "one\nfailed\ndone\ntwo\n",
};

const MEMORY_SHELF: &[ShelfRow] = &[
    FOUR,
    ShelfRow {
        name: "the first",
        failing: &[1],
        text: "failed\nfailed\ndone\ntwo\n",
        ..FOUR
    },
    ShelfRow {
        name: "a name that isn't held",
        failing: &[2],
        ..FOUR
    },
    ShelfRow {
        name: "a write",
        failing: &[3],
        text: "one\nfailed\nfailed\nfailed\n",
        ..FOUR
    },
    ShelfRow {
        name: "the last",
        failing: &[4],
        text: "one\nfailed\ndone\nfailed\n",
        ..FOUR
    },
    ShelfRow {
        name: "two of them",
        failing: &[3, 1],
        text: "failed\nfailed\nfailed\nfailed\n",
        ..FOUR
    },
    ShelfRow {
        name: "a number past all",
        failing: &[5, 0],
        ..FOUR
    },
    ShelfRow {
        name: "a text that is too long, and one that is as long as the limit",
        failing: &[],
        calls: &[Read("a", 2), Read("a", 3)],
        text: "longer than 2\none\n",
    },
];

// Trips of the calls with these numbers.
fn trips(alloc: Global, numbers: &[u64], taken: usize) -> Result<Vec<Trip>, Fail> {
    let mut trips = Vec::new(alloc);
    for call in numbers {
        trips.push(Trip { call: *call, taken })?;
    }
    Ok(trips)
}

fn memory_shelf(alloc: Global, failing: &[u64]) -> Result<MemoryShelf, Fail> {
    let mut shelf = MemoryShelf::new(alloc);
    shelf.hold(alloc, "a", b"one")?;
    shelf.trip(trips(alloc, failing, 0)?);
    Ok(shelf)
}

#[test]
fn shelves_in_memory(rt: HostRuntime) -> Result<(), Fail> {
    let alloc = rt.alloc();
    for row in MEMORY_SHELF {
        let mut shelf = memory_shelf(alloc, row.failing)?;
        same(
            &rt,
            row.name,
            &answers(alloc, &mut shelf, row.calls)?,
            row.text,
        );
    }
    Ok(())
}

// A read of a name that isn't held fails, and no other call does.
const SURE_SHELF: &[Call] = &[Write("b", "two"), Read("b", 3), Read("c", 3), Read("a", 2)];

const SURE_TEXT: &str = "done\ntwo\nfailed\nlonger than 2\n";

#[test]
fn sure_calls(rt: HostRuntime) -> Result<(), Fail> {
    let alloc = rt.alloc();
    let mut shelf = SureShelf::new(alloc);
    shelf.hold(alloc, "a", b"one")?;
    same(
        &rt,
        "a shelf",
        &answers(alloc, &mut shelf, SURE_SHELF)?,
        SURE_TEXT,
    );
    let mut out = SureOut::new(alloc);
    let mut text = puts(alloc, &mut out, &["one", "two"])?;
    text.push_str(&text_of(alloc, out.taken())?)?;
    same(&rt, "an out", &text, "done\ndone\nonetwo");
    Ok(())
}

// Two puts, of which those with the numbers fail after so many bytes, and how they end, with what
// the out has taken then.
const MEMORY_OUT: &[(&str, &[u64], usize, &str)] = &[
    ("no trip", &[], 0, "done\ndone\nonetwo"),
    ("the first", &[1], 0, "failed\ndone\ntwo"),
    (
        "the second, after two bytes",
        &[2],
        2,
        "done\nfailed\nonetw",
    ),
    ("the second, after all", &[2], 9, "done\nfailed\nonetwo"),
    ("both, after a byte", &[1, 2], 1, "failed\nfailed\not"),
];

#[test]
fn outs_in_memory(rt: HostRuntime) -> Result<(), Fail> {
    let alloc = rt.alloc();
    for (name, failing, taken, want) in MEMORY_OUT {
        let mut out = MemoryOut::new(alloc);
        out.trip(trips(alloc, failing, *taken)?);
        let mut text = puts(alloc, &mut out, &["one", "two"])?;
        text.push_str(&text_of(alloc, out.taken())?)?;
        same(&rt, name, &text, want);
    }
    Ok(())
}

// A file that isn't there, one that is written, read back and written again, and one that is too
// long.
const HOST_SHELF: &[Call] = &[
    Read("absent", 9),
    Write("present", "some bytes, and more"),
    Write("present", "some bytes"),
    Read("present", 10),
    Read("present", 9),
];

const HOST_TEXT: &str = "failed\ndone\ndone\nsome bytes\nlonger than 9\n";

// Nothing is left beside the file. Standard output takes bytes, and no bytes.
#[test]
fn files_and_output_of_the_host(rt: HostRuntime) -> Result<(), Fail> {
    let alloc = rt.alloc();
    let mut shelf = HostShelf::new(alloc, rt.clone()?);
    same(
        &rt,
        "files",
        &answers(alloc, &mut shelf, HOST_SHELF)?,
        HOST_TEXT,
    );
    same(
        &rt,
        "the file",
        fs::read_to_string(&rt, "present")?.as_str(),
        "some bytes",
    );
    let beside = fs::exists(&rt, "present.0.new")?;
    same(
        &rt,
        "a file beside it",
        &format!(in alloc; "{beside}")?,
        "false",
    );
    fs::remove_file(&rt, "present")?;
    let mut out = HostOut::new(rt.clone()?);
    same(
        &rt,
        "output",
        &puts(alloc, &mut out, &["some bytes\n", ""])?,
        "done\ndone\n",
    );
    Ok(())
}
