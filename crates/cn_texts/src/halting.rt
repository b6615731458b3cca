//! Readers and writers that halt at each byte, and that break off.

use crate::shelves::found_in;
use crate::words::{same, text_of};
use cn_outside::{read_all, write_through};
use std::alloc::Global;
use std::io;
use std::io::{ErrorKind, Read, Write};
use std::test::Fail;

// Gives or takes one byte at a time, and is interrupted before each. It breaks off behind `room`
// bytes, with an error.
#[derive(Drop)]
struct Halting {
    bytes: Vec<u8>,
    done: usize,
    room: usize,
    interrupted: bool,
}

impl Halting {
    fn new(bytes: Vec<u8>, room: usize) -> Halting {
        Halting {
            bytes,
            done: 0,
            room,
            interrupted: false,
        }
    }

    // What comes before the next byte.
    fn halt(&mut self) -> io::Result<()> {
        self.interrupted = !self.interrupted;
        if self.interrupted {
            return Err(io::Error::from(ErrorKind::Interrupted));
        }
        if self.done >= self.room {
            return Err(io::Error::from(ErrorKind::StorageFull));
        }
        Ok(())
    }
}

impl Read for Halting {
    fn read(&mut self, buf: &mut [u8]) -> io::Result<usize> {
        self.halt()?;
        match (self.bytes.get(self.done).copied(), buf.first_mut()) {
            (Some(byte), Some(place)) => {
                *place = byte;
                self.done = self.done.saturating_add(1);
                Ok(1)
            }
            _ => Ok(0),
        }
    }
}

impl Write for Halting {
    fn write(&mut self, buf: &[u8]) -> io::Result<usize> {
        self.halt()?;
        match buf.first() {
            Some(byte) => {
                self.bytes.push(*byte)?;
                self.done = self.done.saturating_add(1);
                Ok(1)
            }
            None => Ok(0),
        }
    }

    fn flush(&mut self) -> io::Result<()> {
        Ok(())
    }
}

const BYTES: &str = "some bytes";

// Where a reader of ten bytes breaks off, the limit of the read, and what is read.
const READERS: &[(&str, usize, usize, &str)] = &[
    ("a whole reader", usize::MAX, 10, BYTES),
    ("a broken reader", 9, 10, "failed"),
    ("a long reader", usize::MAX, 9, "longer than 9"),
];

#[test]
fn halting_readers(rt: HostRuntime) -> Result<(), Fail> {
    let alloc = rt.alloc();
    for (name, room, limit, text) in READERS {
        let mut reader = Halting::new(BYTES.as_bytes().to_vec(alloc)?, *room);
        let found = found_in(alloc, read_all(alloc, &mut reader, *limit))?;
        same(&rt, name, &found, text);
    }
    Ok(())
}

// Where a writer breaks off, and whether it took all of ten bytes, with those that it took.
const WRITERS: &[(&str, usize, &str)] = &[
    ("a whole writer", usize::MAX, "true: some bytes"),
    ("a full writer", 4, "false: some"),
];

fn written(alloc: Global, room: usize) -> Result<String, Fail> {
    let mut writer = Halting::new(Vec::new(alloc), room);
    let all = write_through(&mut writer, BYTES.as_bytes());
    let taken = text_of(alloc, &writer.bytes)?;
    Ok(format!(in alloc; "{all}: {taken}")?)
}

#[test]
fn halting_writers(rt: HostRuntime) -> Result<(), Fail> {
    for (name, room, text) in WRITERS {
        same(&rt, name, &written(rt.alloc(), *room)?, text);
    }
    Ok(())
}
