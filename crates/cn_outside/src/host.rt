//! Files and standard output, of whose content nothing is told.

ghost use Rattle.std.specs.Prelude.{◌≤◌, IfOk, IfErr, length};
ghost use Rattle.cn_outside.specs.Shelf.{NamesLimit};

use crate::calls::{CallKind, Calls};
use crate::loops::{read_all, write_through};
use crate::replace::write_named;
use crate::{Out, ReadAnswer, Shelf, WriteAnswer};
use std::alloc::Global;
use std::rt::Files;
use std::{fs, io};

/// The host's files: a name is a path, as the host takes it.
#[derive(Drop)]
pub struct HostShelf<R: Files> {
    files: R,
    calls: Calls,
}

impl<R: Files> HostShelf<R> {
    /// A shelf over the files of this handle, of which no call was made yet.
    pub fn new(alloc: Global, files: R) -> HostShelf<R> {
        HostShelf {
            files,
            calls: Calls::new(alloc),
        }
    }
}

/// What the file of this name holds, at most `limit` bytes.
fn read_named<R: Files>(
    alloc: Global,
    files: &R,
    name: &str,
    limit: usize,
) -> Result<Vec<u8>, ReadAnswer>
    ensures within { IfOk result (λ bytes. length bytes.items ≤ limit) }
    ensures limit { IfErr result (NamesLimit limit) }
{
    match fs::open(files, name) {
        Ok(mut file) => read_all(alloc, &mut file, limit),
        Err(_) => Err(ReadAnswer::Failed),
    }
}

impl<R: Files> Shelf for HostShelf<R> {
    ghost use Rattle.cn_outside.specs.Shelf.{untold};
    ghost use Rattle.cn_outside.specs.Calls.{counted};

    ghost files = { λ s. counted (λ n. untold) s.calls };

    fn read(&mut self, alloc: Global, name: &str, limit: usize) -> Result<Vec<u8>, ReadAnswer> {
        let entry = self.calls.place(alloc, name)?;
        let answer = read_named(alloc, &self.files, name, limit);
        self.calls.note_read(entry, &answer);
        answer
    }

    fn write(&mut self, alloc: Global, name: &str, bytes: &[u8]) -> Result<(), WriteAnswer> {
        let entry = self.calls.place(alloc, name)?;
        if write_named(alloc, &self.files, name, bytes)? {
            self.calls.note(CallKind::Write, entry);
            return Ok(());
        }
        self.calls.note(CallKind::FailedWrite, entry);
        Err(WriteAnswer::Failed)
    }
}

/// The host's standard output.
#[derive(Drop)]
pub struct HostOut<R: Print> {
    print: R,
    puts: u64,
    faults: u64,
}

impl<R: Print> HostOut<R> {
    /// An out over the standard output of this handle, to which nothing was put yet.
    pub fn new(print: R) -> HostOut<R> {
        HostOut {
            print,
            puts: 0,
            faults: 0,
        }
    }
}

impl<R: Print> Out for HostOut<R> {
    ghost use Rattle.std.specs.Prelude.{None};

    ghost printed = { λ o. record { taken = None; puts = o.puts; faults = o.faults } };

    fn put(&mut self, _alloc: Global, bytes: &[u8]) -> Result<(), WriteAnswer> {
        let (Some(puts), Some(faults)) = (self.puts.checked_add(1), self.faults.checked_add(1))
        else {
            return Err(WriteAnswer::Memory);
        };
        let mut writer = io::writer(&self.print);
        if write_through(&mut writer, bytes) {
            self.puts = puts;
            return Ok(());
        }
        self.faults = faults;
        Err(WriteAnswer::Failed)
    }
}
