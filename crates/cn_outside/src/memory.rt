//! A shelf and an out in memory, whose calls can be made to fail.

ghost use Rattle.std.specs.Prelude.{◌≡◌, ◌+◌, ◌≤◌, List, ℕ, OnOk, OnErr, IfOk, IfErr, IfSome, IsOk, IsErrOf, IsSome, IsNone, Some, None, [], length};
ghost use Rattle.std.specs.BTreeMap.{get_by_text};
ghost use Rattle.cn_outside.specs.Memory.{told_of, trip_at};
ghost use Rattle.cn_outside.specs.Shelf.{IsAnswered, NamesLimit, ReadsHeld, WritesHeld, PutsBytes, RisesOnce, SameAtEach, SameBut, SameReads, SameWrites, HasNoCalls, absent, holds};

use crate::calls::{CallKind, Calls};
use crate::{Out, ReadAnswer, Shelf, WriteAnswer};
use std::alloc::{AllocError, Global};
use std::collections::BTreeMap;

/// The call with this number, counted from 1, fails. A put takes so many bytes before it fails, or
/// all of its own if those are fewer.
#[derive(Clone, Copy, Debug)]
pub struct Trip {
    pub call: u64,
    pub taken: usize,
}

/// The first trip of the call with that number, if it has one.
fn trip_of(trips: &[Trip], number: u64) -> Option<Trip>
    ensures { result ≡ trip_at trips.now number }
{
    trips.iter().copied().find(|trip| trip.call == number)
}

/// A shelf in memory. A read of a name that holds nothing fails, and so does a call that is
/// tripped. No other call does.
#[derive(Drop)]
pub struct MemoryShelf {
    files: BTreeMap<String, Vec<u8>>,
    calls: Calls,
    trips: Vec<Trip>,
}

impl MemoryShelf {
    ghost use Rattle.cn_outside.specs.Memory.{memory_files, memory_held, shelf_calls, shelf_trips};

    /// A shelf that holds nothing.
    pub fn new(alloc: Global) -> MemoryShelf
        ensures held { (n : List ℕ) → memory_held result n ≡ absent }
        ensures fresh { HasNoCalls (memory_files result) }
        ensures calls { shelf_calls result ≡ 0 }
        ensures trips { shelf_trips result ≡ [] }
    {
        MemoryShelf {
            files: BTreeMap::new(alloc),
            calls: Calls::new(alloc),
            trips: Vec::new(alloc),
        }
    }

    /// Puts the bytes under the name. It isn't counted as a call and can't be made to fail: an Err
    /// is want of memory.
    pub fn hold(&mut self, alloc: Global, name: &str, bytes: &[u8]) -> Result<(), AllocError>
        ensures ok { OnOk result (memory_held self.new name.now ≡ holds bytes.now) }
        ensures others { SameBut name.now (memory_held self.old) (memory_held self.new) }
        ensures err { OnErr result (SameAtEach (memory_held self.old) (memory_held self.new)) }
        ensures reads { SameReads (memory_files self.old) (memory_files self.new) }
        ensures writes { SameWrites (memory_files self.old) (memory_files self.new) }
        ensures calls { shelf_calls self.new ≡ shelf_calls self.old }
        ensures trips { shelf_trips self.new ≡ shelf_trips self.old }
    {
        let name = String::from_str(alloc, name)?;
        let bytes = bytes.to_vec(alloc)?;
        self.files.insert(name, bytes)?;
        Ok(())
    }

    /// Lets the reads and writes with these numbers fail, and no others.
    pub fn trip(&mut self, trips: Vec<Trip>)
        ensures held { SameAtEach (memory_held self.old) (memory_held self.new) }
        ensures reads { SameReads (memory_files self.old) (memory_files self.new) }
        ensures writes { SameWrites (memory_files self.old) (memory_files self.new) }
        ensures calls { shelf_calls self.new ≡ shelf_calls self.old }
        ensures trips { shelf_trips self.new ≡ trips.items }
    {
        self.trips = trips;
    }
}

/// What a shelf that holds these texts reads under the name.
pub fn text_of(
    alloc: Global,
    files: &BTreeMap<String, Vec<u8>>,
    name: &str,
    limit: usize,
) -> Result<Vec<u8>, ReadAnswer>
    ensures within { IfOk result (λ bytes. length bytes.items ≤ limit) }
    ensures content { ReadsHeld (told_of (get_by_text files.now name.now)) limit result }
    ensures absent { IsErrOf result ReadAnswer.Failed → get_by_text files.now name.now ≡ None }
    ensures limit { IfErr result (NamesLimit limit) }
{
    match files.get(name) {
        None => Err(ReadAnswer::Failed),
        Some(bytes) => {
            if bytes.len() > limit {
                return Err(ReadAnswer::TooLong { limit });
            }
            Ok(bytes.to_vec(alloc)?)
        }
    }
}

impl Shelf for MemoryShelf {
    ghost use Rattle.cn_outside.specs.Memory.{memory_files, memory_held, shelf_calls, shelf_trip, shelf_trips};

    ghost files = { memory_files };

    fn read(&mut self, alloc: Global, name: &str, limit: usize) -> Result<Vec<u8>, ReadAnswer>
        ensures within { IfOk result (λ bytes. length bytes.items ≤ limit) }
        ensures content { ReadsHeld (memory_held self.old name.now) limit result }
        ensures limit { IfErr result (NamesLimit limit) }
        ensures held { SameAtEach (memory_held self.old) (memory_held self.new) }
        ensures failed { IsErrOf result ReadAnswer.Failed → RisesOnce name.now
            (memory_files self.old).read_faults (memory_files self.new).read_faults }
        ensures unfailed { ¬ IsErrOf result ReadAnswer.Failed → SameAtEach
            (memory_files self.old).read_faults (memory_files self.new).read_faults }
        ensures answered { IsAnswered result → RisesOnce name.now (memory_files self.old).reads
            (memory_files self.new).reads }
        ensures unanswered { ¬ IsAnswered result → SameAtEach (memory_files self.old).reads
            (memory_files self.new).reads }
        ensures writes { SameWrites (memory_files self.old) (memory_files self.new) }

        // Which reads fail, and how the calls are numbered.
        ensures tripped { IsSome (shelf_trip self.old) → ¬ IsAnswered result }
        ensures untripped { IsNone (shelf_trip self.old) → IsErrOf result ReadAnswer.Failed
            → memory_held self.old name.now ≡ absent }
        ensures counted { ¬ IsErrOf result ReadAnswer.Memory
            → shelf_calls self.new ≡ shelf_calls self.old + 1 }
        ensures uncounted { IsErrOf result ReadAnswer.Memory
            → shelf_calls self.new ≡ shelf_calls self.old }
        ensures trips { shelf_trips self.new ≡ shelf_trips self.old }
    {
        let entry = self.calls.place(alloc, name)?;
        let answer = match trip_of(&self.trips, self.calls.next_number()) {
            Some(_) => Err(ReadAnswer::Failed),
            None => text_of(alloc, &self.files, name, limit),
        };
        self.calls.note_read(entry, &answer);
        answer
    }

    fn write(&mut self, alloc: Global, name: &str, bytes: &[u8]) -> Result<(), WriteAnswer>
        ensures content { WritesHeld bytes.now (memory_held self.old name.now)
            (memory_held self.new name.now) result }
        ensures others { SameBut name.now (memory_held self.old) (memory_held self.new) }
        ensures failed { IsErrOf result WriteAnswer.Failed → RisesOnce name.now
            (memory_files self.old).write_faults (memory_files self.new).write_faults }
        ensures unfailed { ¬ IsErrOf result WriteAnswer.Failed → SameAtEach
            (memory_files self.old).write_faults (memory_files self.new).write_faults }
        ensures done { IsOk result → RisesOnce name.now (memory_files self.old).writes
            (memory_files self.new).writes }
        ensures undone { ¬ IsOk result → SameAtEach (memory_files self.old).writes
            (memory_files self.new).writes }
        ensures reads { SameReads (memory_files self.old) (memory_files self.new) }

        // Which writes fail, and how the calls are numbered.
        ensures tripped { IsSome (shelf_trip self.old) → ¬ IsOk result }
        ensures untripped { IsNone (shelf_trip self.old) → ¬ IsErrOf result WriteAnswer.Failed }
        ensures counted { ¬ IsErrOf result WriteAnswer.Memory
            → shelf_calls self.new ≡ shelf_calls self.old + 1 }
        ensures uncounted { IsErrOf result WriteAnswer.Memory
            → shelf_calls self.new ≡ shelf_calls self.old }
        ensures trips { shelf_trips self.new ≡ shelf_trips self.old }
    {
        let entry = self.calls.place(alloc, name)?;
        if trip_of(&self.trips, self.calls.next_number()).is_some() {
            self.calls.note(CallKind::FailedWrite, entry);
            return Err(WriteAnswer::Failed);
        }
        let key = String::from_str(alloc, name)?;
        let copy = bytes.to_vec(alloc)?;
        self.files.insert(key, copy)?;
        self.calls.note(CallKind::Write, entry);
        Ok(())
    }
}

/// An out in memory, which keeps the bytes that it has taken. A put that is tripped fails, and no
/// other does.
#[derive(Drop)]
pub struct MemoryOut {
    taken: Vec<u8>,
    trips: Vec<Trip>,
    /// How many puts were done.
    puts: u64,
    /// How many puts failed.
    faults: u64,
}

impl MemoryOut {
    ghost use Rattle.cn_outside.specs.Memory.{memory_printed, out_trips};

    /// An out that has taken nothing.
    pub fn new(alloc: Global) -> MemoryOut
        ensures printed { memory_printed result ≡ record { taken = Some []; puts = 0; faults = 0 } }
        ensures trips { out_trips result ≡ [] }
    {
        MemoryOut {
            taken: Vec::new(alloc),
            trips: Vec::new(alloc),
            puts: 0,
            faults: 0,
        }
    }

    /// Lets the puts with these numbers fail, and no others.
    pub fn trip(&mut self, trips: Vec<Trip>)
        ensures printed { memory_printed self.new ≡ memory_printed self.old }
        ensures trips { out_trips self.new ≡ trips.items }
    {
        self.trips = trips;
    }

    /// The bytes taken so far.
    pub fn taken(&self) -> &[u8]
        ensures { Some result.now ≡ (memory_printed self.now).taken }
    {
        &self.taken
    }

    /// The number of the next put, or none where the counts are full.
    fn next_number(&self) -> Option<u64>
        ensures { IfSome result (λ number. number ≡ self.now.puts + self.now.faults + 1) }
    {
        self.puts.checked_add(self.faults)?.checked_add(1)
    }
}

impl Out for MemoryOut {
    ghost use Rattle.cn_outside.specs.Memory.{memory_printed, out_trip, out_trips, PutsFront};

    ghost printed = { memory_printed };

    fn put(&mut self, _alloc: Global, bytes: &[u8]) -> Result<(), WriteAnswer>
        ensures bytes { PutsBytes bytes.now (memory_printed self.old) (memory_printed self.new)
            result }

        // Which puts fail, and after how many bytes.
        ensures tripped { IfSome (out_trip self.old) (λ trip. PutsFront trip.taken bytes.now
            (memory_printed self.old) (memory_printed self.new) result) }
        ensures untripped { IsNone (out_trip self.old) → ¬ IsErrOf result WriteAnswer.Failed }
        ensures trips { out_trips self.new ≡ out_trips self.old }
    {
        let Some(number) = self.next_number() else {
            return Err(WriteAnswer::Memory);
        };
        match trip_of(&self.trips, number) {
            None => {
                self.taken.extend_from_slice(bytes)?;
                self.puts += 1;
                Ok(())
            }
            Some(trip) => {
                let part = bytes.len().min(trip.taken);
                self.taken.extend_from_slice(&bytes[..part])?;
                self.faults += 1;
                Err(WriteAnswer::Failed)
            }
        }
    }
}
