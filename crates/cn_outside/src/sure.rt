//! A shelf and an out in memory whose calls don't fail, but for a read of a name that isn't held.

ghost use Rattle.std.specs.Prelude.{◌≡◌, ◌≤◌, [], List, ℕ, Some, OnOk, OnErr, IsErrOf, IfOk, IfErr, length};
ghost use Rattle.cn_outside.specs.Shelf.{IsAnswered, NamesLimit, ReadsHeld, RisesOnce, SameAtEach, SameBut, SameReads, SameWrites, HasNoCalls, absent, holds};
ghost use Rattle.cn_outside.specs.Sure.{sure_files, sure_held, sure_printed};

use crate::calls::{CallKind, Calls};
use crate::memory::text_of;
use crate::{Out, ReadAnswer, Shelf, WriteAnswer};
use std::alloc::{AllocError, Global};
use std::collections::BTreeMap;

/// A shelf in memory. It tells what it holds, and no call fails but a read of a name that isn't
/// held. Its count of failed writes is 0 for ever, which is why none of its writes fails.
#[derive(Drop)]
pub struct SureShelf {
    files: BTreeMap<String, Vec<u8>>,
    calls: Calls,
}

impl SureShelf {
    /// A shelf that holds nothing.
    pub fn new(alloc: Global) -> SureShelf
        ensures held { (n : List ℕ) → sure_held result n ≡ absent }
        ensures fresh { HasNoCalls (sure_files result) }
    {
        SureShelf {
            files: BTreeMap::new(alloc),
            calls: Calls::new(alloc),
        }
    }

    /// Puts the bytes under the name, in the place of what it held. It isn't counted as a call.
    pub fn hold(&mut self, alloc: Global, name: &str, bytes: &[u8]) -> Result<(), AllocError>
        ensures ok { OnOk result (sure_held self.new name.now ≡ holds bytes.now) }
        ensures others { SameBut name.now (sure_held self.old) (sure_held self.new) }
        ensures err { OnErr result (SameAtEach (sure_held self.old) (sure_held self.new)) }
        ensures reads { SameReads (sure_files self.old) (sure_files self.new) }
        ensures writes { SameWrites (sure_files self.old) (sure_files self.new) }
    {
        let name = String::from_str(alloc, name)?;
        let bytes = bytes.to_vec(alloc)?;
        self.files.insert(name, bytes)?;
        Ok(())
    }
}

impl Shelf for SureShelf {
    ghost files = { sure_files };

    fn read(&mut self, alloc: Global, name: &str, limit: usize) -> Result<Vec<u8>, ReadAnswer>
        ensures within { IfOk result (λ bytes. length bytes.items ≤ limit) }
        ensures content { ReadsHeld (sure_held self.old name.now) limit result }
        ensures limit { IfErr result (NamesLimit limit) }
        ensures held { SameAtEach (sure_held self.old) (sure_held self.new) }
        ensures failed { IsErrOf result ReadAnswer.Failed → RisesOnce name.now
            (sure_files self.old).read_faults (sure_files self.new).read_faults }
        ensures unfailed { ¬ IsErrOf result ReadAnswer.Failed → SameAtEach
            (sure_files self.old).read_faults (sure_files self.new).read_faults }
        ensures answered { IsAnswered result → RisesOnce name.now (sure_files self.old).reads
            (sure_files self.new).reads }
        ensures unanswered { ¬ IsAnswered result → SameAtEach (sure_files self.old).reads
            (sure_files self.new).reads }
        ensures writes { SameWrites (sure_files self.old) (sure_files self.new) }

        // Only a read of a name that isn't held fails. That each such read does, or wants memory,
        // is said by `content`.
        ensures sure { IsErrOf result ReadAnswer.Failed → sure_held self.old name.now ≡ absent }
    {
        let entry = self.calls.place(alloc, name)?;
        let answer = text_of(alloc, &self.files, name, limit);
        self.calls.note_read(entry, &answer);
        answer
    }

    fn write(&mut self, alloc: Global, name: &str, bytes: &[u8]) -> Result<(), WriteAnswer> {
        let entry = self.calls.place(alloc, name)?;
        let key = String::from_str(alloc, name)?;
        let copy = bytes.to_vec(alloc)?;
        self.files.insert(key, copy)?;
        self.calls.note(CallKind::Write, entry);
        Ok(())
    }
}

/// An out in memory, which keeps the bytes that it has taken. Its count of faults is 0 for ever,
/// which is why none of its puts fails.
#[derive(Drop)]
pub struct SureOut {
    taken: Vec<u8>,
    puts: u64,
}

impl SureOut {
    /// An out that has taken nothing.
    pub fn new(alloc: Global) -> SureOut
        ensures { sure_printed result ≡ record { taken = Some []; puts = 0; faults = 0 } }
    {
        SureOut {
            taken: Vec::new(alloc),
            puts: 0,
        }
    }

    /// The bytes taken so far.
    pub fn taken(&self) -> &[u8]
        ensures { Some result.now ≡ (sure_printed self.now).taken }
    {
        &self.taken
    }
}

impl Out for SureOut {
    ghost printed = { sure_printed };

    fn put(&mut self, _alloc: Global, bytes: &[u8]) -> Result<(), WriteAnswer> {
        let Some(puts) = self.puts.checked_add(1) else {
            return Err(WriteAnswer::Memory);
        };
        self.taken.extend_from_slice(bytes)?;
        self.puts = puts;
        Ok(())
    }
}
