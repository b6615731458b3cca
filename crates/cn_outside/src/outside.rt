//! The two traits, and what their calls answer.

ghost use Rattle.std.specs.Prelude.{◌≤◌, IfOk, IfErr, IsOk, IsErrOf, length};
ghost use Rattle.cn_outside.specs.Shelf.{Files, Printed, IsAnswered, NamesLimit, ReadsHeld, WritesHeld, PutsBytes, RisesOnce, SameAtEach, SameBut, SameReads, SameWrites};

use std::alloc::{AllocError, AllocFailed, Global};

/// Why a read gave nothing.
#[derive(Clone, Copy, Debug, PartialEq, Eq)]
pub enum ReadAnswer {
    /// The read failed, and its name's count of failed reads rose.
    Failed,
    /// The name holds more bytes than the limit of the call, which is this.
    TooLong { limit: usize },
    /// Memory ran out.
    Memory,
}

/// Why a write or a put wasn't done.
#[derive(Clone, Copy, Debug, PartialEq, Eq)]
pub enum WriteAnswer {
    /// The call failed, and its count of failures rose.
    Failed,
    /// Memory ran out.
    Memory,
}

/// Texts under names, which can be read and written. A name is the octets of a `str`.
///
/// What a shelf tells of its names is `held`; of a name that is untold no clause says what it
/// holds. The counts are told of every shelf and every name: a call raises the one count of its
/// kind, of its name and of how it ended by one, and no other. A call that ran out of memory raises
/// none. So a scene shows how often each name was read and written, and how often that failed.
pub trait Shelf {
    /// What is seen of the shelf.
    ghost files: { Self → Files };

    /// All that the name holds, at most `limit` bytes. It leaves what every name holds. `TooLong`,
    /// with the limit of this call, comes only where the name holds more bytes.
    fn read(&mut self, alloc: Global, name: &str, limit: usize) -> Result<Vec<u8>, ReadAnswer>
        ensures within { IfOk result (λ bytes. length bytes.items ≤ limit) }
        ensures content { ReadsHeld ((files self.old).held name.now) limit result }
        ensures limit { IfErr result (NamesLimit limit) }
        ensures held { SameAtEach (files self.old).held (files self.new).held }

        // Which counts rise.
        ensures failed { IsErrOf result ReadAnswer.Failed
            → RisesOnce name.now (files self.old).read_faults (files self.new).read_faults }
        ensures unfailed { ¬ IsErrOf result ReadAnswer.Failed
            → SameAtEach (files self.old).read_faults (files self.new).read_faults }
        ensures answered { IsAnswered result
            → RisesOnce name.now (files self.old).reads (files self.new).reads }
        ensures unanswered { ¬ IsAnswered result
            → SameAtEach (files self.old).reads (files self.new).reads }
        ensures writes { SameWrites (files self.old) (files self.new) };

    /// Puts these bytes under the name, in the place of what it held. After `Failed` nothing is
    /// said of what the name holds, and after `Memory` every name holds what it held.
    fn write(&mut self, alloc: Global, name: &str, bytes: &[u8]) -> Result<(), WriteAnswer>
        ensures content { WritesHeld bytes.now ((files self.old).held name.now)
            ((files self.new).held name.now) result }
        ensures others { SameBut name.now (files self.old).held (files self.new).held }

        // Which counts rise.
        ensures failed { IsErrOf result WriteAnswer.Failed
            → RisesOnce name.now (files self.old).write_faults (files self.new).write_faults }
        ensures unfailed { ¬ IsErrOf result WriteAnswer.Failed
            → SameAtEach (files self.old).write_faults (files self.new).write_faults }
        ensures done { IsOk result
            → RisesOnce name.now (files self.old).writes (files self.new).writes }
        ensures undone { ¬ IsOk result
            → SameAtEach (files self.old).writes (files self.new).writes }
        ensures reads { SameReads (files self.old) (files self.new) };
}

/// What takes the bytes that a program prints.
///
/// An out tells the bytes that it has taken, or tells none of them. Every out counts the puts that
/// were done and those that failed.
pub trait Out {
    /// What is seen of the out.
    ghost printed: { Self → Printed };

    /// Takes these bytes, after those that it took before. After `Failed` it has taken some of
    /// them, from their front; after `Memory` none.
    fn put(&mut self, alloc: Global, bytes: &[u8]) -> Result<(), WriteAnswer>
        ensures { PutsBytes bytes.now (printed self.old) (printed self.new) result };
}

impl From<AllocError> for ReadAnswer {
    ghost use Rattle.std.specs.Prelude.{◌≡◌};
    ghost use Rattle.cn_outside.specs.declared.outside.ReadAnswer.TheVariants.{Memory};

    ghost from_gives = { λ _ e. e ≡ Memory };

    fn from(_: AllocError) -> ReadAnswer {
        ReadAnswer::Memory
    }
}

impl<T: Drop> From<AllocFailed<T>> for ReadAnswer {
    ghost use Rattle.std.specs.Prelude.{◌≡◌};
    ghost use Rattle.cn_outside.specs.declared.outside.ReadAnswer.TheVariants.{Memory};

    ghost from_gives = { λ _ e. e ≡ Memory };

    fn from(_: AllocFailed<T>) -> ReadAnswer {
        ReadAnswer::Memory
    }
}

impl From<AllocError> for WriteAnswer {
    ghost use Rattle.std.specs.Prelude.{◌≡◌};
    ghost use Rattle.cn_outside.specs.declared.outside.WriteAnswer.TheVariants.{Memory};

    ghost from_gives = { λ _ e. e ≡ Memory };

    fn from(_: AllocError) -> WriteAnswer {
        WriteAnswer::Memory
    }
}

impl<T: Drop> From<AllocFailed<T>> for WriteAnswer {
    ghost use Rattle.std.specs.Prelude.{◌≡◌};
    ghost use Rattle.cn_outside.specs.declared.outside.WriteAnswer.TheVariants.{Memory};

    ghost from_gives = { λ _ e. e ≡ Memory };

    fn from(_: AllocFailed<T>) -> WriteAnswer {
        WriteAnswer::Memory
    }
}
