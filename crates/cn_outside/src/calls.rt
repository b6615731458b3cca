//! The list of the calls that a shelf keeps.

ghost use Rattle.std.specs.Prelude.{◌≡◌, ◌+◌, ◌<◌, ℕ, List, IfOk, OnOk};
ghost use Rattle.std.specs.String.{string_bytes};

use crate::ReadAnswer;
use std::alloc::{AllocError, Global};

/// The calls of a shelf, by what was asked and how it ended. A read that is answered is one that
/// came to all that the name holds, or to its being too long.
#[derive(Clone, Copy, Debug, PartialEq, Eq)]
pub enum CallKind {
    Read,
    FailedRead,
    Write,
    FailedWrite,
}

/// A call, by its kind and the name that it was made for.
#[derive(Debug, Drop)]
pub struct Call {
    pub kind: CallKind,
    pub name: String,
}

/// The calls that were made so far, in their order. A call that ran out of memory is none of them.
#[derive(Drop)]
pub struct Calls {
    made: Vec<Call>,
}

impl Calls {
    ghost use Rattle.cn_outside.specs.Calls.{call_count, calls_of, CountsRead, HasRoom, NotesCall};
    ghost use Rattle.cn_outside.specs.Shelf.{SameAtEach};
    ghost use Rattle.cn_outside.specs.declared.calls.CallKind.{CallKind};

    /// No call was made yet.
    pub fn new(alloc: Global) -> Calls
        ensures none { (kind : CallKind) (n : List ℕ) → calls_of kind result n ≡ 0 }
        ensures count { call_count result ≡ 0 }
    {
        Calls {
            made: Vec::new(alloc),
        }
    }

    /// Takes the memory for one more entry before its call is made: a copy of the name, and a
    /// place. An Err is want of memory.
    pub fn place(&mut self, alloc: Global, name: &str) -> Result<String, AllocError>
        ensures same { (kind : CallKind) → SameAtEach (calls_of kind self.old)
            (calls_of kind self.new) }
        ensures count { call_count self.new ≡ call_count self.old }
        ensures room { OnOk result (HasRoom self.new) }
        ensures name { IfOk result (λ copy. string_bytes copy ≡ name.now) }
    {
        let copy = String::from_str(alloc, name)?;
        self.made.reserve(1)?;
        Ok(copy)
    }

    /// The number of the call whose place was taken, counted from 1.
    pub fn next_number(&self) -> u64
        requires { HasRoom self.now }
        ensures { result ≡ call_count self.now + 1 }
    {
        self.made.len() as u64 + 1
    }

    /// Adds a call, at the place that `place` took.
    pub fn note(&mut self, kind: CallKind, name: String)
        requires { HasRoom self.old }
        ensures { NotesCall kind (string_bytes name) self.old self.new }
    {
        self.made.push(Call { kind, name }).unwrap();
    }

    /// Adds a read by its answer, at the place that `place` took: one that was answered, one that
    /// failed, or none where memory ran out.
    pub fn note_read(&mut self, name: String, answer: &Result<Vec<u8>, ReadAnswer>)
        requires { HasRoom self.old }
        ensures { CountsRead (string_bytes name) self.old self.new answer.now }
    {
        match answer {
            Ok(_) => self.note(CallKind::Read, name),
            Err(ReadAnswer::TooLong { .. }) => self.note(CallKind::Read, name),
            Err(ReadAnswer::Failed) => self.note(CallKind::FailedRead, name),
            Err(ReadAnswer::Memory) => {}
        }
    }
}
