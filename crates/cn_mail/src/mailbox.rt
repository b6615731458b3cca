//! A queue with room for 64 messages.

ghost use Rattle.std.specs.Prelude.{◌≡◌, ◌<◌, ◌≤◌, ◌↔◌, ◌==◌, [], ◌∷◌, ◌++◌, length, slice_get, option_copied, option_to_list, IfOk, IfErr, IsOk, IsSome, OnOk};

use circular_buffer::HeapCircularBuffer;
use std::alloc::{AllocError, Global};
use std::marker::Model;

/// How many messages a mailbox holds at most.
const ROOM: usize = 64;

/// A queue of at most 64 messages, the oldest first. It has room for all 64 from the start, so no
/// call but `new` takes memory. Contracts see the list of the messages.
#[derive(Drop)]
pub struct Mailbox<T> {
    messages: HeapCircularBuffer<T>,
}

impl<T> Model for Mailbox<T> {
    ghost use Rattle.std.specs.Prelude.{List, ◌≡◌, ◌≤◌, length};
    ghost use Rattle.std.specs.Coded.{coded_list};

    ghost Value = { List T };

    ghost coded = { coded_list T.code };

    ghost view = { λ m. m.messages.items };

    ghost invariant = { λ m. (length m.messages.items ≤ 64) × (m.messages.capacity ≡ 64) };
}

impl<T> Mailbox<T> {
    /// A mailbox with no message.
    pub fn new(alloc: Global) -> Result<Mailbox<T>, AllocError>
        ensures { IfOk result (λ mailbox. mailbox ≡ []) }
    {
        Ok(Mailbox {
            messages: HeapCircularBuffer::with_capacity(alloc, ROOM)?,
        })
    }

    /// How many messages there are.
    pub fn len(&self) -> usize
        ensures length { result ≡ length self.now }
        ensures few { result ≤ 64 }
    {
        self.messages.len()
    }

    /// Holds where there is no message.
    pub fn is_empty(&self) -> bool
        ensures { result ≡ (length self.now == 0) }
    {
        self.messages.is_empty()
    }

    /// The first message. None comes exactly where there is no message.
    pub fn front(&self) -> Option<&T>
        ensures { option_copied result ≡ slice_get self.now 0 }
    {
        self.messages.front()
    }

    /// Takes the first message out. None comes exactly where there is no message.
    pub fn pop(&mut self) -> Option<T>
        ensures items { self.old ≡ option_to_list result ++ self.new }
        ensures some { IsSome result ↔ (0 < length self.old) }
    {
        self.messages.pop_front()
    }

    /// Puts a message last, or hands it back where the mailbox holds 64.
    pub fn push(&mut self, message: T) -> Result<(), T>
        ensures room { IsOk result ↔ (length self.old < 64) }
        ensures ok { OnOk result (self.new ≡ self.old ++ message ∷ []) }
        ensures full { IfErr result (λ back. (back ≡ message) × (self.new ≡ self.old)) }
    {
        self.messages.try_push_back(message)
    }

    /// Removes every message.
    pub fn clear(&mut self)
    where
        T: Drop,
        ensures { self.new ≡ [] }
    {
        self.messages.clear();
    }
}
