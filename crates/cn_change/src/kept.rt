//! A change as histories keep it.

ghost use Rattle.std.specs.Prelude.{◌≡◌, IfOk};

use crate::change::Change;
use std::alloc::{AllocError, Global};
use std::marker::Model;

/// A change in a box: a step of a history stays small, whatever a reload's body has. Contracts see
/// the change.
#[derive(Debug, Drop)]
pub struct KeptChange {
    change: Box<Change>,
}

impl Model for KeptChange {
    ghost use Rattle.cn_change.specs.declared.change.Change.{Change};

    ghost Value = { Change };

    ghost view = { λ k. k.change.value };
}

impl KeptChange {
    /// The change, to be kept. Err comes only for want of memory.
    pub fn keep(alloc: Global, change: Change) -> Result<KeptChange, AllocError>
        ensures { IfOk result (λ kept. kept ≡ change) }
    {
        Ok(KeptChange {
            change: Box::new(alloc, change)?,
        })
    }

    /// The change.
    pub fn change(&self) -> &Change
        ensures { result.now ≡ self.now }
    {
        &self.change
    }

    /// The change, given back.
    pub fn into_change(self) -> Change
        ensures { result ≡ self }
    {
        let KeptChange { change } = self;
        Box::into_inner(change)
    }

    /// An equal one. Err comes only for want of memory.
    pub fn copy(&self, alloc: Global) -> Result<KeptChange, AllocError>
        ensures { IfOk result (λ kept. kept ≡ self.now) }
    {
        KeptChange::keep(alloc, self.change.copy(alloc)?)
    }
}
