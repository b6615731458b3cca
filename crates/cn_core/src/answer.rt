//! What a command of a script is answered with.

ghost use Rattle.std.specs.Prelude.{◌≡◌, IfOk};

use crate::pull::Pull;
use std::alloc::{AllocError, Global};

/// The answer to a command of a script.
#[derive(Debug, Drop)]
pub enum Answer {
    /// The work of a command is done.
    Done,
    /// What a pull shows.
    Pulled(Pull),
}

impl Answer {
    /// An equal answer.
    pub fn copy(&self, alloc: Global) -> Result<Answer, AllocError>
        ensures { IfOk result (λ answer. answer ≡ self.now) }
    {
        match self {
            Answer::Done => Ok(Answer::Done),
            Answer::Pulled(pull) => Ok(Answer::Pulled(pull.copy(alloc)?)),
        }
    }
}
