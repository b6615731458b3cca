//! What decides between routes to one prefix (RFC 4271, 9.1.2.2).

ghost use Rattle.std.specs.Prelude.{◌≡◌};
ghost use Rattle.cn_base.specs.Rank.{ranks_before};

use crate::ids::{Origin, RouterId};

/// What decides between two routes: the least is preferred. The order is by the fields as they
/// stand, `false` first, so a device's own route comes before each that it learnt. `length` counts
/// the numbers of the path, and `sender` is the BGP Identifier of the device that it came from.
#[derive(Clone, Copy, Debug, PartialEq, Eq, PartialOrd, Ord)]
pub struct Rank {
    pub learnt: bool,
    pub length: u8,
    pub origin: Origin,
    pub sender: RouterId,
}

impl Rank {
    /// Holds where this rank stands before the other. It takes no memory.
    pub fn is_before(&self, other: &Rank) -> bool
        ensures { result ≡ ranks_before self.now other.now }
    {
        self < other
    }
}
