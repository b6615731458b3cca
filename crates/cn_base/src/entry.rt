//! The entries of prefix lists.

ghost use Rattle.std.specs.Prelude.{◌≡◌, MatchOption};
ghost use Rattle.cn_base.specs.Entry.{IsEntry, entry_with, matches};

use crate::prefix::Prefix;
use std::marker::Model;

/// An entry of a prefix list: whether it permits the prefixes that it matches. Those are the
/// prefixes that its own one covers, with a length from `ge` to `le`, which lie between its length
/// and 32. Contracts see an `EntryValue`.
#[derive(Clone, Copy, Debug, PartialEq, Eq)]
pub struct Entry {
    permit: bool,
    prefix: Prefix,
    ge: u8,
    le: u8,
}

impl Model for Entry {
    ghost use Rattle.cn_base.specs.Entry.{EntryValue, IsEntry, entry_with};

    ghost Value = { EntryValue };

    ghost view = { λ e. entry_with e.permit e.prefix e.ge e.le };

    ghost invariant = { λ e. IsEntry (entry_with e.permit e.prefix e.ge e.le) };

    ghost inverse = { λ v. record { permit = v.permit; prefix = v.prefix; ge = v.ge; le = v.le } };
}

impl Entry {
    /// The entry with this prefix and these two lengths. None comes exactly where not
    /// `prefix.len() <= ge <= le <= 32`. It takes no memory.
    pub fn new(permit: bool, prefix: Prefix, ge: u8, le: u8) -> Option<Entry>
        ensures { let entry = entry_with permit prefix ge le in
            MatchOption result (IsEntry entry → ⊥) (λ e. (e ≡ entry) × IsEntry e) }
    {
        if prefix.len() <= ge && ge <= le && le <= 32 {
            Some(Entry {
                permit,
                prefix,
                ge,
                le,
            })
        } else {
            None
        }
    }

    /// Whether the entry permits what it matches.
    pub fn permit(&self) -> bool
        ensures { result ≡ self.now.permit }
    {
        self.permit
    }

    /// Holds where the entry's prefix covers this one, whose length is from `ge` to `le`. It takes
    /// no memory.
    pub fn matches(&self, prefix: &Prefix) -> bool
        ensures { result ≡ matches self.now prefix.now }
    {
        self.prefix.covers(prefix) && self.ge <= prefix.len() && prefix.len() <= self.le
    }
}
