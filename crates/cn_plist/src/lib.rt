//! Prefix lists: which prefixes a policy permits.
//!
//! A `PrefixList` is an ordered list of entries (`Entry` of `cn_base`). The layer above asks one
//! for a prefix by `permits`, which is `permits` of `specs/Lists.antt`: the first entry that
//! matches decides, and no match denies. What an absent list says, `permits_if_any`, stands there
//! too. Contracts see a list as the list of its entries. Which route a list is asked for is left to
//! `cn_net`.
#![tactic(auto)]

ghost use Rattle.std.specs.Prelude.{◌≡◌, IfOk};
ghost use Rattle.cn_plist.specs.Lists.{permits};

use cn_base::{Entry, Prefix};
use std::alloc::{AllocError, Global};
use std::marker::Model;

/// Entries of which the first that matches a prefix decides. Contracts see the list of the entries.
#[derive(Debug, Drop)]
pub struct PrefixList {
    entries: Vec<Entry>,
}

impl Model for PrefixList {
    ghost use Rattle.std.specs.Prelude.{List};
    ghost use Rattle.cn_base.specs.Entry.{EntryValue};

    ghost Value = { List EntryValue };

    ghost view = { λ l. l.entries.items };
}

impl PrefixList {
    /// The list of these entries. It takes no memory.
    pub fn make(entries: Vec<Entry>) -> PrefixList
        ensures { result ≡ entries.items }
    {
        PrefixList { entries }
    }

    /// The entries, in order.
    pub fn items(&self) -> &[Entry]
        ensures { result.now ≡ self.now }
    {
        self.entries.as_slice()
    }

    /// What the first entry says that matches the prefix, and false where none matches. It takes no
    /// memory.
    pub fn permits(&self, prefix: &Prefix) -> bool
        ensures { result ≡ permits self.now prefix.now }
    {
        let first = self.entries.iter().find(|entry| entry.matches(prefix));
        first.is_some_and(|entry| entry.permit())
    }

    /// An equal list.
    pub fn copy(&self, alloc: Global) -> Result<PrefixList, AllocError>
        ensures { IfOk result (λ list. list ≡ self.now) }
    {
        let entries = Vec::from_slice(alloc, &self.entries)?;
        Ok(PrefixList { entries })
    }
}
