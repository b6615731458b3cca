//! Entries of prefix lists, as they are written.

ghost use Rattle.std.specs.Prelude.{◌≡◌, ◌≤◌, IfOk, IfSome, length};
ghost use Rattle.cn_readnet.specs.Atoms.{action_at, entry_at, entry_of, entry_within, length_at, lengths};

use cn_base::{Entry, Prefix};
use cn_text::{Bad, read_number, read_prefix, whole};

/// Whether an entry permits what it matches, and the place after that word.
fn read_action(text: &[u8]) -> Result<(bool, usize), Bad>
    ensures value { result ≡ action_at text.now }
    ensures within { IfOk result (λ x. x.1 ≤ length text.now) }
{
    if text.starts_with(b"permit ") {
        Ok((true, 7))
    } else if text.starts_with(b"deny ") {
        Ok((false, 5))
    } else {
        Err(Bad { at: 0 })
    }
}

/// The length after a word that may stand at a place, and the place after it.
fn read_length(text: &[u8], at: usize, word: &[u8]) -> Result<(Option<u8>, usize), Bad>
    requires { at ≤ length text.now }
    ensures value { result ≡ length_at text.now at word.now }
    ensures within { IfOk result (λ x. x.1 ≤ length text.now) }
{
    if !text[at..].starts_with(word) {
        return Ok((None, at));
    }
    let (number, after) = read_number(text, at + word.len(), 32)?;
    Ok((Some(number as u8), after))
}

/// The least and the greatest length that an entry matches whose prefix has length `len`.
fn lengths(len: u8, ge: Option<u8>, le: Option<u8>) -> (u8, u8)
    ensures { result ≡ lengths len ge le }
{
    match (ge, le) {
        (None, None) => (len, len),
        (Some(ge), None) => (ge, 32),
        (None, Some(le)) => (len, le),
        (Some(ge), Some(le)) => (ge, le),
    }
}

/// The entry with these lengths. None comes exactly where they don't lie between the length of its
/// prefix and 32, or cross.
fn entry_within(permit: bool, prefix: Prefix, between: (u8, u8)) -> Option<Entry>
    ensures { result ≡ entry_within permit prefix between }
{
    Entry::new(permit, prefix, between.0, between.1)
}

/// The entry at the front of a text, and the place after it.
#[tactic(auto, unfolding(crate::specs::Atoms::entry_at))]
fn read_entry(text: &[u8]) -> Result<(Entry, usize), Bad>
    ensures { result ≡ entry_at text.now }
{
    let (permit, at) = read_action(text)?;
    let (prefix, at) = read_prefix(text, at)?;
    let (ge, at) = read_length(text, at, b" ge ")?;
    let (le, at) = read_length(text, at, b" le ")?;
    match entry_within(permit, prefix, lengths(prefix.len(), ge, le)) {
        Some(entry) => Ok((entry, at)),
        None => Err(Bad { at: 0 }),
    }
}

/// The entry that a text is as a whole: `permit` or `deny`, a prefix, and `ge` and `le` with a
/// length, each of which may be left out. None comes exactly where it isn't one.
pub fn entry_of(text: &[u8]) -> Option<Entry>
    ensures { result ≡ entry_of text.now }
{
    whole(read_entry(text), text)
}
