//! Paths of AS numbers.

ghost use Rattle.std.specs.Prelude.{◌≡◌, ◌≤◌, ◌+◌, ◌-◌, ◌++◌, List, ℕ, Ok, Some, false, length, take, drop, slice_index, IfOk};
ghost use Rattle.cn_base.specs.declared.ids.Asn.{Asn};
ghost use Rattle.cn_text.specs.declared.path.PathAnswer.TheVariants.{Bad as BadPath, Memory};
ghost use Rattle.cn_text.specs.Number.{is_digit};
ghost use Rattle.cn_text.specs.Printed.{path_text};
ghost use Rattle.cn_text.specs.Atoms.{is_further, numbers_at, path_at, path_of, IsPath, PathReads};

use crate::atoms::{read_mark, whole};
use crate::number::{Bad, is_digit, read_number};
use cn_base::{AsPath, Asn};
use std::alloc::{AllocError, AllocFailed, Global};

/// Why no path was read.
#[derive(Clone, Copy, Debug, PartialEq, Eq)]
pub enum PathAnswer {
    /// No path stands there: the place of the first octet that can't stand where it does, or the
    /// end of the text.
    Bad { at: usize },
    /// Memory ran out.
    Memory,
}

impl From<Bad> for PathAnswer {
    ghost from_gives = { λ bad e. e ≡ BadPath bad.at };

    fn from(bad: Bad) -> PathAnswer {
        PathAnswer::Bad { at: bad.at }
    }
}

impl From<AllocError> for PathAnswer {
    ghost from_gives = { λ _ e. e ≡ Memory };

    fn from(_: AllocError) -> PathAnswer {
        PathAnswer::Memory
    }
}

impl<T: Drop> From<AllocFailed<T>> for PathAnswer {
    ghost from_gives = { λ _ e. e ≡ Memory };

    fn from(_: AllocFailed<T>) -> PathAnswer {
        PathAnswer::Memory
    }
}

fn is_further(rest: &[u8]) -> bool
    ensures { result ≡ is_further rest.now }
{
    match rest {
        [b' ', digit, ..] => is_digit(*digit),
        _ => false,
    }
}

/// The numbers at a place, and the place after them.
fn read_numbers(alloc: Global, bytes: &[u8], at: usize) -> Result<(AsPath, usize), PathAnswer>
    requires { at ≤ length bytes.now }
    ensures value { PathReads result (numbers_at bytes.now at) }
    ensures within { IfOk result (λ x. x.1 ≤ length bytes.now) }
{
    let (first, mut end) = read_number(bytes, at, 4_294_967_295)?;
    let mut numbers = vec![in alloc; Asn(first as u32)]?;
    while is_further(&bytes[end..]) {
        if numbers.len() == 255 {
            return Err(PathAnswer::Bad { at: end + 1 });
        }
        let (number, after) = read_number(bytes, end + 1, 4_294_967_295)?;
        numbers.push(Asn(number as u32))?;
        end = after;
    }
    match AsPath::make(numbers) {
        Some(path) => Ok((path, end)),
        None => unreachable!(),
    }
}

/// The path at a place, and the place after it: a dash where there are no numbers, and else 1 to
/// 255 numbers up to 4294967295, joined by one space each. A further number is read only where one
/// space and a digit follow; one that is too great, or the 256th, is refused at its first octet.
#[tactic(auto, unfolding(crate::specs::Atoms::path_at))]
pub fn read_path(alloc: Global, bytes: &[u8], at: usize) -> Result<(AsPath, usize), PathAnswer>
    requires { at ≤ length bytes.now }
    ensures value { PathReads result (path_at bytes.now at) }
    ensures within { IfOk result (λ x. x.1 ≤ length bytes.now) }
{
    match read_mark(bytes, at, b'-') {
        Ok(after) => Ok((AsPath::empty(alloc), after)),
        Err(_) => read_numbers(alloc, bytes, at),
    }
}

/// The path that a text is as a whole. `Ok(None)` comes exactly where it isn't one.
pub fn path_of(alloc: Global, text: &[u8]) -> Result<Option<AsPath>, AllocError>
    ensures { IfOk result (λ path. path ≡ path_of text.now) }
{
    match read_path(alloc, text, 0) {
        Ok(read) => Ok(whole(Ok(read), text)),
        Err(PathAnswer::Bad { .. }) => Ok(None),
        Err(PathAnswer::Memory) => Err(AllocError),
    }
}

/// Each path has one spelling, the printed one: what is read is what would be printed, and what is
/// printed is read, whatever follows it that is neither a digit nor a space and a digit. So a text
/// is a path as a whole exactly where it is a printed one.
pub fn path_has_one_spelling()
    ensures read_is_printed { (bytes : List ℕ) (at : ℕ) (path : List Asn) (after : ℕ)
        → path_at bytes at ≡ Ok (path, after)
        → IsPath path × (take (after - at) (drop at bytes) ≡ path_text path) }
    ensures printed_is_read { (bytes tail : List ℕ) (at : ℕ) (path : List Asn)
        → drop at bytes ≡ path_text path ++ tail → IsPath path
        → is_digit (slice_index tail 0) ≡ false → is_further tail ≡ false
        → path_at bytes at ≡ Ok (path, at + length (path_text path)) }
    ensures whole_is_printed { (text : List ℕ) (path : List Asn) → path_of text ≡ Some path
        → IsPath path × (text ≡ path_text path) }
    ensures printed_is_whole { (path : List Asn) → IsPath path
        → path_of (path_text path) ≡ Some path }
{}
