//! Reading to the end, and writing all, whatever a reader gives at once and a writer takes.
//!
//! Both loops are generic over the reader and the writer: of one that tells its bytes the contracts
//! say that all of them are read, and that all are taken in order. Below each stands one call,
//! which is made again where a signal interrupts it.

ghost use Rattle.std.specs.Prelude.{◌≡◌, ◌≤◌, ◌<◌, ℕ, IfOk, IfErr, IfSome, OnOk, IsTrue, false, length, take};
ghost use Rattle.std.specs.Io.{ReadsAtMost, WritesAtMost};
ghost use Rattle.std.specs.Io.KnownBytes.{Appends, IsAtEnd, ReadConsumes, WriteAppends};
ghost use Rattle.cn_outside.specs.Shelf.{NamesLimit, ReadsHeld, holds};

use crate::ReadAnswer;
use std::alloc::Global;
use std::io;
use std::io::{ErrorKind, Read, Write};

/// One read, made again where a signal interrupts it.
fn read_once<R: Read>(file: &mut R, piece: &mut [u8]) -> io::Result<usize>
    ensures bound { ReadsAtMost result piece.new }
    ensures bytes { ReadConsumes (R.remaining file.old) (R.remaining file.new) result piece.new }
{
    for _ in 0..u64::MAX {
        match file.read(piece) {
            Err(error) if error.kind() == ErrorKind::Interrupted => {}
            answer => return answer,
        }
    }
    Err(io::Error::from(ErrorKind::Interrupted))
}

/// All that the reader has left, at most `limit` bytes. A read of no bytes is its end.
pub fn read_all<R: Read>(alloc: Global, file: &mut R, limit: usize) -> Result<Vec<u8>, ReadAnswer>
    ensures within { IfOk result (λ bytes. length bytes.items ≤ limit) }
    ensures limit { IfErr result (NamesLimit limit) }
    ensures content { IfSome (R.remaining file.old) (λ xs. ReadsHeld (holds xs) limit result) }
    ensures end { OnOk result (IsAtEnd (R.remaining file.new)) }
{
    let mut bytes: Vec<u8> = Vec::new(alloc);
    let mut piece = [0u8; 4096];
    for _ in 0..u64::MAX {
        let count = match read_once(file, &mut piece) {
            Ok(count) => count,
            Err(_) => return Err(ReadAnswer::Failed),
        };
        if count == 0 {
            return Ok(bytes);
        }
        if count > limit - bytes.len() {
            return Err(ReadAnswer::TooLong { limit });
        }
        bytes.extend_from_slice(&piece[..count])?;
    }
    Err(ReadAnswer::Failed)
}

/// One write, made again where a signal interrupts it.
fn write_once<W: Write>(to: &mut W, bytes: &[u8]) -> io::Result<usize>
    ensures bound { WritesAtMost result bytes.now }
    ensures bytes { WriteAppends (W.contents to.old) (W.contents to.new) result bytes.now }
{
    for _ in 0..u64::MAX {
        match to.write(bytes) {
            Err(error) if error.kind() == ErrorKind::Interrupted => {}
            answer => return answer,
        }
    }
    Err(io::Error::from(ErrorKind::Interrupted))
}

/// Writes all the bytes, and says whether they were all taken. A write that takes none of them is a
/// failure.
fn write_all_of<W: Write>(to: &mut W, bytes: &[u8]) -> bool
    ensures all { IsTrue result → Appends (W.contents to.old) (W.contents to.new) bytes.now }
    ensures part { result ≡ false → (n : ℕ) × (n < length bytes.now)
        × Appends (W.contents to.old) (W.contents to.new) (take n bytes.now) }
{
    let mut done = 0usize;
    while done < bytes.len() {
        match write_once(to, &bytes[done..]) {
            Ok(0) => return false,
            Ok(count) => done += count,
            Err(_) => return false,
        }
    }
    true
}

/// Writes all the bytes, and lets go of what the writer kept back.
pub fn write_through<W: Write>(to: &mut W, bytes: &[u8]) -> bool
    ensures { IsTrue result → Appends (W.contents to.old) (W.contents to.new) bytes.now }
{
    write_all_of(to, bytes) && to.flush().is_ok()
}
