//! A file that takes a name once it is whole.
//!
//! The bytes are written to a new file beside the name, and that file is given the name when it has
//! them all: a full disk leaves what the name held. That goes where the name is free, or is a plain
//! file that has no other name and is of the same owner as the new one. Else, as for a link or a
//! device, the bytes are written in place.

use crate::loops::write_through;
use std::alloc::{AllocError, Global};
use std::fs;
use std::fs::{File, Metadata, OpenFile, OpenOptions};
use std::io::ErrorKind;
use std::os::unix::fs::MetadataExt;
use std::rt::Files;

/// How many names beside a name are tried, where files of these names are there.
const BESIDE_NAMES: u32 = 100;

/// What stands under a name before it is written.
#[derive(Drop)]
enum Standing {
    /// Nothing.
    Free,
    /// A plain file that has no other name.
    Plain(Metadata),
    /// Anything else: a link, a folder, a device, a file of several names, or what can't be told.
    Other,
}

fn standing_of<R: Files>(files: &R, name: &str) -> Standing {
    match fs::symlink_metadata(files, name) {
        Ok(older) if older.is_file() && older.nlink() == 1 => Standing::Plain(older),
        Ok(_) => Standing::Other,
        Err(error) if error.kind() == ErrorKind::NotFound => Standing::Free,
        Err(_) => Standing::Other,
    }
}

/// How a write beside a name ended.
#[derive(Clone, Copy, Debug, PartialEq, Eq)]
enum Beside {
    /// The bytes stand under the name.
    Renamed,
    /// They don't, and the name holds what it held.
    Failed,
    /// No file can be made beside the name that takes its place, and the name holds what it held.
    Impossible,
}

/// Whether the new file has the owner of the older one, and takes over who may read and write it.
fn takes_over<F: OpenFile>(file: &F, older: &Metadata) -> bool {
    match file.metadata() {
        Ok(newer) => {
            newer.uid() == older.uid()
                && newer.gid() == older.gid()
                && file.set_permissions(older.permissions()).is_ok()
        }
        Err(_) => false,
    }
}

/// Writes the bytes to the new file beside the name, and lets it take the name.
fn fill_and_rename<R: Files>(
    files: &R,
    mut file: R::File,
    beside: &str,
    name: &str,
    bytes: &[u8],
) -> Beside {
    let ending = if !write_through(&mut file, bytes) {
        Beside::Failed
    } else if fs::rename(files, beside, name).is_ok() {
        return Beside::Renamed;
    } else {
        Beside::Impossible
    };
    let _ = fs::remove_file(files, beside);
    ending
}

/// Writes the bytes beside the name under the first name that is free, and lets them take the name.
/// Where an older file stands there, the new one is to have its owner and its permissions.
fn write_beside<R: Files>(
    alloc: Global,
    files: &R,
    name: &str,
    older: Option<&Metadata>,
    bytes: &[u8],
) -> Result<Beside, AllocError> {
    for number in 0..BESIDE_NAMES {
        let beside = format!(in alloc; "{name}.{number}.new")?;
        match File::create_new(files, beside.as_str()) {
            Ok(file) => {
                if older.is_some_and(|older| !takes_over(&file, older)) {
                    let _ = fs::remove_file(files, beside.as_str());
                    return Ok(Beside::Impossible);
                }
                return Ok(fill_and_rename(files, file, beside.as_str(), name, bytes));
            }
            Err(error) if error.kind() == ErrorKind::AlreadyExists => {}
            Err(error) if error.kind() == ErrorKind::StorageFull => return Ok(Beside::Failed),
            Err(error) if error.kind() == ErrorKind::QuotaExceeded => return Ok(Beside::Failed),
            Err(_) => return Ok(Beside::Impossible),
        }
    }
    Ok(Beside::Impossible)
}

/// Whether the file can be written. A new file may not take the place of one that can't.
fn is_writable<R: Files>(files: &R, name: &str) -> bool {
    OpenOptions::new().write(true).open(files, name).is_ok()
}

/// Makes the file anew with these bytes, in place, and says whether that succeeded.
fn write_in_place<R: Files>(files: &R, name: &str, bytes: &[u8]) -> bool {
    match fs::create(files, name) {
        Ok(mut file) => write_through(&mut file, bytes),
        Err(_) => false,
    }
}

/// Lets the name hold these bytes, and says whether that succeeded.
pub fn write_named<R: Files>(
    alloc: Global,
    files: &R,
    name: &str,
    bytes: &[u8],
) -> Result<bool, AllocError> {
    let beside = match standing_of(files, name) {
        Standing::Free => write_beside(alloc, files, name, None, bytes)?,
        Standing::Plain(older) => {
            if !is_writable(files, name) {
                return Ok(false);
            }
            write_beside(alloc, files, name, Some(&older), bytes)?
        }
        Standing::Other => Beside::Impossible,
    };
    match beside {
        Beside::Renamed => Ok(true),
        Beside::Failed => Ok(false),
        Beside::Impossible => Ok(write_in_place(files, name, bytes)),
    }
}
