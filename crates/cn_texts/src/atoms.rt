//! What is read of the texts of atoms, and how atoms are printed.

use crate::words::{path_text, same, text_of, word};
use cn_base::{AsPath, Asn, Prefix};
use cn_text::{
    Bad, PathAnswer, address_of, origin_of, path_of, put_address, put_number, put_pair, put_path,
    put_prefix, read_address, read_number, read_path, read_prefix, whole,
};
use std::alloc::Global;
use std::test::Fail;

// What is read of a text: an atom at a place, with the place behind it, or the octet that is
// refused; or the atom that the text is as a whole.
enum Kind {
    Number,
    Address,
    Prefix,
    Path,
    WholePath,
    Origin,
}

// A kind, and texts, each with the place where the atom is read, and what is read.
type Atoms = (Kind, &'static [(&'static str, usize, &'static str)]);

const ATOMS: &[Atoms] = &[
    (Kind::Number, NUMBERS),
    (Kind::Address, ADDRESSES),
    (Kind::Prefix, PREFIXES),
    (Kind::Path, PATHS),
    (Kind::WholePath, WHOLE_PATHS),
    (Kind::Origin, ORIGINS),
];

// Numbers up to 255.
const NUMBERS: &[(&str, usize, &str)] = &[
    ("0", 0, "0 to 1"),
    ("255x", 0, "255 to 3"),
    ("a17", 1, "17 to 3"),
    ("017", 0, "0 to 1"),
    ("256", 0, "bad at 0"),
    ("99999999999999999999999", 0, "bad at 0"),
    ("x", 0, "bad at 0"),
    ("1", 1, "bad at 1"),
];

// Addresses as a whole, in hexadecimal, by each of the two calls.
const ADDRESSES: &[(&str, usize, &str)] = &[
    ("10.0.1.2", 0, "0a000102 0a000102"),
    ("255.255.255.255", 0, "ffffffff ffffffff"),
    ("0.0.0.0", 0, "00000000 00000000"),
    ("10.0.1", 0, "none none"),
    ("10.0.1.256", 0, "none none"),
    ("10.0.01.2", 0, "none none"),
    ("10.0.1.2 ", 0, "none none"),
    ("10,0.1.2", 0, "none none"),
    ("", 0, "none none"),
];

// Prefixes, their bits in hexadecimal.
const PREFIXES: &[(&str, usize, &str)] = &[
    ("10.1.1.0/24", 0, "0a010100 24 to 11"),
    ("0.0.0.0/0 ", 0, "00000000 0 to 9"),
    ("10.1.1.1/32", 0, "0a010101 32 to 11"),
    ("10.1.1.0/33", 0, "bad at 9"),
    ("10.1.1.1/24", 0, "bad at 9"),
    ("10.1.1.0", 0, "bad at 8"),
    ("10.1.1.0/", 0, "bad at 9"),
    ("10.1.x.0/8", 0, "bad at 5"),
];

// Paths, as they are printed.
const PATHS: &[(&str, usize, &str)] = &[
    ("-", 0, "- to 1"),
    ("-1", 0, "- to 1"),
    ("0", 0, "0 to 1"),
    ("01", 0, "0 to 1"),
    ("a 65201 65102", 2, "65201 65102 to 13"),
    ("7 4294967295 origin", 0, "7 4294967295 to 12"),
    ("1  2", 0, "1 to 1"),
    ("1 ", 0, "1 to 1"),
    ("1 4294967296", 0, "bad at 2"),
    ("4294967296", 0, "bad at 0"),
    ("x", 0, "bad at 0"),
    (" 1", 0, "bad at 0"),
    ("", 0, "bad at 0"),
];

// Paths as a whole, which are printed as they were.
const WHOLE_PATHS: &[(&str, usize, &str)] = &[
    ("-", 0, "-"),
    ("0", 0, "0"),
    ("65201 65102 4294967295", 0, "65201 65102 4294967295"),
    ("", 0, "none"),
    ("- 1", 0, "none"),
    ("01", 0, "none"),
    ("1 02", 0, "none"),
    ("1  2", 0, "none"),
    ("1 ", 0, "none"),
    (" 1", 0, "none"),
    ("1,2", 0, "none"),
    ("4294967296", 0, "none"),
];

const ORIGINS: &[(&str, usize, &str)] = &[
    ("igp", 0, "Some(Igp)"),
    ("egp", 0, "Some(Egp)"),
    ("incomplete", 0, "Some(Incomplete)"),
    ("IGP", 0, "None"),
    ("igp ", 0, "None"),
    ("ig", 0, "None"),
    ("", 0, "None"),
];

fn bad_at(alloc: Global, at: usize) -> Result<String, Fail> {
    Ok(format!(in alloc; "bad at {at}")?)
}

fn number(alloc: Global, read: Result<(u64, usize), Bad>) -> Result<String, Fail> {
    match read {
        Ok((number, after)) => Ok(format!(in alloc; "{number} to {after}")?),
        Err(bad) => bad_at(alloc, bad.at),
    }
}

fn address(alloc: Global, address: Option<u32>) -> Result<String, Fail> {
    match address {
        Some(address) => Ok(format!(in alloc; "{address:08x}")?),
        None => word(alloc, "none"),
    }
}

fn addresses(alloc: Global, text: &[u8]) -> Result<String, Fail> {
    let one = address(alloc, address_of(text))?;
    let other = address(alloc, whole(read_address(text, 0), text))?;
    Ok(format!(in alloc; "{one} {other}")?)
}

fn prefix(alloc: Global, read: Result<(Prefix, usize), Bad>) -> Result<String, Fail> {
    match read {
        Ok((prefix, after)) => {
            let (bits, len) = (prefix.bits(), prefix.len());
            Ok(format!(in alloc; "{bits:08x} {len} to {after}")?)
        }
        Err(bad) => bad_at(alloc, bad.at),
    }
}

fn path(alloc: Global, read: Result<(AsPath, usize), PathAnswer>) -> Result<String, Fail> {
    match read {
        Ok((path, after)) => {
            let path = path_text(alloc, &path)?;
            Ok(format!(in alloc; "{path} to {after}")?)
        }
        Err(PathAnswer::Bad { at }) => bad_at(alloc, at),
        Err(PathAnswer::Memory) => word(alloc, "no memory"),
    }
}

fn whole_path(alloc: Global, text: &[u8]) -> Result<String, Fail> {
    match path_of(alloc, text)? {
        Some(path) => path_text(alloc, &path),
        None => word(alloc, "none"),
    }
}

// What is read of a text.
fn told(alloc: Global, kind: &Kind, text: &[u8], at: usize) -> Result<String, Fail> {
    if at > text.len() {
        return Err(Fail::new("no such place"));
    }
    match kind {
        Kind::Number => number(alloc, read_number(text, at, 255)),
        Kind::Address => addresses(alloc, text),
        Kind::Prefix => prefix(alloc, read_prefix(text, at)),
        Kind::Path => path(alloc, read_path(alloc, text, at)),
        Kind::WholePath => whole_path(alloc, text),
        Kind::Origin => {
            let origin = origin_of(text);
            Ok(format!(in alloc; "{origin:?}")?)
        }
    }
}

// As many sevens, joined by spaces.
fn sevens(alloc: Global, count: usize) -> Result<Vec<u8>, Fail> {
    let mut text = Vec::from_slice(alloc, b"7")?;
    for _ in 1..count {
        text.extend_from_slice(b" 7")?;
    }
    Ok(text)
}

// A path of 255 numbers is read, and of 256 the last is refused.
const LONG: &[(usize, &str)] = &[(255, "255 numbers"), (256, "bad at 510")];

fn long(alloc: Global, count: usize) -> Result<String, Fail> {
    let text = sevens(alloc, count)?;
    match path_of(alloc, &text)? {
        Some(path) => {
            let count = path.len();
            Ok(format!(in alloc; "{count} numbers")?)
        }
        None => path(alloc, read_path(alloc, &text, 0)),
    }
}

#[test]
fn atoms_are_read_or_not(rt: HostRuntime) -> Result<(), Fail> {
    let alloc = rt.alloc();
    for (kind, rows) in ATOMS {
        for (text, at, want) in *rows {
            same(&rt, text, &told(alloc, kind, text.as_bytes(), *at)?, want);
        }
    }
    for (count, want) in LONG {
        same(&rt, want, &long(alloc, *count)?, want);
    }
    Ok(())
}

// The largest number, an address, a prefix, a path of no numbers and one of three, and two names.
const PRINTED: &str = "18446744073709551615 10.0.1.2 10.1.1.0/24 -, 65201 65102 4294967295, t1 l1";

fn printed(alloc: Global) -> Result<String, Fail> {
    let mut out = Vec::new(alloc);
    put_number(alloc, &mut out, 18_446_744_073_709_551_615)?;
    out.extend_from_slice(b" ")?;
    put_address(alloc, &mut out, 0x0A00_0102)?;
    out.extend_from_slice(b" ")?;
    let prefix = Prefix::new(0x0A01_0100, 24).ok_or("no prefix")?;
    put_prefix(alloc, &mut out, &prefix)?;
    out.extend_from_slice(b" ")?;
    put_path(alloc, &mut out, &AsPath::empty(alloc))?;
    out.extend_from_slice(b", ")?;
    let numbers = vec![in alloc; Asn(65201), Asn(65102), Asn(4_294_967_295)]?;
    if let Some(path) = AsPath::make(numbers) {
        put_path(alloc, &mut out, &path)?;
    }
    out.extend_from_slice(b", ")?;
    put_pair(&mut out, "t1", "l1")?;
    text_of(alloc, &out)
}

#[test]
fn atoms_are_printed(rt: HostRuntime) -> Result<(), Fail> {
    same(&rt, "atoms", &printed(rt.alloc())?, PRINTED);
    Ok(())
}
