//! What is read of tables of TOML, and the first fault of what isn't.

use crate::words::{fault, same, text_of};
use cn_table::{
    NameReader, address_at, array_at, document_of, each, name_at, name_if_at, needed, number_at,
    only, origin_at, path_at, prefix_at, prefix_in,
};
use cn_text::{TextAnswer, origin_text, put_address, put_number, put_path, put_prefix};
use std::alloc::Global;
use std::test::Fail;
use toml::Table;

const TABLE: &[u8] = b"address = \"10.0.0.1\"\nlayer = 7\nname = \"t1\"\nnames = [\"a\", \"b\"]\n\
    table = {}\ndevice = \"t1\"\nprefix = \"10.1.1.0/24\"\npath = \"65101 65201\"\n\
    origin = \"egp\"\nempty = \"-\"\nwrong = \"1 02\"\nnumber = 3\n";

// What is read under a key.
enum Ask {
    Name,
    // A name, which may be absent.
    NameIf,
    Address,
    // A number up to 7.
    Number,
    Prefix,
    // The value that is needed, and the prefix in it.
    PrefixIn,
    Path,
    Origin,
    // Names in an array, which may be absent.
    Names,
}

// What is read under a key, and what is found, as it is printed: each value once, and what is
// absent, of another kind, or outside its rule.
const ASKED: &[(Ask, &str, &str)] = &[
    (Ask::Name, "name", "t1"),
    (Ask::Address, "address", "10.0.0.1"),
    (Ask::Number, "layer", "7"),
    (Ask::PrefixIn, "prefix", "10.1.1.0/24"),
    (Ask::Names, "absent", ""),
    (Ask::Names, "names", " a b"),
    (Ask::NameIf, "device", "t1"),
    (Ask::NameIf, "from", "none"),
    (Ask::Prefix, "prefix", "10.1.1.0/24"),
    (Ask::Path, "empty", "-"),
    (Ask::Path, "path", "65101 65201"),
    (Ask::Origin, "origin", "egp"),
    (Ask::NameIf, "path", "value r.path"),
    (Ask::NameIf, "number", "shape r.number"),
    (Ask::Prefix, "path", "value r.path"),
    (Ask::Prefix, "number", "shape r.number"),
    (Ask::Prefix, "from", "key r.from"),
    (Ask::Path, "wrong", "value r.wrong"),
    (Ask::Path, "number", "shape r.number"),
    (Ask::Path, "from", "key r.from"),
    (Ask::Origin, "device", "value r.device"),
    (Ask::Origin, "number", "shape r.number"),
    (Ask::Origin, "from", "key r.from"),
];

const FRONT: &[u8] = b"r.";

fn put_names(out: &mut Vec<u8>, alloc: Global, key: &str, table: &Table) -> Result<(), TextAnswer> {
    let values = array_at(alloc, FRONT, key, table)?;
    let names = each(alloc, &NameReader, key.as_bytes(), values)?;
    for name in names.items() {
        out.extend_from_slice(b" ")?;
        out.extend_from_slice(name.text().as_bytes())?;
    }
    Ok(())
}

fn put_name_if(
    out: &mut Vec<u8>,
    alloc: Global,
    key: &str,
    table: &Table,
) -> Result<(), TextAnswer> {
    match name_if_at(alloc, FRONT, key, table)? {
        Some(name) => out.extend_from_slice(name.text().as_bytes())?,
        None => out.extend_from_slice(b"none")?,
    }
    Ok(())
}

// Prints what is found under a key.
fn put(
    out: &mut Vec<u8>,
    alloc: Global,
    ask: &Ask,
    key: &str,
    table: &Table,
) -> Result<(), TextAnswer> {
    match ask {
        Ask::Name => out.extend_from_slice(name_at(alloc, FRONT, key, table)?.text().as_bytes())?,
        Ask::NameIf => put_name_if(out, alloc, key, table)?,
        Ask::Address => put_address(alloc, out, address_at(alloc, FRONT, key, table)?)?,
        Ask::Number => {
            let number = number_at(alloc, 0, 7, FRONT, key, table)?;
            put_number(alloc, out, u64::from(number))?
        }
        Ask::Prefix => put_prefix(alloc, out, &prefix_at(alloc, FRONT, key, table)?)?,
        Ask::PrefixIn => {
            let value = needed(alloc, FRONT, key, table)?;
            put_prefix(alloc, out, &prefix_in(alloc, key.as_bytes(), value)?)?
        }
        Ask::Path => put_path(alloc, out, &path_at(alloc, FRONT, key, table)?)?,
        Ask::Origin => out.extend_from_slice(origin_text(origin_at(alloc, FRONT, key, table)?))?,
        Ask::Names => put_names(out, alloc, key, table)?,
    }
    Ok(())
}

fn told(alloc: Global, ask: &Ask, key: &str, table: &Table) -> Result<String, Fail> {
    let mut out = Vec::new(alloc);
    match put(&mut out, alloc, ask, key, table) {
        Ok(()) => text_of(alloc, &out),
        Err(answer) => fault(alloc, &answer),
    }
}

#[test]
fn values_are_read_or_not(rt: HostRuntime) -> Result<(), Fail> {
    let alloc = rt.alloc();
    let table = document_of(alloc, TABLE)?;
    for (ask, key, want) in ASKED {
        same(&rt, key, &told(alloc, ask, key, &table)?, want);
    }
    Ok(())
}

// Texts, the keys that are listed, and what is found: how many keys there are, or the first fault.
const DOCUMENTS: &[(&[u8], &[&str], &str)] = &[
    // Bytes that are a table, bytes that are no text, and a text that is no table.
    (b"a = 1\n", &["a"], "1"),
    (b"a = \xFF", &["a"], "utf8"),
    (b"a =", &["a"], "toml"),
    // A key that isn't listed is told with its path.
    (
        b"name = 1\n\"a b\" = 2\nz = 3\n",
        &["a b", "name", "z"],
        "3",
    ),
    (
        b"name = 1\n\"a b\" = 2\nz = 3\n",
        &["name"],
        "key device[0].a?b",
    ),
];

fn listed(alloc: Global, text: &[u8], keys: &[&str]) -> Result<usize, TextAnswer> {
    let table = document_of(alloc, text)?;
    only(alloc, b"device[0].", keys, &table)?;
    Ok(table.len())
}

#[test]
fn keys_are_listed_or_not(rt: HostRuntime) -> Result<(), Fail> {
    let alloc = rt.alloc();
    for (text, keys, want) in DOCUMENTS {
        let found = match listed(alloc, *text, *keys) {
            Ok(count) => format!(in alloc; "{count}")?,
            Err(answer) => fault(alloc, &answer)?,
        };
        same(&rt, want, &found, want);
    }
    Ok(())
}
