//! Answers in words, and whether they are those of a row.

use cn_base::{AsPath, Prefix};
use cn_text::{TextAnswer, put_path, put_prefix};
use std::alloc::Global;
use std::process::Abort;
use std::str;
use std::test::Fail;

/// Stops, naming the row, where another text is found than its own.
pub fn same(rt: &impl Abort, row: &str, found: &str, text: &str) {
    assert_eq!(rt; found, text, "{row}");
}

/// A word as a text.
pub fn word(alloc: Global, word: &str) -> Result<String, Fail> {
    Ok(String::from_str(alloc, word)?)
}

/// Octets as a text.
pub fn text_of(alloc: Global, octets: &[u8]) -> Result<String, Fail> {
    word(alloc, str::from_utf8(octets)?)
}

/// A prefix, as it is printed.
pub fn prefix_text(alloc: Global, prefix: &Prefix) -> Result<String, Fail> {
    let mut text = Vec::new(alloc);
    put_prefix(alloc, &mut text, prefix)?;
    text_of(alloc, &text)
}

/// A path, as it is printed.
pub fn path_text(alloc: Global, path: &AsPath) -> Result<String, Fail> {
    let mut text = Vec::new(alloc);
    put_path(alloc, &mut text, path)?;
    text_of(alloc, &text)
}

// A kind of fault, and the path to it.
fn fault_at(alloc: Global, kind: &str, path: &[u8]) -> Result<String, Fail> {
    let path = text_of(alloc, path)?;
    Ok(format!(in alloc; "{kind} {path}")?)
}

/// The kind of a text's fault, and its path, its version or its count.
pub fn fault(alloc: Global, answer: &TextAnswer) -> Result<String, Fail> {
    match answer {
        TextAnswer::NotUtf8 => word(alloc, "utf8"),
        TextAnswer::NotToml => word(alloc, "toml"),
        TextAnswer::Key { path } => fault_at(alloc, "key", path.items()),
        TextAnswer::Shape { path } => fault_at(alloc, "shape", path.items()),
        TextAnswer::Value { path } => fault_at(alloc, "value", path.items()),
        TextAnswer::Version { value } => Ok(format!(in alloc; "version {value}")?),
        TextAnswer::TooLong { count } => Ok(format!(in alloc; "long {count}")?),
        TextAnswer::Name { path, .. } => fault_at(alloc, "name", path.items()),
        TextAnswer::Memory => word(alloc, "memory"),
    }
}
