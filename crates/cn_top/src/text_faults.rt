//! The line of a file from which nothing is read.

ghost use Rattle.std.specs.Prelude.{◌≡◌, ◌++◌, IfOk, OnOk, codes};
ghost use Rattle.std.specs.Fmt.{decimal, signed_decimal};
ghost use Rattle.cn_text.specs.declared.answer.TextAnswer.TheVariants.{Name as UnknownName};
ghost use Rattle.cn_top.specs.TextFaults.{answer_text, bad_text_line, text_fault_text};

use cn_base::Name;
use cn_open::TextFault;
use cn_text::{PathText, TextAnswer, put_number};
use std::alloc::{AllocError, Global};

/// A word, and the place of what is at fault.
fn put_at(text: &mut Vec<u8>, word: &[u8], path: &PathText) -> Result<(), AllocError>
    ensures { OnOk result (text.new.items ≡ text.old.items ++ word.now ++ path.now) }
{
    text.extend_from_slice(word)?;
    text.extend_from_slice(path.items())
}

/// The text is of another version.
fn put_version(alloc: Global, text: &mut Vec<u8>, value: i64) -> Result<(), AllocError>
    ensures { OnOk result
        (text.new.items ≡ text.old.items ++ codes "version " ++ signed_decimal value) }
{
    let number = value.to_string(alloc)?;
    text.extend_from_slice(b"version ")?;
    text.extend_from_slice(number.as_bytes())
}

/// There are more of something than there may be.
fn put_count(alloc: Global, text: &mut Vec<u8>, words: &[u8], count: u64) -> Result<(), AllocError>
    ensures { OnOk result (text.new.items ≡ text.old.items ++ words.now ++ decimal count) }
{
    text.extend_from_slice(words)?;
    put_number(alloc, text, count)
}

/// No device has the name that stands at a place.
fn put_unknown(text: &mut Vec<u8>, name: &Name, path: &PathText) -> Result<(), AllocError>
    ensures { OnOk result
        (text.new.items ≡ text.old.items ++ answer_text (UnknownName name.now path.now)) }
{
    text.extend_from_slice(b"name ")?;
    text.extend_from_slice(name.text().as_bytes())?;
    text.extend_from_slice(b" at ")?;
    text.extend_from_slice(path.items())
}

/// The first fault of a text.
fn put_answer(alloc: Global, text: &mut Vec<u8>, answer: &TextAnswer) -> Result<(), AllocError>
    ensures { OnOk result (text.new.items ≡ text.old.items ++ answer_text answer.now) }
{
    match answer {
        TextAnswer::NotUtf8 => text.extend_from_slice(b"not utf-8"),
        TextAnswer::NotToml => text.extend_from_slice(b"not toml"),
        TextAnswer::Key { path } => put_at(text, b"key ", path),
        TextAnswer::Shape { path } => put_at(text, b"shape ", path),
        TextAnswer::Value { path } => put_at(text, b"value ", path),
        TextAnswer::Version { value } => put_version(alloc, text, *value),
        TextAnswer::TooLong { count } => put_count(alloc, text, b"too many commands ", *count),
        TextAnswer::Name { name, path } => put_unknown(text, name, path),
        TextAnswer::Memory => Ok(()),
    }
}

/// Why nothing is read from a text, without a line end.
fn put_text_fault(alloc: Global, text: &mut Vec<u8>, why: &TextFault) -> Result<(), AllocError>
    ensures { OnOk result (text.new.items ≡ text.old.items ++ text_fault_text why.now) }
{
    match why {
        TextFault::TooLong { limit } => put_count(alloc, text, b"too long ", *limit),
        TextFault::Bad(answer) => put_answer(alloc, text, answer),
    }
}

/// The line of the file of this name, from which nothing is read.
pub fn bad_text_line(alloc: Global, file: &str, why: &TextFault) -> Result<Vec<u8>, AllocError>
    ensures { IfOk result (λ text. text.items ≡ bad_text_line file.now why.now) }
{
    let mut text = Vec::from_slice(alloc, b"bad text ")?;
    text.extend_from_slice(file.as_bytes())?;
    text.extend_from_slice(b": ")?;
    put_text_fault(alloc, &mut text, why)?;
    text.push(b'\n')?;
    Ok(text)
}
