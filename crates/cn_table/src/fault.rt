//! Paths, and the faults that name them. A fault is made where it is answered: no path is made for
//! a value without fault, but for the items of arrays.

ghost use Rattle.std.specs.Prelude.{◌≡◌, ◌++◌, IfOk};
ghost use Rattle.cn_table.specs.Reading.{IsFault};
ghost use Rattle.cn_table.specs.Tables.{item_path, front_of};

use cn_base::Items;
use cn_text::{PathText, TextAnswer};
use std::alloc::{AllocError, Global};

/// The path of an item of the array at this path.
pub fn item_path(alloc: Global, path: &[u8], place: usize) -> Result<Vec<u8>, AllocError>
    ensures { IfOk result (λ text. text.items ≡ item_path path.now place) }
{
    let number = place.to_string(alloc)?;
    let mut text = Vec::from_slice(alloc, path)?;
    text.extend_from_slice(b"[")?;
    text.extend_from_slice(number.as_bytes())?;
    text.extend_from_slice(b"]")?;
    Ok(text)
}

/// What stands before a key of the table at this path.
pub fn front_of(alloc: Global, path: &[u8]) -> Result<Vec<u8>, AllocError>
    ensures { IfOk result (λ text. text.items ≡ front_of path.now) }
{
    let mut text = Vec::from_slice(alloc, path)?;
    text.extend_from_slice(b".")?;
    Ok(text)
}

/// The path of a key.
pub fn key_path(alloc: Global, front: &[u8], key: &[u8]) -> Result<Vec<u8>, AllocError>
    ensures { IfOk result (λ path. path.items ≡ front.now ++ key.now) }
{
    let mut path = Vec::from_slice(alloc, front)?;
    path.extend_from_slice(key)?;
    Ok(path)
}

fn path_text(alloc: Global, path: &[u8]) -> Result<PathText, AllocError>
    ensures { IfOk result (λ text. text ≡ path.now) }
{
    Ok(Items::make(Vec::from_slice(alloc, path)?))
}

fn key_text(alloc: Global, front: &[u8], key: &[u8]) -> Result<PathText, AllocError>
    ensures { IfOk result (λ text. text ≡ front.now ++ key.now) }
{
    Ok(Items::make(key_path(alloc, front, key)?))
}

/// The value at this path is of another kind.
#[cold]
pub fn bad_shape(alloc: Global, path: &[u8]) -> TextAnswer
    ensures { IsFault result (TextAnswer.Shape path.now) }
{
    match path_text(alloc, path) {
        Ok(path) => TextAnswer::Shape { path },
        Err(_) => TextAnswer::Memory,
    }
}

/// The value at this path is outside its rule.
#[cold]
pub fn bad_value(alloc: Global, path: &[u8]) -> TextAnswer
    ensures { IsFault result (TextAnswer.Value path.now) }
{
    match path_text(alloc, path) {
        Ok(path) => TextAnswer::Value { path },
        Err(_) => TextAnswer::Memory,
    }
}

/// The key isn't there, or isn't one that the table may have.
#[cold]
pub fn bad_key_at(alloc: Global, front: &[u8], key: &[u8]) -> TextAnswer
    ensures { IsFault result (TextAnswer.Key (front.now ++ key.now)) }
{
    match key_text(alloc, front, key) {
        Ok(path) => TextAnswer::Key { path },
        Err(_) => TextAnswer::Memory,
    }
}

/// The value of the key is of another kind.
#[cold]
pub fn bad_shape_at(alloc: Global, front: &[u8], key: &[u8]) -> TextAnswer
    ensures { IsFault result (TextAnswer.Shape (front.now ++ key.now)) }
{
    match key_text(alloc, front, key) {
        Ok(path) => TextAnswer::Shape { path },
        Err(_) => TextAnswer::Memory,
    }
}

/// The value of the key is outside its rule.
#[cold]
pub fn bad_value_at(alloc: Global, front: &[u8], key: &[u8]) -> TextAnswer
    ensures { IsFault result (TextAnswer.Value (front.now ++ key.now)) }
{
    match key_text(alloc, front, key) {
        Ok(path) => TextAnswer::Value { path },
        Err(_) => TextAnswer::Memory,
    }
}
