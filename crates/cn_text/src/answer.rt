//! The first fault of a text.

ghost use Rattle.std.specs.Prelude.{◌≡◌};
ghost use Rattle.cn_text.specs.declared.answer.TextAnswer.TheVariants.{Memory};

use cn_base::{Items, Name};
use std::alloc::{AllocError, AllocFailed};

/// The octets of a path, as `device[0].asn`.
pub type PathText = Items<u8>;

/// The first fault of a text. A path leads to the key or the item that is at fault.
#[derive(Debug, Drop)]
pub enum TextAnswer {
    /// The bytes aren't UTF-8.
    NotUtf8,
    /// The text isn't TOML.
    NotToml,
    /// A key that must be there isn't, or one is there that may not be.
    Key { path: PathText },
    /// A value is of another kind than its key wants.
    Shape { path: PathText },
    /// A value is outside its rule.
    Value { path: PathText },
    /// The text is of another version.
    Version { value: i64 },
    /// There are this many items, more than there may be.
    TooLong { count: u64 },
    /// No device has this name.
    Name { name: Name, path: PathText },
    /// Memory ran out.
    Memory,
}

impl From<AllocError> for TextAnswer {
    ghost from_gives = { λ _ e. e ≡ Memory };

    fn from(_: AllocError) -> TextAnswer {
        TextAnswer::Memory
    }
}

impl<T: Drop> From<AllocFailed<T>> for TextAnswer {
    ghost from_gives = { λ _ e. e ≡ Memory };

    fn from(_: AllocFailed<T>) -> TextAnswer {
        TextAnswer::Memory
    }
}
