//! The names of devices.

ghost use Rattle.std.specs.Prelude.{◌≡◌, IfOk};
ghost use Rattle.std.specs.List.{list_all};
ghost use Rattle.cn_base.specs.Name.{is_name, is_name_byte, name_of};

use std::alloc::{AllocError, Global};
use std::marker::Model;

/// The name of a device: 1 to 32 letters, digits, `-`, `_` and `.`. Contracts see its octets.
#[derive(Debug, Drop)]
pub struct Name {
    text: String,
}

impl Model for Name {
    ghost use Rattle.std.specs.Prelude.{◌≡◌, List, ℕ, true};
    ghost use Rattle.std.specs.String.{string_bytes};
    ghost use Rattle.cn_base.specs.Name.{is_name};

    ghost Value = { List ℕ };

    ghost view = { λ n. string_bytes n.text };

    ghost invariant = { λ n. is_name (string_bytes n.text) ≡ true };
}

fn is_name_byte(byte: u8) -> bool
    ensures { result ≡ is_name_byte byte }
{
    byte.is_ascii_lowercase()
        || byte.is_ascii_uppercase()
        || byte.is_ascii_digit()
        || byte == b'-'
        || byte == b'_'
        || byte == b'.'
}

fn has_name_bytes(text: &[u8]) -> bool
    ensures { result ≡ list_all is_name_byte text.now }
{
    text.iter().all(|byte| is_name_byte(*byte))
}

#[tactic(auto, unfolding(crate::specs::Name::is_name))]
fn is_name(text: &[u8]) -> bool
    ensures { result ≡ is_name text.now }
{
    1 <= text.len() && text.len() <= 32 && has_name_bytes(text)
}

impl Name {
    /// The name that the text is. `Ok(None)` comes exactly where the text isn't a name.
    pub fn new(alloc: Global, text: &str) -> Result<Option<Name>, AllocError>
        ensures { IfOk result (λ name. name ≡ name_of text.now) }
    {
        if !is_name(text.as_bytes()) {
            return Ok(None);
        }
        Ok(Some(Name {
            text: String::from_str(alloc, text)?,
        }))
    }

    /// The text of the name.
    pub fn text(&self) -> &str
        ensures { result.now ≡ self.now }
    {
        self.text.as_str()
    }

    /// An equal name.
    pub fn copy(&self, alloc: Global) -> Result<Name, AllocError>
        ensures { IfOk result (λ name. name ≡ self.now) }
    {
        Ok(Name {
            text: String::from_str(alloc, self.text.as_str())?,
        })
    }
}
