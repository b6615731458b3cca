//! A text as a whole.

ghost use Rattle.std.specs.Prelude.{◌≡◌};
ghost use Rattle.toml.specs.View.{table_view};
ghost use Rattle.cn_table.specs.Reading.{Gives};
ghost use Rattle.cn_table.specs.Document.{document_of};

use cn_text::TextAnswer;
use std::alloc::Global;
use toml::{Table, table_from_str};

/// The top table of the text that the bytes are. Bytes that aren't UTF-8 are `NotUtf8`, and a text
/// that isn't TOML is `NotToml`.
#[tactic(auto, unfolding(crate::specs::Document::document_of))]
pub fn document_of(alloc: Global, bytes: &[u8]) -> Result<Table, TextAnswer>
    ensures { Gives (λ t. table_view t) result (document_of bytes.now) }
{
    match std::str::from_utf8(bytes) {
        Err(_) => Err(TextAnswer::NotUtf8),
        Ok(text) => match table_from_str(alloc, text) {
            Ok(table) => Ok(table),
            Err(error) => {
                if error.is_memory() {
                    Err(TextAnswer::Memory)
                } else {
                    Err(TextAnswer::NotToml)
                }
            }
        },
    }
}
