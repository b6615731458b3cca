//! The words for an ORIGIN.

ghost use Rattle.std.specs.Prelude.{◌≡◌, List, ℕ, Some};
ghost use Rattle.cn_base.specs.declared.ids.Origin.{Origin};
ghost use Rattle.cn_text.specs.Printed.{origin_text};
ghost use Rattle.cn_text.specs.Atoms.{origin_of};

use cn_base::Origin;

/// The word for an ORIGIN.
pub fn origin_text(origin: Origin) -> &'static [u8]
    ensures { result.now ≡ origin_text origin }
{
    match origin {
        Origin::Igp => b"igp",
        Origin::Egp => b"egp",
        Origin::Incomplete => b"incomplete",
    }
}

/// The ORIGIN that a text is as a whole. None comes exactly where it isn't one.
pub fn origin_of(text: &[u8]) -> Option<Origin>
    ensures { result ≡ origin_of text.now }
{
    if text == b"igp".as_slice() {
        Some(Origin::Igp)
    } else if text == b"egp".as_slice() {
        Some(Origin::Egp)
    } else if text == b"incomplete".as_slice() {
        Some(Origin::Incomplete)
    } else {
        None
    }
}

/// Each ORIGIN has one spelling: a text is one exactly where it is its word.
pub fn origin_has_one_spelling()
    ensures whole_is_printed { (text : List ℕ) (origin : Origin) → origin_of text ≡ Some origin
        → text ≡ origin_text origin }
    ensures printed_is_whole { (origin : Origin) → origin_of (origin_text origin) ≡ Some origin }
{}
