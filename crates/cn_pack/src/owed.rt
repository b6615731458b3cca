//! What a session owes.

ghost use Rattle.std.specs.Prelude.{◌≡◌, ◌↔◌, IsTrue};
ghost use Rattle.cn_pack.specs.Packing.{Ascends, wants, same_numbers};

use cn_base::{AsPath, Origin, Prefix};

/// A prefix that is owed: the path and the ORIGIN with which it is to be announced, or none where
/// it is to be withdrawn.
#[derive(Debug, Drop)]
pub struct Owed {
    pub prefix: Prefix,
    pub wanted: Option<(AsPath, Origin)>,
}

impl Owed {
    /// Holds where the prefixes ascend strictly, by the bits and then by the length: a condition of
    /// `next_message`.
    pub fn ascend(owed: &[Owed]) -> bool
        ensures { IsTrue result ↔ Ascends owed.now }
    {
        owed.is_sorted_by(|one, next| one.prefix < next.prefix)
    }

    // Holds where the prefix is to be announced with this path and this ORIGIN.
    pub(crate) fn wants(&self, path: &AsPath, origin: Origin) -> bool
        ensures { result ≡ wants path.now origin self.now }
    {
        match &self.wanted {
            None => false,
            Some((other, by)) => same_numbers(path, other) && origin == *by,
        }
    }
}

fn same_numbers(path: &AsPath, other: &AsPath) -> bool
    ensures { result ≡ same_numbers path.now other.now }
{
    path.items() == other.items()
}
