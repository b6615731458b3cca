//! Whether an answer, in words, is that of a case; and the prefixes that cases name.

use cn_base::Prefix;
use std::process::Abort;
use std::test::Fail;

/// Stops, naming the case, where another text is found than its own.
pub fn same(rt: &impl Abort, case: &str, found: &str, text: &str) {
    assert_eq!(rt; found, text, "{case}");
}

/// The prefix of these bits and this length.
pub fn prefix((bits, len): (u32, u8)) -> Result<Prefix, Fail> {
    Ok(Prefix::new(bits, len).ok_or("no prefix")?)
}
