//! Names at the end of a text.

ghost use Rattle.std.specs.Prelude.{◌≡◌, ◌++◌, OnErr, OnOk, length, take};
ghost use Rattle.cn_text.specs.Printed.{pair_text};

use std::alloc::AllocError;

/// Appends two names. After want of memory a part of them may stand there.
fn put_names(text: &mut Vec<u8>, first: &str, second: &str) -> Result<(), AllocError>
    ensures ok { OnOk result (text.new.items ≡ text.old.items ++ pair_text first.now second.now) }
    ensures err { OnErr result (take (length text.old.items) text.new.items ≡ text.old.items) }
{
    text.extend_from_slice(first.as_bytes())?;
    text.extend_from_slice(b" ")?;
    text.extend_from_slice(second.as_bytes())
}

/// Appends two names with a space between them, as those of the devices of a session. After want of
/// memory the text is as before.
pub fn put_pair(text: &mut Vec<u8>, first: &str, second: &str) -> Result<(), AllocError>
    ensures ok { OnOk result (text.new.items ≡ text.old.items ++ pair_text first.now second.now) }
    ensures err { OnErr result (text.new.items ≡ text.old.items) }
{
    let before = text.len();
    let put = put_names(text, first, second);
    if put.is_err() {
        text.truncate(before);
    }
    put
}
