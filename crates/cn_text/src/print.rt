//! Atoms at the end of a text. Want of memory leaves the text as before: most are put by one call,
//! and of a path what was put is taken back.

ghost use Rattle.std.specs.Prelude.{◌≡◌, ◌++◌, IfOk, OnOk, OnErr, length, string_bytes, take};
ghost use Rattle.std.specs.Fmt.{decimal};
ghost use Rattle.cn_text.specs.Printed.{address, further_numbers, path_text, prefix_text};

use cn_base::{AsPath, Asn, Prefix};
use std::alloc::{AllocError, Global};

/// Appends a number.
pub fn put_number(alloc: Global, out: &mut Vec<u8>, n: u64) -> Result<(), AllocError>
    ensures ok { OnOk result (out.new.items ≡ out.old.items ++ decimal n) }
    ensures err { OnErr result (out.new.items ≡ out.old.items) }
{
    let text = n.to_string(alloc)?;
    out.extend_from_slice(text.as_bytes())
}

fn address_text(alloc: Global, n: u32) -> Result<String, AllocError>
    ensures { IfOk result (λ text. string_bytes text ≡ address n) }
{
    let a = n / 16_777_216;
    let b = n / 65_536 % 256;
    let c = n / 256 % 256;
    let d = n % 256;
    format!(in alloc; "{a}.{b}.{c}.{d}")
}

/// Appends an address, given as one number.
pub fn put_address(alloc: Global, out: &mut Vec<u8>, n: u32) -> Result<(), AllocError>
    ensures ok { OnOk result (out.new.items ≡ out.old.items ++ address n) }
    ensures err { OnErr result (out.new.items ≡ out.old.items) }
{
    let text = address_text(alloc, n)?;
    out.extend_from_slice(text.as_bytes())
}

fn prefix_text(alloc: Global, prefix: &Prefix) -> Result<String, AllocError>
    ensures { IfOk result (λ text. string_bytes text ≡ prefix_text prefix.now) }
{
    let n = prefix.bits();
    let a = n / 16_777_216;
    let b = n / 65_536 % 256;
    let c = n / 256 % 256;
    let d = n % 256;
    let len = prefix.len();
    format!(in alloc; "{a}.{b}.{c}.{d}/{len}")
}

/// Appends a prefix.
pub fn put_prefix(alloc: Global, out: &mut Vec<u8>, prefix: &Prefix) -> Result<(), AllocError>
    ensures ok { OnOk result (out.new.items ≡ out.old.items ++ prefix_text prefix.now) }
    ensures err { OnErr result (out.new.items ≡ out.old.items) }
{
    let text = prefix_text(alloc, prefix)?;
    out.extend_from_slice(text.as_bytes())
}

/// Appends numbers, each after a space. After want of memory a part of them may stand there.
fn put_further(alloc: Global, out: &mut Vec<u8>, numbers: &[Asn]) -> Result<(), AllocError>
    ensures ok { OnOk result (out.new.items ≡ out.old.items ++ further_numbers numbers.now) }
    ensures err { OnErr result (take (length out.old.items) out.new.items ≡ out.old.items) }
{
    for number in numbers {
        out.extend_from_slice(b" ")?;
        put_number(alloc, out, u64::from(number.0))?;
    }
    Ok(())
}

/// Appends the numbers of a path. After want of memory a part of them may stand there.
fn put_numbers(alloc: Global, out: &mut Vec<u8>, numbers: &[Asn]) -> Result<(), AllocError>
    ensures ok { OnOk result (out.new.items ≡ out.old.items ++ path_text numbers.now) }
    ensures err { OnErr result (take (length out.old.items) out.new.items ≡ out.old.items) }
{
    match numbers {
        [] => out.extend_from_slice(b"-"),
        [first, others @ ..] => {
            put_number(alloc, out, u64::from(first.0))?;
            put_further(alloc, out, others)
        }
    }
}

/// Appends a path.
pub fn put_path(alloc: Global, out: &mut Vec<u8>, path: &AsPath) -> Result<(), AllocError>
    ensures ok { OnOk result (out.new.items ≡ out.old.items ++ path_text path.now) }
    ensures err { OnErr result (out.new.items ≡ out.old.items) }
{
    let before = out.len();
    let put = put_numbers(alloc, out, path.items());
    if put.is_err() {
        out.truncate(before);
    }
    put
}
