//! What a device holds for a prefix, at the end of a text.

ghost use Rattle.std.specs.Prelude.{◌≡◌, ◌++◌, OnErr, OnOk, length, take};
ghost use Rattle.cn_report.specs.Choice.{choice_text, source_text};

use crate::names::put_name;
use cn_base::{Choice, DeviceId};
use cn_net::Net;
use cn_text::{origin_text, put_path};
use std::alloc::{AllocError, Global};

/// Where a choice came from. After want of memory a part of it may stand there.
fn put_source(text: &mut Vec<u8>, net: &Net, from: Option<DeviceId>) -> Result<(), AllocError>
    ensures ok { OnOk result (text.new.items ≡ text.old.items ++ source_text net.now from) }
    ensures err { OnErr result (take (length text.old.items) text.new.items ≡ text.old.items) }
{
    match from {
        None => text.extend_from_slice(b"own"),
        Some(sender) => {
            text.extend_from_slice(b"from ")?;
            put_name(text, net, sender)
        }
    }
}

/// A choice. After want of memory a part of it may stand there.
fn put_parts(
    alloc: Global,
    text: &mut Vec<u8>,
    net: &Net,
    choice: &Choice,
) -> Result<(), AllocError>
    ensures ok { OnOk result (text.new.items ≡ text.old.items ++ choice_text net.now choice.now) }
    ensures err { OnErr result (take (length text.old.items) text.new.items ≡ text.old.items) }
{
    put_source(text, net, choice.from)?;
    text.extend_from_slice(b" path ")?;
    put_path(alloc, text, &choice.path)?;
    text.extend_from_slice(b" origin ")?;
    text.extend_from_slice(origin_text(choice.origin))
}

/// Appends what a device holds for a prefix.
pub fn put_choice(
    alloc: Global,
    text: &mut Vec<u8>,
    net: &Net,
    choice: &Choice,
) -> Result<(), AllocError>
    ensures ok { OnOk result (text.new.items ≡ text.old.items ++ choice_text net.now choice.now) }
    ensures err { OnErr result (text.new.items ≡ text.old.items) }
{
    let before = text.len();
    let put = put_parts(alloc, text, net, choice);
    if put.is_err() {
        text.truncate(before);
    }
    put
}
