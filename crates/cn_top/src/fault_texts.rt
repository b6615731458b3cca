//! The line of a plan that stands for no emulation.

ghost use Rattle.std.specs.Prelude.{◌≡◌, ◌++◌, IfOk, OnOk};
ghost use Rattle.cn_net.specs.declared.fault.NetFault.TheVariants.{DuplicateId, DuplicateLink, DuplicateOwn, DuplicatePeer, SameAs};
ghost use Rattle.cn_open.specs.declared.fault.PlanFault.TheVariants.{Repeat};
ghost use Rattle.cn_top.specs.FaultTexts.{bad_net_line, net_fault_text, plan_fault_text, too_many_text, unknown_text, what_word, written_id, written_name, written_pair};

use cn_base::{DeviceId, Name, Prefix};
use cn_net::{Draft, NetFault, What};
use cn_open::PlanFault;
use cn_text::{put_address, put_number, put_prefix};
use std::alloc::{AllocError, Global};

/// The name of a device of the draft, and nothing where there is no such device.
fn put_written(text: &mut Vec<u8>, draft: &Draft, d: DeviceId) -> Result<(), AllocError>
    ensures { OnOk result (text.new.items ≡ text.old.items ++ written_name draft.now d) }
{
    match draft.devices.items().get(d.0 as usize) {
        Some(device) => text.extend_from_slice(device.name.text().as_bytes()),
        None => Ok(()),
    }
}

/// The router id of a device of the draft, and 0 where there is no such device.
fn written_id(draft: &Draft, d: DeviceId) -> u32
    ensures { result ≡ written_id draft.now d }
{
    match draft.devices.items().get(d.0 as usize) {
        Some(device) => device.id.0,
        None => 0,
    }
}

fn put_written_pair(
    text: &mut Vec<u8>,
    draft: &Draft,
    a: DeviceId,
    b: DeviceId,
) -> Result<(), AllocError>
    ensures { OnOk result (text.new.items ≡ text.old.items ++ written_pair draft.now a b) }
{
    put_written(text, draft, a)?;
    text.extend_from_slice(b" ")?;
    put_written(text, draft, b)
}

fn what_word(what: What) -> &'static [u8]
    ensures { result.now ≡ what_word what }
{
    match what {
        What::Devices => b"devices",
        What::Links => b"links",
        What::Prefixes => b"prefixes",
        What::Emulated => b"emulated",
        What::Rows => b"rows",
    }
}

/// There are too many of something.
fn put_too_many(
    alloc: Global,
    text: &mut Vec<u8>,
    word: &[u8],
    count: u64,
) -> Result<(), AllocError>
    ensures { OnOk result (text.new.items ≡ text.old.items ++ too_many_text word.now count) }
{
    text.extend_from_slice(b"too many ")?;
    text.extend_from_slice(word)?;
    text.extend_from_slice(b" ")?;
    put_number(alloc, text, count)
}

/// A text between two others.
fn put_between(text: &mut Vec<u8>, front: &[u8], name: &[u8], end: &[u8]) -> Result<(), AllocError>
    ensures { OnOk result (text.new.items ≡ text.old.items ++ front.now ++ name.now ++ end.now) }
{
    text.extend_from_slice(front)?;
    text.extend_from_slice(name)?;
    text.extend_from_slice(end)
}

/// Two devices have one router id.
fn put_same_id(
    alloc: Global,
    text: &mut Vec<u8>,
    draft: &Draft,
    a: DeviceId,
    b: DeviceId,
) -> Result<(), AllocError>
    ensures { OnOk result
        (text.new.items ≡ text.old.items ++ net_fault_text draft.now (DuplicateId a b)) }
{
    text.extend_from_slice(b"router id ")?;
    put_address(alloc, text, written_id(draft, b))?;
    text.extend_from_slice(b" twice: ")?;
    put_written_pair(text, draft, a, b)
}

/// A device originates a prefix twice.
fn put_same_own(
    alloc: Global,
    text: &mut Vec<u8>,
    draft: &Draft,
    device: DeviceId,
    prefix: &Prefix,
) -> Result<(), AllocError>
    ensures { OnOk result
        (text.new.items
        ≡ text.old.items ++ net_fault_text draft.now (DuplicateOwn device prefix.now)) }
{
    text.extend_from_slice(b"own ")?;
    put_prefix(alloc, text, prefix)?;
    text.extend_from_slice(b" twice in ")?;
    put_written(text, draft, device)
}

/// Two links have the same ends.
fn put_same_link(
    text: &mut Vec<u8>,
    draft: &Draft,
    a: DeviceId,
    b: DeviceId,
) -> Result<(), AllocError>
    ensures { OnOk result
        (text.new.items ≡ text.old.items ++ net_fault_text draft.now (DuplicateLink a b)) }
{
    text.extend_from_slice(b"link ")?;
    put_written_pair(text, draft, a, b)?;
    text.extend_from_slice(b" twice")
}

fn put_text(text: &mut Vec<u8>, name: &Name) -> Result<(), AllocError>
    ensures { OnOk result (text.new.items ≡ text.old.items ++ name.now) }
{
    text.extend_from_slice(name.text().as_bytes())
}

/// No device bears the name.
fn put_unknown(text: &mut Vec<u8>, name: &Name) -> Result<(), AllocError>
    ensures { OnOk result (text.new.items ≡ text.old.items ++ unknown_text name.now) }
{
    text.extend_from_slice(b"unknown name ")?;
    put_text(text, name)
}

/// A device lists a peer twice.
fn put_same_peer(
    text: &mut Vec<u8>,
    draft: &Draft,
    device: DeviceId,
    peer: DeviceId,
) -> Result<(), AllocError>
    ensures { OnOk result
        (text.new.items ≡ text.old.items ++ net_fault_text draft.now (DuplicatePeer device peer)) }
{
    text.extend_from_slice(b"peer ")?;
    put_written(text, draft, peer)?;
    text.extend_from_slice(b" twice in ")?;
    put_written(text, draft, device)
}

/// The ends of a link have one AS number.
fn put_same_as(
    text: &mut Vec<u8>,
    draft: &Draft,
    a: DeviceId,
    b: DeviceId,
) -> Result<(), AllocError>
    ensures { OnOk result
        (text.new.items ≡ text.old.items ++ net_fault_text draft.now (SameAs a b)) }
{
    text.extend_from_slice(b"same as number ")?;
    put_written_pair(text, draft, a, b)
}

/// What is wrong with the network of a draft.
fn put_net_fault(
    alloc: Global,
    text: &mut Vec<u8>,
    draft: &Draft,
    fault: &NetFault,
) -> Result<(), AllocError>
    ensures { OnOk result (text.new.items ≡ text.old.items ++ net_fault_text draft.now fault.now) }
{
    match fault {
        NetFault::TooMany { what, count } => put_too_many(alloc, text, what_word(*what), *count),
        NetFault::DuplicateName { name } => {
            put_between(text, b"name ", name.text().as_bytes(), b" twice")
        }
        NetFault::DuplicateId { a, b } => put_same_id(alloc, text, draft, *a, *b),
        NetFault::DuplicateOwn { device, prefix } => {
            put_same_own(alloc, text, draft, *device, prefix)
        }
        NetFault::UnknownName { name } => put_unknown(text, name),
        NetFault::DuplicatePeer { device, peer } => put_same_peer(text, draft, *device, *peer),
        NetFault::SelfLink { device } => {
            text.extend_from_slice(b"self link ")?;
            put_written(text, draft, *device)
        }
        NetFault::DuplicateLink { a, b } => put_same_link(text, draft, *a, *b),
        NetFault::SameAs { a, b } => put_same_as(text, draft, *a, *b),
    }
}

/// Two records have one device and prefix.
fn put_repeat(
    alloc: Global,
    text: &mut Vec<u8>,
    draft: &Draft,
    device: DeviceId,
    prefix: &Prefix,
) -> Result<(), AllocError>
    ensures { OnOk result
        (text.new.items ≡ text.old.items ++ plan_fault_text draft.now (Repeat device prefix.now)) }
{
    text.extend_from_slice(b"record ")?;
    put_written(text, draft, device)?;
    text.extend_from_slice(b" ")?;
    put_prefix(alloc, text, prefix)?;
    text.extend_from_slice(b" twice")
}

/// Why a plan stands for no emulation, without a line end.
fn put_plan_fault(
    alloc: Global,
    text: &mut Vec<u8>,
    draft: &Draft,
    fault: &PlanFault,
) -> Result<(), AllocError>
    ensures { OnOk result (text.new.items ≡ text.old.items ++ plan_fault_text draft.now fault.now) }
{
    match fault {
        PlanFault::Net(fault) => put_net_fault(alloc, text, draft, fault),
        PlanFault::Unknown(name) => put_unknown(text, name),
        PlanFault::Repeat { device, prefix } => put_repeat(alloc, text, draft, *device, prefix),
        PlanFault::TooMany { what, count } => {
            put_too_many(alloc, text, what_word(*what), *count)
        }
    }
}

/// The line of a plan that stands for no emulation.
pub fn bad_net_line(alloc: Global, draft: &Draft, fault: &PlanFault) -> Result<Vec<u8>, AllocError>
    ensures { IfOk result (λ text. text.items ≡ bad_net_line draft.now fault.now) }
{
    let mut text = Vec::from_slice(alloc, b"bad net: ")?;
    put_plan_fault(alloc, &mut text, draft, fault)?;
    text.push(b'\n')?;
    Ok(text)
}
