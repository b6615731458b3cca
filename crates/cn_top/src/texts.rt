//! The texts that are put.

ghost use Rattle.std.specs.Prelude.{◌≡◌, ◌++◌, IfOk, OnOk, codes, option_copied};
ghost use Rattle.std.specs.List.{flat_map};
ghost use Rattle.cn_cert.specs.declared.refusal.Refusal.TheVariants.{Facing, Origins};
ghost use Rattle.cn_net.specs.Network.{name_of};
ghost use Rattle.cn_plan.specs.Boundary.{of_certificate, of_record};
ghost use Rattle.cn_top.specs.Texts.{usage_line, unbuilt_line, unread_line, counts_line, emulate_line, held_text, island_line, plan_text, refusal_text, refused_line, side_word, numbered, shared};

use crate::islands::{island_labels, members_of};
use cn_base::{Asn, Choice, DeviceId, Prefix};
use cn_cert::{Refusal, Side};
use cn_net::{Certified, Net};
use cn_report::{put_choice, put_name, put_pair};
use cn_text::{put_number, put_prefix};
use std::alloc::{AllocError, Global};

/// The line of words that are no listed form.
pub fn usage_line() -> &'static [u8]
    ensures { result.now ≡ usage_line }
{
    b"usage: crystal plan FILE, serial FILE SCRIPT TRACE, replay FILE SCRIPT TRACE, save FILE, \
    make PODS LEAVES RACKS SPINES SHIFT, sample PODS LEAVES RACKS SPINES SHIFT, \
    live FILE SCRIPT TRACE WORKERS WATCHERS\n"
}

/// The line of what isn't built yet.
pub fn unbuilt_line(alloc: Global, what: &str) -> Result<Vec<u8>, AllocError>
    ensures { IfOk result (λ text. text.items ≡ unbuilt_line what.now) }
{
    let mut text = Vec::from_slice(alloc, b"not built yet: ")?;
    text.extend_from_slice(what.as_bytes())?;
    text.push(b'\n')?;
    Ok(text)
}

/// The line of a file that couldn't be read.
pub fn unread_line(alloc: Global, name: &str) -> Result<Vec<u8>, AllocError>
    ensures { IfOk result (λ text. text.items ≡ unread_line name.now) }
{
    let mut text = Vec::from_slice(alloc, b"cannot read ")?;
    text.extend_from_slice(name.as_bytes())?;
    text.push(b'\n')?;
    Ok(text)
}

/// A device and its AS number.
fn put_numbered(
    alloc: Global,
    text: &mut Vec<u8>,
    net: &Net,
    d: DeviceId,
    asn: Asn,
) -> Result<(), AllocError>
    ensures { OnOk result (text.new.items ≡ text.old.items ++ numbered net.now d asn) }
{
    put_name(text, net, d)?;
    text.extend_from_slice(b" ")?;
    put_number(alloc, text, u64::from(asn.0))
}

fn side_word(side: Side) -> &'static [u8]
    ensures { result.now ≡ side_word side }
{
    match side {
        Side::Emulated => b"emulated",
        Side::Outside => b"outside",
    }
}

/// What a side of an island's boundary is refused for.
fn put_facing(
    alloc: Global,
    text: &mut Vec<u8>,
    net: &Net,
    side: Side,
    island: DeviceId,
    a: (DeviceId, Asn),
    b: (DeviceId, Asn),
) -> Result<(), AllocError>
    ensures { OnOk result
        (text.new.items
        ≡ text.old.items ++ refusal_text net.now (Facing side island a.0 a.1 b.0 b.1)) }
{
    text.extend_from_slice(b"facing ")?;
    text.extend_from_slice(side_word(side))?;
    text.extend_from_slice(b" island ")?;
    put_name(text, net, island)?;
    text.extend_from_slice(b": ")?;
    put_numbered(alloc, text, net, a.0, a.1)?;
    text.extend_from_slice(b" ")?;
    put_numbered(alloc, text, net, b.0, b.1)
}

/// A prefix of an island.
fn put_shared(
    alloc: Global,
    text: &mut Vec<u8>,
    net: &Net,
    island: DeviceId,
    prefix: &Prefix,
) -> Result<(), AllocError>
    ensures { OnOk result (text.new.items ≡ text.old.items ++ shared net.now island prefix.now) }
{
    text.extend_from_slice(b"island ")?;
    put_name(text, net, island)?;
    text.extend_from_slice(b" prefix ")?;
    put_prefix(alloc, text, prefix)
}

/// What an island's prefix is refused for.
fn put_origins(
    alloc: Global,
    text: &mut Vec<u8>,
    net: &Net,
    shared: (DeviceId, Prefix),
    inside: DeviceId,
    elsewhere: DeviceId,
) -> Result<(), AllocError>
    ensures { OnOk result
        (text.new.items
        ≡ text.old.items ++ refusal_text net.now (Origins shared.0 shared.1 inside elsewhere)) }
{
    text.extend_from_slice(b"origins ")?;
    put_shared(alloc, text, net, shared.0, &shared.1)?;
    text.extend_from_slice(b": ")?;
    put_pair(text, net, inside, elsewhere)
}

/// What is wrong with a boundary, without a line end.
fn put_refusal(
    alloc: Global,
    text: &mut Vec<u8>,
    net: &Net,
    refusal: &Refusal,
) -> Result<(), AllocError>
    ensures { OnOk result (text.new.items ≡ text.old.items ++ refusal_text net.now refusal.now) }
{
    match refusal {
        Refusal::Facing {
            side,
            island,
            a,
            a_asn,
            b,
            b_asn,
        } => put_facing(alloc, text, net, *side, *island, (*a, *a_asn), (*b, *b_asn)),
        Refusal::Origins {
            island,
            prefix,
            inside,
            elsewhere,
        } => put_origins(alloc, text, net, (*island, *prefix), *inside, *elsewhere),
    }
}

/// The line of a boundary that isn't certified.
pub fn refused_line(alloc: Global, net: &Net, refusal: &Refusal) -> Result<Vec<u8>, AllocError>
    ensures { IfOk result (λ text. text.items ≡ refused_line net.now (of_certificate refusal.now)) }
{
    let mut text = Vec::from_slice(alloc, b"refused ")?;
    put_refusal(alloc, &mut text, net, refusal)?;
    text.push(b'\n')?;
    Ok(text)
}

/// What a device holds or its record says, `none` where that is nothing.
fn put_held(
    alloc: Global,
    text: &mut Vec<u8>,
    net: &Net,
    held: Option<&Choice>,
) -> Result<(), AllocError>
    ensures { OnOk result
        (text.new.items ≡ text.old.items ++ held_text net.now (option_copied held.entry)) }
{
    match held {
        None => text.extend_from_slice(b"none"),
        Some(choice) => put_choice(alloc, text, net, choice),
    }
}

/// The line of a record that isn't sound.
pub fn unsound_line(
    alloc: Global,
    net: &Net,
    device: DeviceId,
    prefix: &Prefix,
    held: Option<&Choice>,
    wanted: Option<&Choice>,
) -> Result<Vec<u8>, AllocError>
    ensures { IfOk result (λ text. text.items
        ≡ refused_line net.now
        (of_record device prefix.now (option_copied held.entry) (option_copied wanted.entry))) }
{
    let mut text = Vec::from_slice(alloc, b"refused record ")?;
    put_name(&mut text, net, device)?;
    text.extend_from_slice(b" ")?;
    put_prefix(alloc, &mut text, prefix)?;
    text.extend_from_slice(b": held ")?;
    put_held(alloc, &mut text, net, held)?;
    text.extend_from_slice(b" wanted ")?;
    put_held(alloc, &mut text, net, wanted)?;
    text.push(b'\n')?;
    Ok(text)
}

fn put_device(text: &mut Vec<u8>, net: &Net, device: DeviceId) -> Result<(), AllocError>
    ensures { OnOk result (text.new.items ≡ text.old.items ++ emulate_line net.now device) }
{
    text.extend_from_slice(b"emulate ")?;
    put_name(text, net, device)?;
    text.extend_from_slice(b"\n")
}

/// Appends names, each after a space.
fn put_names(text: &mut Vec<u8>, net: &Net, devices: &[DeviceId]) -> Result<(), AllocError>
    ensures { OnOk result
        (text.new.items
        ≡ text.old.items ++ flat_map (λ d. codes " " ++ name_of net.now d) devices.now) }
{
    for device in devices {
        text.extend_from_slice(b" ")?;
        put_name(text, net, *device)?;
    }
    Ok(())
}

/// An island, by its label, with its devices.
fn put_island(
    alloc: Global,
    text: &mut Vec<u8>,
    certified: &Certified,
    island: DeviceId,
) -> Result<(), AllocError>
    ensures { OnOk result (text.new.items ≡ text.old.items ++ island_line certified.now island) }
{
    text.extend_from_slice(b"island ")?;
    put_name(text, certified.net(), island)?;
    text.extend_from_slice(b":")?;
    let members = members_of(alloc, certified, island)?;
    put_names(text, certified.net(), &members)?;
    text.extend_from_slice(b"\n")
}

/// How many devices are emulated, and how many islands there are.
fn put_counts(
    alloc: Global,
    text: &mut Vec<u8>,
    emulated: usize,
    islands: usize,
) -> Result<(), AllocError>
    ensures { OnOk result (text.new.items ≡ text.old.items ++ counts_line emulated islands) }
{
    text.extend_from_slice(b"certified emulated ")?;
    put_number(alloc, text, emulated as u64)?;
    text.extend_from_slice(b" islands ")?;
    put_number(alloc, text, islands as u64)?;
    text.extend_from_slice(b"\n")
}

/// The lines of the emulated devices.
fn put_devices(text: &mut Vec<u8>, net: &Net, devices: &[DeviceId]) -> Result<(), AllocError>
    ensures { OnOk result
        (text.new.items ≡ text.old.items ++ flat_map (emulate_line net.now) devices.now) }
{
    for device in devices {
        put_device(text, net, *device)?;
    }
    Ok(())
}

/// The lines of the islands.
fn put_islands(
    alloc: Global,
    text: &mut Vec<u8>,
    certified: &Certified,
    islands: &[DeviceId],
) -> Result<(), AllocError>
    ensures { OnOk result
        (text.new.items ≡ text.old.items ++ flat_map (island_line certified.now) islands.now) }
{
    for island in islands {
        put_island(alloc, text, certified, *island)?;
    }
    Ok(())
}

/// The text of a plan whose boundary is safe.
pub fn plan_text(alloc: Global, certified: &Certified) -> Result<Vec<u8>, AllocError>
    ensures { IfOk result (λ text. text.items ≡ plan_text certified.now) }
{
    let emulated = certified.emulated().items();
    let islands = island_labels(alloc, certified)?;
    let mut text = Vec::new(alloc);
    put_counts(alloc, &mut text, emulated.len(), islands.len())?;
    put_devices(&mut text, certified.net(), emulated)?;
    put_islands(alloc, &mut text, certified, &islands)?;
    Ok(text)
}
