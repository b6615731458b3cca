//! Writes UPDATE messages (RFC 4271, 4.1 and 4.3).

ghost use Rattle.std.specs.Prelude.{◌≡◌, ◌≤◌, ◌<◌, ◌+◌, ◌^◌, ◌++◌, true, length, IfOk, OnOk, Some, ◌∷◌, []};
ghost use Rattle.std.specs.List.{flat_map};
ghost use Rattle.cn_base.specs.Rank.{origin_code};
ghost use Rattle.cn_wire.specs.Numbers.{two_octets, four_octets};
ghost use Rattle.cn_wire.specs.Spelling.{FitFourOctets, as_path_value, message, Spells};
ghost use Rattle.cn_wire.specs.Writing.{IsPrefix, ArePrefixes, IsAttrs, spelled_prefix, spelled_prefixes, spelled_attribute, spelled_attrs, spelling, fits};

use crate::attributes::{AS_PATH, AS_SEQUENCE, NEXT_HOP, ORIGIN};
use crate::update::{Attrs, Update};
use byteorder::{BigEndian, ByteOrder};
use cn_base::{AsPath, Asn, Origin, Prefix};
use std::alloc::{AllocError, Global};

fn put_two(out: &mut Vec<u8>, n: u16) -> Result<(), AllocError>
    ensures { OnOk result (out.new.items ≡ out.old.items ++ two_octets n) }
{
    let mut octets = [0u8; 2];
    BigEndian::write_u16(&mut octets, n);
    out.extend_from_slice(&octets)
}

fn put_four(out: &mut Vec<u8>, n: u32) -> Result<(), AllocError>
    ensures { OnOk result (out.new.items ≡ out.old.items ++ four_octets n) }
{
    let mut octets = [0u8; 4];
    BigEndian::write_u32(&mut octets, n);
    out.extend_from_slice(&octets)
}

fn put_prefix(out: &mut Vec<u8>, prefix: &Prefix) -> Result<(), AllocError>
    ensures { OnOk result
        ((out.new.items ≡ out.old.items ++ spelled_prefix prefix.now) × IsPrefix prefix.now) }
{
    let mut octets = [0u8; 4];
    BigEndian::write_u32(&mut octets, prefix.bits());
    out.push(prefix.len())?;
    out.extend_from_slice(&octets[..(usize::from(prefix.len()) + 7) / 8])
}

fn put_prefixes(out: &mut Vec<u8>, prefixes: &[Prefix]) -> Result<(), AllocError>
    ensures { OnOk result
        ((out.new.items ≡ out.old.items ++ spelled_prefixes prefixes.now)
        × ArePrefixes prefixes.now) }
{
    for prefix in prefixes {
        put_prefix(out, prefix)?;
    }
    Ok(())
}

fn put_number(out: &mut Vec<u8>, number: Asn) -> Result<(), AllocError>
    ensures ok { OnOk result (out.new.items ≡ out.old.items ++ four_octets number.0) }
    ensures short { number.0 < 2 ^ 32 }
{
    put_four(out, number.0)
}

fn put_numbers(out: &mut Vec<u8>, numbers: &[Asn]) -> Result<(), AllocError>
    ensures { OnOk result
        ((out.new.items ≡ out.old.items ++ flat_map (λ m. four_octets m.0) numbers.now)
        × FitFourOctets numbers.now) }
{
    for number in numbers {
        put_number(out, *number)?;
    }
    Ok(())
}

// The octets of a path: none, or the segment's type, the count and the numbers.
fn path_octets(alloc: Global, path: &AsPath) -> Result<Vec<u8>, AllocError>
    ensures { IfOk result (λ v.
        (v.items ≡ as_path_value path.now) × (FitFourOctets path.now × (length path.now ≤ 255))) }
{
    let mut value = Vec::new(alloc);
    let numbers = path.items();
    if numbers.is_empty() {
        return Ok(value);
    }
    value.push(AS_SEQUENCE)?;
    value.push(numbers.len() as u8)?;
    put_numbers(&mut value, numbers)?;
    Ok(value)
}

// An attribute, with a length of two octets only where one octet does not hold it.
fn put_attribute(out: &mut Vec<u8>, kind: u8, value: &[u8]) -> Result<(), AllocError>
    requires { length value.now < 65536 }
    ensures { OnOk result
        (out.new.items
        ≡ out.old.items ++ spelled_attribute (record { kind = kind; value = value.now })) }
{
    if value.len() <= 255 {
        out.extend_from_slice(&[0x40, kind, value.len() as u8])?;
        out.extend_from_slice(value)?;
        return Ok(());
    }
    out.extend_from_slice(&[0x50, kind])?;
    put_two(out, value.len() as u16)?;
    out.extend_from_slice(value)?;
    Ok(())
}

fn origin_octet(origin: Origin) -> u8
    ensures { result ≡ origin_code origin }
{
    match origin {
        Origin::Igp => 0,
        Origin::Egp => 1,
        Origin::Incomplete => 2,
    }
}

fn put_next_hop(out: &mut Vec<u8>, next_hop: u32) -> Result<(), AllocError>
    ensures ok { OnOk result
        (out.new.items
        ≡ out.old.items ++ spelled_attribute (record { kind = 3; value = four_octets next_hop })) }
    ensures short { next_hop < 2 ^ 32 }
{
    let mut octets = [0u8; 4];
    BigEndian::write_u32(&mut octets, next_hop);
    put_attribute(out, NEXT_HOP, &octets)
}

fn put_attributes(alloc: Global, out: &mut Vec<u8>, attrs: &Attrs) -> Result<(), AllocError>
    ensures { OnOk result
        ((out.new.items ≡ out.old.items ++ spelled_attrs (Some attrs.now))
        × IsAttrs (Some attrs.now)) }
{
    let path = path_octets(alloc, &attrs.path)?;
    put_attribute(out, ORIGIN, &[origin_octet(attrs.origin)])?;
    put_attribute(out, AS_PATH, &path)?;
    put_next_hop(out, attrs.next_hop)?;
    Ok(())
}

fn put_attrs(alloc: Global, out: &mut Vec<u8>, attrs: &Option<Attrs>) -> Result<(), AllocError>
    ensures { OnOk result
        ((out.new.items ≡ out.old.items ++ spelled_attrs attrs.now) × IsAttrs attrs.now) }
{
    match attrs {
        None => Ok(()),
        Some(attrs) => put_attributes(alloc, out, attrs),
    }
}

fn put_message(
    out: &mut Vec<u8>,
    withdrawals: &[u8],
    attributes: &[u8],
    nlri: &[u8],
) -> Result<(), AllocError>
    requires { 23 + length withdrawals.now + length attributes.now + length nlri.now ≤ 4096 }
    ensures { OnOk result
        (out.new.items ≡ out.old.items ++ message withdrawals.now attributes.now nlri.now) }
{
    out.extend_from_slice(&[255; 16])?;
    put_two(
        out,
        (23 + withdrawals.len() + attributes.len() + nlri.len()) as u16,
    )?;
    out.push(2)?;
    put_two(out, withdrawals.len() as u16)?;
    out.extend_from_slice(withdrawals)?;
    put_two(out, attributes.len() as u16)?;
    out.extend_from_slice(attributes)?;
    out.extend_from_slice(nlri)?;
    Ok(())
}

/// The one message that is written for an update. Prefixes stand in the order of the update's
/// lists, with zeros after their bits, and attributes in the order ORIGIN, AS_PATH, NEXT_HOP.
pub fn encode(alloc: Global, update: &Update) -> Result<Vec<u8>, AllocError>
    requires { fits update.now ≡ true }
    ensures { IfOk result (λ v. (v.items ≡ spelling update.now) × Spells v.items update.now) }
{
    let mut withdrawals = Vec::new(alloc);
    put_prefixes(&mut withdrawals, update.withdrawn.items())?;
    let mut attributes = Vec::new(alloc);
    put_attrs(alloc, &mut attributes, &update.attrs)?;
    let mut nlri = Vec::new(alloc);
    put_prefixes(&mut nlri, update.announced.items())?;
    let mut out = Vec::new(alloc);
    put_message(&mut out, &withdrawals, &attributes, &nlri)?;
    Ok(out)
}
