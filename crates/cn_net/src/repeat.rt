//! What may not stand twice in a draft: the names and router ids of its devices, and the prefixes
//! of one device. The distinct prefixes of all devices are counted here too.

ghost use Rattle.std.specs.Prelude.{◌≡◌, ◌≤◌, ◌||◌, ◌++◌, ◌∷◌, [], length, map, OnOk, IfOk};
ghost use Rattle.std.specs.List.{list_any};
ghost use Rattle.cn_base.specs.Cidr.{Cidr, same_prefix};
ghost use Rattle.cn_net.specs.Faults.{TellsFirst, device_fault, first_in, first_repeat, id_fault, name_fault, prefixes_fault};
ghost use Rattle.cn_net.specs.Numbered.{texts, written_names};

use crate::device::Own;
use crate::draft::DeviceDraft;
use crate::fault::{NetAnswer, NetFault, What};
use cn_base::{DeviceId, Name, Prefix, RouterId};
use indexmap::IndexSet;
use std::alloc::{AllocError, Global};

const MOST_PREFIXES: usize = 16384;

/// Puts a name behind those of the devices before, which all have others.
fn add_name(alloc: Global, names: &mut IndexSet<String>, name: &Name) -> Result<(), NetAnswer>
    ensures ok { OnOk result (texts names.new.keys ≡ texts names.old.keys ++ name.now ∷ []) }
    ensures first { TellsFirst (name_fault (texts names.old.keys) name.now) result }
{
    let is_new = names.insert(String::from_str(alloc, name.text())?)?;
    if !is_new {
        let name = name.copy(alloc)?;
        return Err(NetAnswer::Fault(NetFault::DuplicateName { name }));
    }
    Ok(())
}

/// Puts the router id of a device behind those of the devices before, which all have others.
fn add_id(ids: &mut IndexSet<RouterId>, device: DeviceId, id: RouterId) -> Result<(), NetAnswer>
    requires { length ids.old.keys ≤ 4096 }
    ensures ok { OnOk result (ids.new.keys ≡ ids.old.keys ++ id ∷ []) }
    ensures first { TellsFirst (id_fault ids.old.keys device id) result }
{
    let (earlier, is_new) = ids.insert_full(id)?;
    if !is_new {
        let a = DeviceId(earlier as u32);
        return Err(NetAnswer::Fault(NetFault::DuplicateId { a, b: device }));
    }
    Ok(())
}

/// The first prefix that stands in the list a second time.
fn repeated(alloc: Global, own: &[Own]) -> Result<Option<Prefix>, AllocError>
    ensures { IfOk result (λ r. r ≡ first_repeat (map (λ o. o.prefix) own.now)) }
{
    let mut before = IndexSet::new(alloc);
    for one in own {
        if !before.insert(one.prefix)? {
            return Ok(Some(one.prefix));
        }
    }
    Ok(None)
}

/// The index of the devices' names. It tries that names and router ids are distinct, and that no
/// device's list repeats a prefix.
pub fn distinct_devices(
    alloc: Global,
    devices: &[DeviceDraft],
) -> Result<IndexSet<String>, NetAnswer>
    requires { length devices.now ≤ 4096 }
    ensures ok { IfOk result (λ names. texts names.keys ≡ written_names devices.now) }
    ensures first { TellsFirst (first_in device_fault devices.now) result }
{
    let mut names = IndexSet::new(alloc);
    let mut ids = IndexSet::new(alloc);
    for (i, device) in devices.iter().enumerate() {
        let number = DeviceId(i as u32);
        add_name(alloc, &mut names, &device.name)?;
        add_id(&mut ids, number, device.id)?;
        if let Some(prefix) = repeated(alloc, device.body.own.items())? {
            return Err(NetAnswer::Fault(NetFault::DuplicateOwn {
                device: number,
                prefix,
            }));
        }
    }
    Ok(names)
}

/// Puts those prefixes of a device into the set that aren't in it yet.
pub fn add_prefixes(prefixes: &mut IndexSet<Prefix>, own: &[Own]) -> Result<(), AllocError>
    ensures { OnOk result ((q : Cidr)
        → list_any (same_prefix q) prefixes.new.keys
        ≡ (list_any (same_prefix q) prefixes.old.keys
        || list_any (same_prefix q) (map (λ o. o.prefix) own.now))) }
{
    for one in own {
        prefixes.insert(one.prefix)?;
    }
    Ok(())
}

/// Tries the number of distinct prefixes.
pub fn few_prefixes(alloc: Global, devices: &[DeviceDraft]) -> Result<(), NetAnswer>
    ensures { TellsFirst (prefixes_fault devices.now) result }
{
    let mut prefixes = IndexSet::new(alloc);
    for device in devices {
        add_prefixes(&mut prefixes, device.body.own.items())?;
    }
    if prefixes.len() > MOST_PREFIXES {
        return Err(NetAnswer::Fault(NetFault::TooMany {
            what: What::Prefixes,
            count: prefixes.len() as u64,
        }));
    }
    Ok(())
}
