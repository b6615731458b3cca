//! What devices originate, by prefix: where a network looks a prefix up.

ghost use Rattle.std.specs.Prelude.{◌≡◌, All, IfOk, find, map, option_map};
ghost use Rattle.std.specs.List.{AllPairs, IsDistinct};
ghost use Rattle.std.specs.declared.cmp.Ordering.TheVariants.{Less};
ghost use Rattle.cn_base.specs.Cidr.{same_prefix};
ghost use Rattle.cn_base.specs.Table.{prefix_cmp};
ghost use Rattle.cn_net.specs.Kept.{AreOwn, IsByPrefix};
ghost use Rattle.cn_net.specs.Valid.{OriginatesOnce};

use crate::device::{Device, Own};
use cn_base::{Items, Origin, Prefix};
use cn_lists::item_at;
use std::alloc::{AllocError, Global};

/// What a device originates, in the order of the prefixes. No prefix stands twice.
pub fn by_prefix(alloc: Global, own: &[Own]) -> Result<Items<Own>, AllocError>
    requires once { IsDistinct same_prefix (map (λ o. o.prefix) own.now) }
    ensures { IfOk result (λ list. IsByPrefix own.now list) }
{
    let mut list = Vec::from_slice(alloc, own)?;
    list.sort_unstable_by_key(|own| own.prefix);
    Ok(Items::make(list))
}

/// The same for each device, in the order of their numbers.
pub fn own_by_prefix(alloc: Global, devices: &[Device]) -> Result<Vec<Items<Own>>, AllocError>
    requires once { All (λ d. OriginatesOnce d.body) devices.now }
    ensures { IfOk result (λ v. AreOwn devices.now v.items) }
{
    let mut lists = Vec::with_capacity(alloc, devices.len())?;
    for device in devices {
        lists.push(by_prefix(alloc, device.body.own.items())?)?;
    }
    Ok(lists)
}

/// The ORIGIN that a list in the order of the prefixes has for a prefix. None comes exactly where
/// the prefix doesn't stand there.
pub fn origin_in(list: &[Own], prefix: &Prefix) -> Option<Origin>
    requires ascending { AllPairs (λ x y. prefix_cmp x.prefix y.prefix ≡ Less) list.now }
    ensures { result ≡ option_map (λ o. o.origin)
        (find (λ o. same_prefix o.prefix prefix.now) list.now) }
{
    match item_at(list, prefix, |own| own.prefix) {
        Some(own) => Some(own.origin),
        None => None,
    }
}
