//! The islands of an opening.

ghost use Rattle.std.specs.Prelude.{◌≡◌, IfOk};
ghost use Rattle.cn_top.specs.Texts.{island_labels, members_of};

use cn_base::DeviceId;
use cn_net::Certified;
use std::alloc::{AllocError, Global};

/// The labels of the islands, ascending: each is the number of one of the island's devices.
pub fn island_labels(alloc: Global, certified: &Certified) -> Result<Vec<DeviceId>, AllocError>
    ensures { IfOk result (λ v. v.items ≡ island_labels certified.now) }
{
    let mut found = Vec::new(alloc);
    for number in 0..certified.net().count() {
        let d = DeviceId(number);
        if certified.labels().of(d) == Some(d) {
            found.push(d)?;
        }
    }
    Ok(found)
}

/// The devices of an island, by number.
pub fn members_of(
    alloc: Global,
    certified: &Certified,
    island: DeviceId,
) -> Result<Vec<DeviceId>, AllocError>
    ensures { IfOk result (λ v. v.items ≡ members_of certified.now island) }
{
    let mut found = Vec::new(alloc);
    for number in 0..certified.net().count() {
        let d = DeviceId(number);
        if certified.labels().of(d) == Some(island) {
            found.push(d)?;
        }
    }
    Ok(found)
}
