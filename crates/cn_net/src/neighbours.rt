//! The links of a network as the devices at their ends see them, in the order of those ends.

ghost use Rattle.std.specs.Prelude.{◌≡◌, ◌≢◌, ◌≤◌, All, IfOk, length};
ghost use Rattle.std.specs.List.{AllPairs, IsDistinct};
ghost use Rattle.std.specs.declared.cmp.Ordering.TheVariants.{Less};
ghost use Rattle.cn_net.specs.Neighbours.{AreNeighbours, AreStarts, by_ends};
ghost use Rattle.cn_net.specs.Valid.{same_ends};

use crate::device::Link;
use cn_base::DeviceId;
use std::alloc::{AllocError, Global};

/// A link as one of its ends sees it: the device at this end, the device at the other, and the
/// place of the link in the plan's order.
#[derive(Clone, Copy, Debug)]
pub struct Neighbour {
    pub of: DeviceId,
    pub device: DeviceId,
    pub link: u32,
}

/// Both ends of each link, in the order of the devices there and of those at the other end. The
/// links are those of a valid network.
pub fn neighbours_of(alloc: Global, links: &[Link]) -> Result<Vec<Neighbour>, AllocError>
    requires few { length links.now ≤ 16384 }
    requires apart { All (λ l. l.a ≢ l.b) links.now }
    requires one_link { IsDistinct same_ends links.now }
    ensures { IfOk result (λ v. AreNeighbours links.now v.items) }
{
    let mut seen = Vec::with_capacity(alloc, 2 * links.len())?;
    for (place, link) in links.iter().enumerate() {
        let Link { a, b, .. } = *link;
        let link = place as u32;
        seen.push(Neighbour {
            of: a,
            device: b,
            link,
        })?;
        seen.push(Neighbour {
            of: b,
            device: a,
            link,
        })?;
    }
    seen.sort_unstable_by_key(|n| (n.of, n.device));
    Ok(seen)
}

/// The place among neighbours, which ascend by their ends, at which each device's part begins. The
/// devices are numbered from 0, and the last place is the one behind them all.
pub fn starts_of(
    alloc: Global,
    neighbours: &[Neighbour],
    count: usize,
) -> Result<Vec<usize>, AllocError>
    requires few { count ≤ 4096 }
    requires ascending { AllPairs (λ x y. by_ends x y ≡ Less) neighbours.now }
    ensures { IfOk result (λ v. AreStarts count neighbours.now v.items) }
{
    let mut starts = Vec::with_capacity(alloc, count + 1)?;
    for d in 0..count + 1 {
        starts.push(neighbours.partition_point(|n| (n.of.0 as usize) < d))?;
    }
    Ok(starts)
}
