//! The first refusal of a boundary.

ghost use Rattle.std.specs.Prelude.{◌≡◌, Bool, Option, IfOk, MatchOption};
ghost use Rattle.cn_base.specs.declared.ids.DeviceId.{DeviceId as DeviceNumber};
ghost use Rattle.cn_net.specs.Certificate.{IsCertified};
ghost use Rattle.cn_net.specs.Islands.{label_of, outside_of};
ghost use Rattle.cn_cert.specs.Refusal.{IsFirstRefusal, island_of};
ghost use Rattle.cn_cert.specs.Steps.{IsFirstNamed, earlier_of};

use crate::islands::named;
use crate::origins::origins_refusal;
use crate::refusal::{Refusal, Side};
use crate::sides::side_refusal;
use cn_base::DeviceId;
use cn_net::{DeviceSet, Labels, Net};
use std::alloc::{AllocError, Global};

/// The least device of the island that a refusal is of.
fn island_of(refusal: &Refusal) -> DeviceId
    ensures { result ≡ island_of refusal.now }
{
    match refusal {
        Refusal::Facing { island, .. } => *island,
        Refusal::Origins { island, .. } => *island,
    }
}

/// The refusal that comes first, where the kinds of the first go before those of the second.
fn earlier_of(first: Option<Refusal>, second: Option<Refusal>) -> Option<Refusal>
    ensures { result ≡ earlier_of first second }
{
    match (first, second) {
        (None, second) => second,
        (first, None) => first,
        (Some(x), Some(y)) => {
            if island_of(&y) < island_of(&x) {
                Some(y)
            } else {
                Some(x)
            }
        }
    }
}

/// The first refusal of the boundary, where each island is labelled by its least device.
fn first_named(
    alloc: Global,
    net: &Net,
    emulated: &DeviceSet,
    names: &Labels,
) -> Result<Option<Refusal>, AllocError>
    ensures { let outside : DeviceNumber → Bool = outside_of emulated.now in
        let name : DeviceNumber → Option DeviceNumber = label_of names.now in
        IfOk result (λ found. MatchOption found
        (IsCertified net.now outside name)
        (IsFirstNamed net.now outside name)) }
{
    let emulated_side = side_refusal(alloc, net, emulated, names, Side::Emulated)?;
    let outside_side = side_refusal(alloc, net, emulated, names, Side::Outside)?;
    let origins = origins_refusal(alloc, net, names)?;
    Ok(earlier_of(earlier_of(emulated_side, outside_side), origins))
}

/// The first refusal of the boundary between the emulated devices and the islands with these
/// labels. None comes exactly where the boundary is certified. Refusals go by the least device of
/// the island, and in an island the emulated side goes first, then the outside side, then the
/// origins.
pub fn first_refusal(
    alloc: Global,
    net: &Net,
    emulated: &DeviceSet,
    labels: &Labels,
) -> Result<Option<Refusal>, AllocError>
    ensures { let outside : DeviceNumber → Bool = outside_of emulated.now in
        let label : DeviceNumber → Option DeviceNumber = label_of labels.now in
        IfOk result (λ found. MatchOption found
        (IsCertified net.now outside label)
        (IsFirstRefusal net.now outside label)) }
{
    let names = named(alloc, net, labels)?;
    first_named(alloc, net, emulated, &names)
}
