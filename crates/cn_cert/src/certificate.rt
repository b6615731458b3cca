//! The certificate of a boundary.

ghost use Rattle.std.specs.Prelude.{◌≡◌, All, IfErr, IfOk, OnOk};
ghost use Rattle.cn_net.specs.Certificate.{IsCertified};
ghost use Rattle.cn_net.specs.Islands.{IsIslandLabelling, label_of, outside_of};
ghost use Rattle.cn_net.specs.Network.{IsDevice};
ghost use Rattle.cn_cert.specs.Certificate.{NamesRefusal};

use crate::first::first_refusal;
use crate::refusal::Refusal;
use cn_net::{Certified, DeviceSet, Labels, Net};
use std::alloc::Global;

/// Why a boundary gets no certificate: its first refusal; or memory is short.
#[derive(Clone, Copy, Debug, PartialEq, Eq)]
pub enum CertWhy {
    Refused(Refusal),
    Memory,
}

/// A network, its emulated devices and the labels of its islands, handed back, and why the boundary
/// gets no certificate.
#[derive(Debug, Drop)]
pub struct Uncertified {
    pub net: Net,
    pub emulated: DeviceSet,
    pub labels: Labels,
    pub why: CertWhy,
}

/// The network with these emulated devices and these labels of islands, if the boundary between
/// them is certified. A refusal is the first one. The network, the devices and the labels are
/// handed back with it, and for want of memory.
pub fn certify(
    alloc: Global,
    net: Net,
    emulated: DeviceSet,
    labels: Labels,
) -> Result<Certified, Uncertified>
    requires devices { All (IsDevice net) emulated }
    requires labelling { IsIslandLabelling net (outside_of emulated) (label_of labels) }
    ensures ok { IfOk result (λ certified. certified
        ≡ record { net = net; emulated = emulated; labels = labels }) }
    ensures certified { OnOk result (IsCertified net (outside_of emulated) (label_of labels)) }
    ensures refused { IfErr result (λ refused.
        NamesRefusal net (outside_of emulated) (label_of labels) refused.why) }
    ensures net { IfErr result (λ refused. refused.net ≡ net) }
    ensures emulated { IfErr result (λ refused. refused.emulated ≡ emulated) }
    ensures labels { IfErr result (λ refused. refused.labels ≡ labels) }
{
    let why = match first_refusal(alloc, &net, &emulated, &labels) {
        Ok(None) => return Ok(Certified::hold(net, emulated, labels)),
        Ok(Some(refusal)) => CertWhy::Refused(refusal),
        Err(_) => CertWhy::Memory,
    };
    Err(Uncertified {
        net,
        emulated,
        labels,
        why,
    })
}
