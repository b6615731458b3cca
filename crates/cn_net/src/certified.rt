//! A network whose boundary is certified.

ghost use Rattle.std.specs.Prelude.{◌≡◌, All};
ghost use Rattle.cn_net.specs.Certificate.{IsCertified};
ghost use Rattle.cn_net.specs.Islands.{IsIslandLabelling, label_of, outside_of};
ghost use Rattle.cn_net.specs.Network.{IsDevice};
ghost use Rattle.cn_net.specs.Opening.{IsOpening};

use crate::net::Net;
use crate::sets::{DeviceSet, Labels};
use std::marker::Model;

/// A network, its emulated devices, and labels of the islands of the others that fit and have the
/// certificate. Contracts see an `Opening`.
#[derive(Debug, Drop)]
pub struct Certified {
    net: Net,
    emulated: DeviceSet,
    labels: Labels,
}

impl Model for Certified {
    ghost use Rattle.cn_net.specs.Opening.{Opening, IsOpening};

    ghost Value = { Opening };

    ghost view = { λ c. record { net = c.net; emulated = c.emulated; labels = c.labels } };

    ghost invariant = { λ c.
        IsOpening (record { net = c.net; emulated = c.emulated; labels = c.labels }) };
}

impl Certified {
    /// The network with these emulated devices and these labels, which fit and have the
    /// certificate. It takes no memory.
    pub fn hold(net: Net, emulated: DeviceSet, labels: Labels) -> Certified
        requires devices { All (IsDevice net) emulated }
        requires labelling { IsIslandLabelling net (outside_of emulated) (label_of labels) }
        requires certified { IsCertified net (outside_of emulated) (label_of labels) }
        ensures { result ≡ record { net = net; emulated = emulated; labels = labels } }
    {
        // These two tell what the types of the parts keep.
        net.valid();
        let _ = emulated.items();
        Certified {
            net,
            emulated,
            labels,
        }
    }

    /// Does nothing: a boundary is certified by its type, and a proof that needs to know so cites
    /// this call.
    pub fn valid(&self)
        ensures { IsOpening self.now }
    {
        let _ = &self.net;
    }

    /// The network.
    pub fn net(&self) -> &Net
        ensures { result.now ≡ self.now.net }
    {
        &self.net
    }

    /// The devices that are emulated.
    pub fn emulated(&self) -> &DeviceSet
        ensures { result.now ≡ self.now.emulated }
    {
        &self.emulated
    }

    /// The labels of the islands.
    pub fn labels(&self) -> &Labels
        ensures { result.now ≡ self.now.labels }
    {
        &self.labels
    }

    /// The network, the emulated devices and the labels, given back.
    pub fn parts(self) -> (Net, DeviceSet, Labels)
        ensures net { result.0 ≡ self.net }
        ensures emulated { result.1 ≡ self.emulated }
        ensures labels { result.2 ≡ self.labels }
    {
        let Certified {
            net,
            emulated,
            labels,
        } = self;
        (net, emulated, labels)
    }
}
