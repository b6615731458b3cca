//! Sets of devices, and the labels of islands.

ghost use Rattle.std.specs.Prelude.{◌≡◌, ◌<◌, ◌^◌, All, IfOk, length};
ghost use Rattle.cn_base.specs.declared.ids.DeviceId.{DeviceId as DeviceNumber};
ghost use Rattle.cn_net.specs.Islands.{IsAscending, label_of, holds_device};
ghost use Rattle.cn_net.specs.Network.{IsDevice};

use crate::net::Net;
use cn_base::DeviceId;
use std::alloc::{AllocError, Global};
use std::marker::Model;

/// Devices, by number, ascending and without repeats. Contracts see the list of their numbers.
#[derive(Debug, Drop)]
pub struct DeviceSet {
    devices: Vec<DeviceId>,
}

impl Model for DeviceSet {
    ghost use Rattle.std.specs.Prelude.{List};
    ghost use Rattle.cn_base.specs.declared.ids.DeviceId.{DeviceId};
    ghost use Rattle.cn_net.specs.Islands.{IsAscending};

    ghost Value = { List DeviceId };

    ghost view = { λ s. s.devices.items };

    ghost invariant = { λ s. IsAscending s.devices.items };
}

impl DeviceSet {
    /// The set of these devices of the network, in whatever order and however often they stand
    /// there. It takes no memory.
    pub fn make(net: &Net, devices: Vec<DeviceId>) -> DeviceSet
        requires { All (IsDevice net.now) devices.items }
        ensures holds { (d : DeviceNumber) → holds_device result d ≡ holds_device devices.items d }
        ensures within { All (IsDevice net.now) result }
    {
        let _ = net;
        let mut devices = devices;
        devices.sort_unstable();
        devices.dedup();
        DeviceSet { devices }
    }

    /// The numbers, ascending.
    pub fn items(&self) -> &[DeviceId]
        ensures same { result.now ≡ self.now }
        ensures ascending { IsAscending self.now }
    {
        self.devices.as_slice()
    }

    /// An equal set. Err comes only for want of memory.
    pub fn copy(&self, alloc: Global) -> Result<DeviceSet, AllocError>
        ensures { IfOk result (λ set. set ≡ self.now) }
    {
        let devices = Vec::from_slice(alloc, self.devices.as_slice())?;
        Ok(DeviceSet { devices })
    }

    /// How many devices there are in the set.
    pub fn len(&self) -> usize
        ensures { result ≡ length self.now }
    {
        self.devices.len()
    }

    /// Holds where the device is in the set.
    pub fn holds(&self, d: DeviceId) -> bool
        ensures { result ≡ holds_device self.now d }
    {
        self.devices.binary_search(&d).is_ok()
    }
}

/// A number for some of the devices: the label of their island. Contracts see the list of the
/// devices' entries.
#[derive(Debug, Drop)]
pub struct Labels {
    numbers: Vec<Option<DeviceId>>,
}

impl Model for Labels {
    ghost use Rattle.std.specs.Prelude.{List, Option};
    ghost use Rattle.cn_base.specs.declared.ids.DeviceId.{DeviceId};

    ghost Value = { List (Option DeviceId) };

    ghost view = { λ l. l.numbers.items };
}

impl Labels {
    /// The labels that give each device the entry at its number. It takes no memory.
    pub fn make(numbers: Vec<Option<DeviceId>>) -> Labels
        ensures { result ≡ numbers.items }
    {
        Labels { numbers }
    }

    /// The devices' entries, in the order of their numbers.
    pub fn items(&self) -> &[Option<DeviceId>]
        ensures { result.now ≡ self.now }
    {
        self.numbers.as_slice()
    }

    /// Equal labels. Err comes only for want of memory.
    pub fn copy(&self, alloc: Global) -> Result<Labels, AllocError>
        ensures { IfOk result (λ labels. labels ≡ self.now) }
    {
        let numbers = Vec::from_slice(alloc, self.numbers.as_slice())?;
        Ok(Labels { numbers })
    }

    /// The label of a device. None comes exactly where the device has none.
    pub fn of(&self, d: DeviceId) -> Option<DeviceId>
        ensures { result ≡ label_of self.now d }
    {
        match self.numbers.get(d.0 as usize) {
            Some(label) => *label,
            None => None,
        }
    }
}
