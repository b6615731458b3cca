//! What is named where a boundary isn't certified.

use cn_base::{Asn, DeviceId, Prefix};

/// A side of an island's boundary.
#[derive(Clone, Copy, Debug, PartialEq, Eq)]
pub enum Side {
    Emulated,
    Outside,
}

/// Why a boundary isn't certified. An island goes by its least device.
///
/// `Facing`: on this side of the island's boundary `a` is the least device, and `b` the least whose
/// AS number isn't that of `a`. `Origins`: `prefix` is the least that is originated both in the
/// island and elsewhere, `inside` is the least device of the island that originates it, and
/// `elsewhere` the least other one.
#[derive(Clone, Copy, Debug, PartialEq, Eq)]
pub enum Refusal {
    Facing {
        side: Side,
        island: DeviceId,
        a: DeviceId,
        a_asn: Asn,
        b: DeviceId,
        b_asn: Asn,
    },
    Origins {
        island: DeviceId,
        prefix: Prefix,
        inside: DeviceId,
        elsewhere: DeviceId,
    },
}
