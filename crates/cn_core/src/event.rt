//! What may happen to the core.

use cn_base::{DeviceId, Prefix};

/// An event of the emulation: a device takes in an UPDATE message that came over a session (RFC
/// 4271, 9), decides what it holds for a prefix (9.1), or sends over a session what it owes there
/// (9.2).
#[derive(Clone, Copy, Debug)]
pub enum Event {
    Receive { from: DeviceId, to: DeviceId },
    Decide { device: DeviceId, prefix: Prefix },
    Send { from: DeviceId, to: DeviceId },
}

/// A step of a history: an event, or the mark behind command `k` of a script, counted from 1.
#[derive(Clone, Copy, Debug)]
pub enum Step {
    Work(Event),
    Mark { k: u32 },
}
