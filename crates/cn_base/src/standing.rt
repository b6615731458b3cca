//! Whether something is under way in an emulation.

use crate::ids::DeviceId;

/// What is pending first: nothing, a message in the mailbox of a session, or work of a device.
#[derive(Clone, Copy, Debug, PartialEq, Eq)]
pub enum Standing {
    Quiet,
    Mailbox { from: DeviceId, to: DeviceId },
    Device { device: DeviceId },
}
