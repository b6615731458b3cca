//! The best route of a device to a prefix, with the id of its path.

use cn_base::{DeviceId, Origin};
use cn_pool::PathId;

/// A choice (RFC 4271, 9.1.2) whose path is held in a pool: whom it came from, or none for an own
/// route, the id of its path, and its ORIGIN.
#[derive(Clone, Copy)]
pub struct Best {
    pub from: Option<DeviceId>,
    pub path: PathId,
    pub origin: Origin,
}
