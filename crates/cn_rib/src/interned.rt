//! The attributes of a route by the id of its path.

use cn_base::Origin;
use cn_pool::PathId;

/// What is kept of a route's attributes (RFC 4271, 5.1): the id of its path in a pool, and its
/// ORIGIN.
#[derive(Clone, Copy, Debug, PartialEq, Eq)]
pub struct Interned {
    pub path: PathId,
    pub origin: Origin,
}
