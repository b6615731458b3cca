//! Routes (RFC 4271, 1.1 and 5.1), their path attributes, and what a device holds for a prefix.

ghost use Rattle.std.specs.Prelude.{◌≡◌, IfOk};

use crate::ids::{DeviceId, Origin};
use crate::path::AsPath;
use crate::prefix::Prefix;
use std::alloc::{AllocError, Global};

/// A prefix with the attributes of a way to it.
#[derive(Debug, Drop)]
pub struct Route {
    pub prefix: Prefix,
    pub path: AsPath,
    pub origin: Origin,
}

/// The path attributes of a route: its AS_PATH and its ORIGIN (RFC 4271, 5.1.1 and 5.1.2).
#[derive(Debug, Drop)]
pub struct Attributes {
    pub path: AsPath,
    pub origin: Origin,
}

/// What a device holds for a prefix. `from` is the device that it came from, and none where the
/// route is the device's own.
#[derive(Debug, Drop)]
pub struct Choice {
    pub from: Option<DeviceId>,
    pub path: AsPath,
    pub origin: Origin,
}

impl Route {
    /// An equal route.
    pub fn copy(&self, alloc: Global) -> Result<Route, AllocError>
        ensures { IfOk result (λ route. route ≡ self.now) }
    {
        Ok(Route {
            prefix: self.prefix,
            path: self.path.copy(alloc)?,
            origin: self.origin,
        })
    }
}

impl Attributes {
    /// Equal attributes.
    pub fn copy(&self, alloc: Global) -> Result<Attributes, AllocError>
        ensures { IfOk result (λ attributes. attributes ≡ self.now) }
    {
        Ok(Attributes {
            path: self.path.copy(alloc)?,
            origin: self.origin,
        })
    }
}

impl Choice {
    /// An equal choice.
    pub fn copy(&self, alloc: Global) -> Result<Choice, AllocError>
        ensures { IfOk result (λ choice. choice ≡ self.now) }
    {
        Ok(Choice {
            from: self.from,
            path: self.path.copy(alloc)?,
            origin: self.origin,
        })
    }
}
