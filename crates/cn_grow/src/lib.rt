//! Growth: the devices to emulate, from those that have to be.
//!
//! The grown set is the least that holds the given devices and, with each of its devices, all that
//! are linked to it and have a greater layer. So it reaches from the racks up to the spines, and
//! leaves out the racks that nobody asked for. The layer above calls `grow`, whose contract cites
//! `IsGrown` of `specs/Growth.antt`. A link counts whether it is up or down, so that a link that
//! comes up adds no device. Whether the boundary of a grown set is safe is left to the certificate.
//! The layers are those of the fabrics of RFC 7938, section 3.
#![tactic(auto)]

mod growing;
mod members;

pub use growing::grow;
