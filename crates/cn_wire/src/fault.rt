//! Why octets are no UPDATE message (RFC 4271, 6.1 and 6.3).

ghost use Rattle.std.specs.Prelude.{◌≡◌};
ghost use Rattle.cn_wire.specs.declared.fault.WireAnswer.TheVariants.{Memory};

use std::alloc::{AllocError, AllocFailed};

/// What is wrong with a path attribute.
#[derive(Clone, Copy, Debug, PartialEq, Eq)]
pub enum AttrCause {
    /// The type is none of ORIGIN, AS_PATH and NEXT_HOP.
    Kind,
    /// An attribute of this type came before.
    Repeated,
    /// The highest three flags aren't those of a well-known attribute: not optional, transitive,
    /// complete.
    Flags,
    /// The value has a wrong number of octets.
    Size,
    /// The AS_PATH doesn't begin with an AS_SEQUENCE.
    Segment,
    /// The ORIGIN is none of IGP, EGP and INCOMPLETE.
    Value,
}

/// The first fault of octets that are no message. A place, `at`, is counted in octets from the
/// message's first, which is at 0; `have` and `want` count octets.
#[derive(Clone, Copy, Debug, PartialEq, Eq)]
pub enum WireFault {
    /// There are `have` octets, where the header needs 19 or the message has the length `want`.
    Short {
        have: usize,
        want: usize,
    },
    /// The octet of the marker at this place isn't FF hexadecimal.
    Marker {
        at: usize,
    },
    /// The message's length is below 23 or above 4,096.
    Length {
        value: u16,
    },
    /// The message's type isn't 2, UPDATE.
    Kind {
        value: u16,
    },
    /// Octets follow the message, the first of them at this place.
    Trailing {
        at: usize,
    },
    /// What begins at this place passes the end of the part in which it stands.
    Bounds {
        at: usize,
    },
    /// The path attribute whose flags stand at this place, with the type `kind`, is wrong.
    Attr {
        at: usize,
        kind: u8,
        cause: AttrCause,
    },
    /// The length octet of a prefix, at this place, is above 32.
    PrefixLength {
        at: usize,
        value: u16,
    },
    /// No attribute of this type is there, which is the least that is missing: 1 is ORIGIN, 2
    /// AS_PATH and 3 NEXT_HOP.
    Missing {
        kind: u8,
    },
}

/// Why no update was read: the octets are no message, or memory ran out.
#[derive(Debug, Drop)]
pub enum WireAnswer {
    Fault(WireFault),
    Memory,
}

impl From<AllocError> for WireAnswer {
    ghost from_gives = { λ _ e. e ≡ Memory };

    fn from(_e: AllocError) -> WireAnswer {
        WireAnswer::Memory
    }
}

impl<T: Drop> From<AllocFailed<T>> for WireAnswer {
    ghost from_gives = { λ _ e. e ≡ Memory };

    fn from(_e: AllocFailed<T>) -> WireAnswer {
        WireAnswer::Memory
    }
}

pub(crate) fn bounds(at: usize) -> WireAnswer
    ensures { result ≡ WireAnswer.Fault (WireFault.Bounds at) }
{
    WireAnswer::Fault(WireFault::Bounds { at })
}

pub(crate) fn attr(at: usize, kind: u8, cause: AttrCause) -> WireAnswer
    ensures { result ≡ WireAnswer.Fault (WireFault.Attr at kind cause) }
{
    WireAnswer::Fault(WireFault::Attr { at, kind, cause })
}

pub(crate) fn missing(kind: u8) -> WireAnswer
    ensures { result ≡ WireAnswer.Fault (WireFault.Missing kind) }
{
    WireAnswer::Fault(WireFault::Missing { kind })
}
