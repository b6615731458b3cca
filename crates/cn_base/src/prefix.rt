//! Prefixes of IPv4 addresses (RFC 4271, 4.3).

ghost use Rattle.std.specs.Prelude.{◌≡◌, MatchOption};
ghost use Rattle.cn_base.specs.Cidr.{Cidr, IsCidr, covers};

use std::marker::Model;

/// A set of addresses: those that begin with the first `len` of 32 bits. Contracts see a `Cidr`.
/// The order is by the bits, then by the length.
#[derive(Clone, Copy, Debug, PartialEq, Eq, PartialOrd, Ord, Hash)]
pub struct Prefix {
    bits: u32,
    len: u8,
}

impl Model for Prefix {
    ghost use Rattle.cn_base.specs.Cidr.{Cidr, IsCidr};

    ghost Value = { Cidr };

    ghost view = { λ p. record { bits = p.bits; len = p.len } };

    ghost invariant = { λ p. IsCidr (record { bits = p.bits; len = p.len }) };

    ghost inverse = { λ v. record { bits = v.bits; len = v.len } };
}

impl Prefix {
    /// The prefix of these bits and this length. None comes exactly where the length passes 32 or a
    /// bit after the first `len` is set.
    pub fn new(bits: u32, len: u8) -> Option<Prefix>
        ensures { let cidr : Cidr = record { bits = bits; len = len } in
            MatchOption result (IsCidr cidr → ⊥) (λ p. (p ≡ cidr) × IsCidr p) }
    {
        if len > 32 {
            return None;
        }
        let step = 1u64 << (32 - len);
        if u64::from(bits) % step != 0 {
            return None;
        }
        Some(Prefix { bits, len })
    }

    /// The bits, as one number.
    pub fn bits(&self) -> u32
        ensures value { result ≡ self.now.bits }
        ensures is_cidr { IsCidr self.now }
    {
        self.bits
    }

    /// How many of the bits count, at most 32.
    pub fn len(&self) -> u8
        ensures value { result ≡ self.now.len }
        ensures is_cidr { IsCidr self.now }
    {
        self.len
    }

    /// Holds where `other` is at least as long and begins with the same bits. It takes no memory.
    pub fn covers(&self, other: &Prefix) -> bool
        ensures { result ≡ covers self.now other.now }
    {
        if other.len < self.len {
            return false;
        }
        let step = 1u64 << (32 - self.len);
        u64::from(self.bits) / step == u64::from(other.bits) / step
    }
}
