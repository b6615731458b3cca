//! Laws of the definitions. Each function does nothing; its contract is the law.

ghost use Rattle.std.specs.Prelude.{◌≡◌, ◌↔◌, ◌<◌, List, ℕ, length, true, Some};
ghost use Rattle.cn_base.specs.declared.ids.Asn.{Asn as AsnValue};
ghost use Rattle.cn_base.specs.declared.ids.Origin.{Origin as OriginValue};
ghost use Rattle.cn_pack.specs.Packing.{AreShort, IsPacked, packed, wants};
ghost use Rattle.cn_pack.specs.declared.owed.Owed.{Owed as OwedValue};
ghost use Rattle.cn_wire.specs.declared.update.Update.{Update as UpdateValue};

/// What `packed` computes is the message of the packing rule, where each path has at most 255
/// numbers as an `AsPath` has, and the only one. Prefixes are announced together exactly where
/// their paths and ORIGINs are equal.
pub fn packing_rule()
    ensures computed { (owed : List OwedValue) (next_hop : ℕ) → 0 < length owed → AreShort owed
        → IsPacked owed next_hop (packed owed next_hop) }
    ensures one { (owed : List OwedValue) (next_hop : ℕ) (u v : UpdateValue)
        → IsPacked owed next_hop u → IsPacked owed next_hop v → u ≡ v }
    ensures equal { (path : List AsnValue) (origin : OriginValue) (owed : OwedValue)
        → (wants path origin owed ≡ true) ↔ (owed.wanted ≡ Some (path, origin)) }
{}
