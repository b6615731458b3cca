//! Laws of the definitions. Each function does nothing; its contract is the law.

ghost use Rattle.std.specs.Prelude.{◌≡◌, ◌↔◌, ◌++◌, [], List, ℕ, Ok, true, IsNone};
ghost use Rattle.cn_wire.specs.Numbers.{IsOctets};
ghost use Rattle.cn_wire.specs.Reading.{update_of, fault_of};
ghost use Rattle.cn_wire.specs.Spelling.{Spells};
ghost use Rattle.cn_wire.specs.Writing.{fits, spelling, IsUpdate};
ghost use Rattle.cn_wire.specs.declared.update.Update.{Update};

/// Octets spell at most one update, and no spelling is the beginning of another. What is read is
/// what is spelled, a fault is there exactly where no update is spelled, and what is written spells
/// the update.
pub fn one_spelling()
    ensures one { (octets : List ℕ) (u v : Update) → Spells octets u → Spells octets v → u ≡ v }
    ensures no_prefix { (octets more : List ℕ) (u v : Update) → Spells octets u
        → Spells (octets ++ more) v → more ≡ [] }
    ensures read { (octets : List ℕ) (u : Update) → IsOctets octets
        → (update_of octets ≡ Ok u) ↔ Spells octets u }
    ensures fault { (octets : List ℕ) → IsOctets octets
        → IsNone (fault_of octets) ↔ ((u : Update) × Spells octets u) }
    ensures written { (u : Update) → IsUpdate u → fits u ≡ true → Spells (spelling u) u }
{}
