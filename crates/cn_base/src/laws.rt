//! Laws of the definitions. Each function does nothing; its contract is the law.

ghost use Rattle.std.specs.Prelude.{◌≡◌};
ghost use Rattle.cn_base.specs.Cidr.{Cidr};
ghost use Rattle.cn_base.specs.Rank.{rank_cmp};
ghost use Rattle.cn_base.specs.Table.{prefix_cmp};
ghost use Rattle.cn_base.specs.declared.rank.Rank.{Rank as RankValue};

use crate::prefix::Prefix;
use crate::rank::Rank;

/// The derived order of ranks is the order of the definitions.
pub fn rank_order()
    ensures { (x y : RankValue) → ⟦<Rank as Ord>⟧.cmp x y ≡ rank_cmp x y }
{}

/// The derived order of prefixes is by the bits, then by the length.
pub fn prefix_order()
    ensures { (p q : Cidr) → ⟦<Prefix as Ord>⟧.cmp p q ≡ prefix_cmp p q }
{}
