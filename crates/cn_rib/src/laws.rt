//! Laws of the definitions. Each function does nothing; its contract is the law.

ghost use Rattle.cn_rib.specs.Interned.{SameRoutesLaw};
ghost use Rattle.cn_rib.specs.PrefixSet.{LeastLaw};
ghost use Rattle.cn_rib.specs.Updates.{AppliedLaw};

/// The first prefix of a set is its least by the order of prefixes.
pub fn least_law()
    ensures { LeastLaw }
{}

/// An update changes the routes of its own prefixes alone.
pub fn applied_update()
    ensures { AppliedLaw }
{}

/// A table stands for the same routes after further paths have joined the pool.
pub fn same_routes()
    ensures { SameRoutesLaw }
{}
