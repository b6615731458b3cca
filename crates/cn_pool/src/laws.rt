//! Laws of the definitions. Each function does nothing; its contract is the law.

ghost use Rattle.cn_pool.specs.Pool.{SameIdLaw};

/// Two ids of a pool are equal exactly where their paths are.
pub fn same_id_law()
    ensures { SameIdLaw }
{}
