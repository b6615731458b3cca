//! Laws of the definitions. Each function does nothing; its contract is the law.

ghost use Rattle.std.specs.Prelude.{◌↔◌, Bool, Option};
ghost use Rattle.cn_base.specs.declared.ids.DeviceId.{DeviceId};
ghost use Rattle.cn_net.specs.Certificate.{IsCertified};
ghost use Rattle.cn_net.specs.Islands.{HaveSameIslands};
ghost use Rattle.cn_net.specs.Network.{Network};
ghost use Rattle.cn_cert.specs.Refusal.{IsFirstRefusal};
ghost use Rattle.cn_cert.specs.declared.refusal.Refusal.{Refusal};

/// A boundary with a first refusal isn't certified.
pub fn refused_is_not_certified()
    ensures { (net : Network) (outside : DeviceId → Bool) (label : DeviceId → Option DeviceId)
        (r : Refusal)
        → IsFirstRefusal net outside label r → IsCertified net outside label → ⊥ }
{}

/// A refusal is one of islands, and not of their labels' values: labellings with the same islands
/// have the same first refusal. So islands may go by any labels, and are named and ordered by their
/// least devices.
pub fn labels_change_no_refusal()
    ensures { (net : Network) (outside : DeviceId → Bool) (x y : DeviceId → Option DeviceId)
        (r : Refusal)
        → HaveSameIslands net x y
        → IsFirstRefusal net outside x r ↔ IsFirstRefusal net outside y r }
{}
