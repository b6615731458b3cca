//! When 1 comes: the boundary isn't safe.

ghost use Rattle.std.specs.Prelude.{◌≡◌};
ghost use Rattle.cn_outside.specs.Scene.{Scene};
ghost use Rattle.cn_top.specs.Form.{Form};
ghost use Rattle.cn_top.specs.Outcome.{IsCalm, IsUnlessMemory, Outcome, Tells};
ghost use Rattle.cn_top.specs.Statuses.{HoldsUnsafePlan, IsBoundaryRefused, OpensPlan, plan_held};
ghost use Rattle.cn_top.specs.declared.status.Status.{Status};
ghost use Rattle.cn_top.specs.declared.status.Status.TheVariants.{Refused};

/// 1 comes exactly where the file of the plan stands for an emulation whose boundary isn't safe, as
/// far as nothing fails and memory suffices; and what is first wrong with the boundary is put: the
/// first refusal of the certificate, or the first record that isn't sound.
pub fn unsafe_boundary_is_refused()
    ensures only { (form : Form) (before after : Scene) (result : Status)
        → Outcome form before after result → result ≡ Refused
        → IsBoundaryRefused form before after }
    ensures comes { (form : Form) (before after : Scene) (result : Status)
        → Outcome form before after result → OpensPlan form
        → HoldsUnsafePlan (plan_held form before) → Tells form before
        → IsCalm form before after → IsUnlessMemory result Refused }
{}
