//! When 7 comes: the plan stands for no emulation.

ghost use Rattle.std.specs.Prelude.{◌≡◌};
ghost use Rattle.cn_net.specs.declared.draft.Draft.{Draft};
ghost use Rattle.cn_open.specs.declared.fault.OpenFault.TheVariants.{Net};
ghost use Rattle.cn_open.specs.declared.fault.PlanFault.{PlanFault};
ghost use Rattle.cn_outside.specs.Scene.{Scene};
ghost use Rattle.cn_top.specs.Form.{Form};
ghost use Rattle.cn_top.specs.Meaning.{HoldsFault};
ghost use Rattle.cn_top.specs.Outcome.{IsCalm, IsUnlessMemory, Outcome, Tells};
ghost use Rattle.cn_top.specs.Statuses.{IsNoEmulation, OpensPlan, plan_held};
ghost use Rattle.cn_top.specs.declared.status.Status.{Status};
ghost use Rattle.cn_top.specs.declared.status.Status.TheVariants.{BadNet};

/// 7 comes exactly where a plan is read from the file that stands for no emulation, as far as
/// nothing fails and memory suffices; and the first reason is put: the first fault of its network,
/// the first unknown name, the least record that is there twice, or the limit that is passed.
pub fn no_emulation_is_told()
    ensures only { (form : Form) (before after : Scene) (result : Status)
        → Outcome form before after result → result ≡ BadNet
        → IsNoEmulation form before after }
    ensures comes { (form : Form) (before after : Scene) (result : Status)
        (draft : Draft) (fault : PlanFault)
        → Outcome form before after result → OpensPlan form
        → HoldsFault (plan_held form before) (Net draft fault) → Tells form before
        → IsCalm form before after → IsUnlessMemory result BadNet }
{}
