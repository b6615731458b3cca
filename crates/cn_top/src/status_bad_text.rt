//! When 6 comes: no plan is read from the file.

ghost use Rattle.std.specs.Prelude.{◌≡◌};
ghost use Rattle.cn_open.specs.declared.fault.OpenFault.TheVariants.{NoPlan};
ghost use Rattle.cn_open.specs.declared.fault.TextFault.{TextFault};
ghost use Rattle.cn_outside.specs.Scene.{Scene};
ghost use Rattle.cn_top.specs.Form.{Form};
ghost use Rattle.cn_top.specs.Meaning.{HoldsFault};
ghost use Rattle.cn_top.specs.Outcome.{IsCalm, IsUnlessMemory, Outcome, Tells};
ghost use Rattle.cn_top.specs.Statuses.{IsBadText, OpensPlan, plan_held};
ghost use Rattle.cn_top.specs.declared.status.Status.{Status};
ghost use Rattle.cn_top.specs.declared.status.Status.TheVariants.{BadText};

/// 6 comes exactly where no plan is read from the file, as far as nothing fails and memory
/// suffices; and the first reason is put, with the name of the file: the file is too long, or its
/// text has a fault, which is told with its place.
pub fn bad_text_is_told()
    ensures only { (form : Form) (before after : Scene) (result : Status)
        → Outcome form before after result → result ≡ BadText
        → IsBadText form before after }
    ensures comes { (form : Form) (before after : Scene) (result : Status) (why : TextFault)
        → Outcome form before after result → OpensPlan form
        → HoldsFault (plan_held form before) (NoPlan why) → Tells form before
        → IsCalm form before after → IsUnlessMemory result BadText }
{}
