//! When 9 comes: something isn't built yet.

ghost use Rattle.std.specs.Prelude.{◌≡◌};
ghost use Rattle.cn_outside.specs.Scene.{Scene};
ghost use Rattle.cn_top.specs.Form.{Form};
ghost use Rattle.cn_top.specs.Outcome.{Outcome};
ghost use Rattle.cn_top.specs.Statuses.{IsNotBuilt};
ghost use Rattle.cn_top.specs.declared.status.Status.{Status};
ghost use Rattle.cn_top.specs.declared.status.Status.TheVariants.{Unbuilt};

/// 9 comes only for a command that isn't built yet, or where no script is read from its file, since
/// the form of these texts isn't built whole; and that is put.
pub fn unbuilt_is_told()
    ensures { (form : Form) (before after : Scene) (result : Status)
        → Outcome form before after result → result ≡ Unbuilt
        → IsNotBuilt form before after }
{}
