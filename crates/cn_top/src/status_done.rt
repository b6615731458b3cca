//! When 0 comes, and what is then done.

ghost use Rattle.std.specs.Prelude.{◌≡◌, ℕ, List};
ghost use Rattle.cn_outside.specs.Scene.{Scene};
ghost use Rattle.cn_top.specs.Form.{plan_form, serial_form};
ghost use Rattle.cn_top.specs.Outcome.{Outcome};
ghost use Rattle.cn_top.specs.Statuses.{IsPlanPut, IsScriptRun};
ghost use Rattle.cn_top.specs.declared.status.Status.{Status};
ghost use Rattle.cn_top.specs.declared.status.Status.TheVariants.{Ok as Done};

/// 0 of `plan` comes only where the file opens an emulation with a safe boundary, and the text of
/// the plan is put.
pub fn plan_is_put()
    ensures { (file : List ℕ) (before after : Scene) (result : Status)
        → Outcome (plan_form file) before after result → result ≡ Done
        → IsPlanPut file before after }
{}

/// 0 of `serial` comes only where the files stand for an emulation behind a safe boundary and a
/// script. The trace of the script's serial play is then under its name, and the answers to its
/// commands are put, one put each: a pull that is answered quiet shows for every emulated device
/// exactly its table in the one stable state of the whole network, and one that is answered again
/// names what is first pending.
pub fn script_is_run()
    ensures { (file script trace : List ℕ) (before after : Scene) (result : Status)
        → Outcome (serial_form file script trace) before after result → result ≡ Done
        → IsScriptRun file script trace before after }
{}
