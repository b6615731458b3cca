//! Laws of the definitions. Each function does nothing; its contract is the law.

ghost use Rattle.std.specs.Prelude.{◌≡◌, ◌≢◌, ◌⊎◌, Bool, All, List};
ghost use Rattle.cn_lists.specs.Classical.{Classically};
ghost use Rattle.cn_base.specs.declared.ids.DeviceId.{DeviceId};
ghost use Rattle.cn_net.specs.Islands.{IsAscending, outside_of};
ghost use Rattle.cn_net.specs.Network.{Network, IsDevice};
ghost use Rattle.cn_net.specs.Opening.{Opening};
ghost use Rattle.cn_net.specs.Valid.{IsValid};
ghost use Rattle.cn_plan.specs.Boundary.{BoundaryFault, IsFirstFault, IsSafe, IsSafeOpening, IsUnsafe};
ghost use Rattle.cn_plan.specs.Planned.{AnswersPlan, IsPlan};
ghost use Rattle.cn_plan.specs.Selected.{named};
ghost use Rattle.cn_plan.specs.declared.answer.PlanAnswer.{PlanAnswer};
ghost use Rattle.cn_plan.specs.declared.answer.PlanAnswer.TheVariants.{Memory};
ghost use Rattle.cn_plan.specs.declared.selection.Selection.{Selection};
ghost use Rattle.cn_record.specs.Recorded.{RecordedOpening};
ghost use Rattle.cn_record.specs.Rows.{AscendsByPair};
ghost use Rattle.cn_record.specs.declared.saved.Row.{Row};

/// A boundary isn't both safe and unsafe, and what is first wrong with one makes it unsafe.
pub fn safe_or_unsafe()
    ensures one { (net : Network) (outside : DeviceId → Bool) (rows : List Row)
        → IsSafe net outside rows → IsUnsafe net outside rows → ⊥ }
    ensures fault { (net : Network) (outside : DeviceId → Bool) (rows : List Row)
        (fault : BoundaryFault)
        → IsFirstFault net outside rows fault → IsUnsafe net outside rows }
{}

/// Where a network, a selection and rows have a plan, nothing but want of memory is answered in its
/// place: so `plan` answers Ok exactly where there is a plan and memory for it. Of a valid network,
/// some of its devices and rows by device and then by prefix it can't be that neither is there.
pub fn plan_or_answer()
    ensures one { (net : Network) (selection : Selection) (rows : List Row) (r : RecordedOpening)
        (answer : PlanAnswer)
        → IsPlan net selection rows r → AnswersPlan net selection rows answer → answer ≡ Memory }
    ensures there { (net : Network) (selection : Selection) (rows : List Row)
        → IsValid net → All (IsDevice net) (named selection) → IsAscending (named selection)
        → AscendsByPair rows
        → Classically (((r : RecordedOpening) × IsPlan net selection rows r)
        ⊎ ((answer : PlanAnswer) × AnswersPlan net selection rows answer × (answer ≢ Memory))) }
{}

/// What is first wrong with a boundary is one: the first refusal, or the first record that isn't
/// sound.
pub fn first_fault_is_one()
    ensures { (net : Network) (outside : DeviceId → Bool) (rows : List Row) (f g : BoundaryFault)
        → IsFirstFault net outside rows f → IsFirstFault net outside rows g → f ≡ g }
{}

/// A boundary of a valid network has a safe opening or a first fault: it can't be that neither is
/// there. So it has exactly one of them, and the fault is one, by the laws above.
pub fn opening_or_first_fault()
    ensures { (net : Network) (set : List DeviceId) (rows : List Row)
        → IsValid net → All (IsDevice net) set → IsAscending set
        → Classically (((o : Opening) × IsSafeOpening net (outside_of set) rows o)
        ⊎ ((fault : BoundaryFault) × IsFirstFault net (outside_of set) rows fault)) }
{}
