//! Laws of the definitions. Each function does nothing; its contract is the law.

ghost use Rattle.std.specs.Prelude.{◌≡◌, ◌⊎◌, ℕ, List};
ghost use Rattle.cn_lists.specs.Classical.{Classically};
ghost use Rattle.cn_record.specs.Recorded.{RecordedOpening};
ghost use Rattle.cn_open.specs.Depth.{Depth, named, sound};
ghost use Rattle.cn_open.specs.Named.{IsNamed};
ghost use Rattle.cn_open.specs.OpenFaults.{IsBoundaryFault, IsOpenFault};
ghost use Rattle.cn_open.specs.Opens.{IsSafePlan, IsUnsafePlan, Opens};
ghost use Rattle.cn_open.specs.declared.fault.OpenFault.{OpenFault};
ghost use Rattle.cn_open.specs.declared.naming.Named.{Named};

/// A text opens with exactly one opening, or has exactly one fault, and never both; and it has at
/// most one fault at each depth. That one of the two is there is said in the sense of classical
/// logic: that neither is there is refuted. Up to its names, what a text stands for or its fault is
/// computed. So what `open_plan` answers is determined by the text, but for want of memory.
pub fn one_fault_or_one_opening()
    ensures opening { (bytes : List ℕ) (r s : RecordedOpening)
        → Opens bytes r → Opens bytes s → r ≡ s }
    ensures fault { (depth : Depth) (bytes : List ℕ) (f g : OpenFault)
        → IsOpenFault depth bytes f → IsOpenFault depth bytes g → f ≡ g }
    ensures either { (bytes : List ℕ) (r : RecordedOpening) (f : OpenFault)
        → Opens bytes r → IsOpenFault sound bytes f → ⊥ }
    ensures there { (bytes : List ℕ)
        → Classically (((r : RecordedOpening) × Opens bytes r)
        ⊎ ((f : OpenFault) × IsOpenFault sound bytes f)) }
    ensures named { (bytes : List ℕ)
        → ((n : Named) × IsNamed bytes n) ⊎ ((f : OpenFault) × IsOpenFault named bytes f) }
{}

/// A plan whose boundary is safe has no fault; one whose boundary is unsafe doesn't open, and its
/// fault is one of the boundary.
pub fn safe_plans_open()
    ensures safe { (bytes : List ℕ) (f : OpenFault)
        → IsSafePlan bytes → IsOpenFault sound bytes f → ⊥ }
    ensures unopened { (bytes : List ℕ) (r : RecordedOpening)
        → IsUnsafePlan bytes → Opens bytes r → ⊥ }
    ensures boundary { (bytes : List ℕ) (f : OpenFault)
        → IsUnsafePlan bytes → IsOpenFault sound bytes f → IsBoundaryFault f }
{}

/// A fault of a plan that is opened up to its names is its fault where it is opened deeper.
pub fn faults_deepen()
    ensures { (bytes : List ℕ) (f : OpenFault)
        → IsOpenFault named bytes f → IsOpenFault sound bytes f }
{}
