//! Laws of what is meant. Each function does nothing; its contract is the law. The laws of each
//! status stand in a file of their own: `status_done`, `status_refused`, `status_bad_text`,
//! `status_bad_net` and `status_unbuilt`.

ghost use Rattle.std.specs.Prelude.{ℕ, List};
ghost use Rattle.cn_outside.specs.Shelf.{Held};
ghost use Rattle.cn_top.specs.Deed.{Deed};
ghost use Rattle.cn_top.specs.Form.{Form, reads_of};
ghost use Rattle.cn_top.specs.Meaning.{IsRight, IsValidInput, OneMeaning, TellsAll};

/// Where the shelf tells what each named file holds, a call has exactly one meaning: a deed that is
/// right, what is first wrong, a file that isn't there, or words that are no listed form. That one
/// is there is said in the sense of classical logic: that none is there is refuted.
pub fn one_meaning()
    ensures { (form : Form) (held : List ℕ → Held)
        → TellsAll (reads_of form) held → OneMeaning form held }
{}

/// What is right is valid input: so 0 comes nowhere else.
pub fn right_is_valid()
    ensures { (form : Form) (held : List ℕ → Held) (deed : Deed)
        → IsRight form held deed → IsValidInput form held }
{}
