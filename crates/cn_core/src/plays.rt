//! Laws of plays. Each function does nothing; its contract is the law.

ghost use Rattle.cn_core.specs.PlayLaws.{OneAnswerLaw, SomeAnswersLaw, SplitLaw};

/// A history with a mark is its split at the first one; a part and its mark make a play, in front
/// of a play of the commands behind and behind a play of the commands before; and the marks of a
/// play are numbered in order.
pub fn split_at_marks()
    ensures { SplitLaw }
{}

/// Along a play from a recorded opening a script has answers, and along one history at most one
/// list of them: a pull is answered quiet or again by the state at its mark, and the one stable
/// state of the whole network has one list of tables.
pub fn one_answer()
    ensures there { SomeAnswersLaw }
    ensures once { OneAnswerLaw }
{}
