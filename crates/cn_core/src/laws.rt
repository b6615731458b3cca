//! What holds of the state after every run. Each function does nothing; its contract is the law.

ghost use Rattle.cn_core.specs.Laws.{FirstLaw, FitsLaw, QuietLaw, RunLaw, StandingLaw};
ghost use Rattle.cn_core.specs.Owed.{CoveredOwedLaw, DecidedOwedLaw, EmptyOwedLaw, GetOwedLaw, SentOwedLaw};

/// The invariants hold after every run: a clean prefix has the best choice that a decision would
/// give, a mailbox holds at most 64 messages, and each speaker holds what it says; and where the
/// numbers of the opening fit, each message is the spelling of an update, and the messages of each
/// mailbox lead from what came in to what was sent.
pub fn run_law()
    ensures { RunLaw }
{}

/// Where the numbers of a state fit, each message that is sent is read back as the update that it
/// spells, and each that is received is read.
pub fn fits_law()
    ensures { FitsLaw }
{}

/// In a quiet state the emulated devices hold what they hold in a stable state of the whole
/// network, of which there is exactly one.
pub fn quiet_law()
    ensures { QuietLaw }
{}

/// The standing is Quiet exactly where the state is quiet.
pub fn standing_law()
    ensures { StandingLaw }
{}

/// The first event in the serial order is enabled, and there is none exactly where the state is
/// quiet.
pub fn first_law()
    ensures { FirstLaw }
{}

/// For a prefix, what is advertised is owed exactly where it isn't what was sent.
pub fn get_owed()
    ensures { GetOwedLaw }
{}

/// Nothing is owed exactly where, for each prefix, what was sent is what is advertised.
pub fn empty_owed()
    ensures { EmptyOwedLaw }
{}

/// A decision changes what is owed for its prefix alone, to what is owed of the new choice.
pub fn decided_owed()
    ensures { DecidedOwedLaw }
{}

/// Where what was sent comes to be what is advertised for some prefixes, these alone are owed no
/// more.
pub fn covered_owed()
    ensures { CoveredOwedLaw }
{}

/// Each prefix of a message was owed, and is owed no more when the message is sent; of all others
/// is owed what was.
pub fn sent_owed()
    ensures { SentOwedLaw }
{}
