//! Laws of the definitions. Each function does nothing; its contract is the law.

ghost use Rattle.cn_serial.specs.Rounds.{RoundLaw};
ghost use Rattle.cn_serial.specs.Serial.{SerialLaw};

/// A script has exactly one serial play from an opening, and it is a play: so the opening and the
/// script determine it, and by `cn_core::plays::one_answer` the answers along it.
pub fn serial_play()
    ensures { SerialLaw }
{}

/// In a state of a run neither an exchange nor a decision comes next exactly where the state is
/// quiet, so a round of another state has a step. From a state there is at most one list of rounds
/// until quiet, and in a state of a run its steps are a run of work alone that ends quiet.
pub fn rounds()
    ensures { RoundLaw }
{}
