//! Laws on what an accepted change leaves. Each function does nothing; its contract is the law.

ghost use Rattle.std.specs.Prelude.{◌≡◌, List};
ghost use Rattle.cn_base.specs.declared.ids.DeviceId.{DeviceId};
ghost use Rattle.cn_change.specs.Journal.{IsAccepted, IsPossible, changed};
ghost use Rattle.cn_change.specs.declared.change.Change.{Change};
ghost use Rattle.cn_net.specs.Alike.{DifferInside, HaveSameEnds};
ghost use Rattle.cn_net.specs.Islands.{outside_of};
ghost use Rattle.cn_net.specs.Limits.{IsWithinLimits};
ghost use Rattle.cn_net.specs.Network.{Network};
ghost use Rattle.cn_net.specs.Sessions.{session_ends};
ghost use Rattle.cn_net.specs.Valid.{IsValid};

/// The network after an accepted change of a valid one is valid.
pub fn accepted_is_valid()
    ensures { (net : Network) (emulated : List DeviceId) (change : Change)
        → IsValid net → IsAccepted net emulated change → IsValid (changed net change) }
{}

/// Such a change can be made: the device is one, or the two devices are linked, which is what
/// `Net::with_body` and `Net::with_link` ask.
pub fn accepted_can_be_made()
    ensures { (net : Network) (emulated : List DeviceId) (change : Change)
        → IsValid net → IsAccepted net emulated change → IsPossible net change }
{}

/// An accepted change is inside: it changes an emulated device, or a link with an emulated end, and
/// nothing outside.
pub fn accepted_is_inside()
    ensures { (net : Network) (emulated : List DeviceId) (change : Change)
        → IsAccepted net emulated change
        → DifferInside net (changed net change) (outside_of emulated) }
{}

/// No change, accepted or not, changes an end of a link or how many devices there are, and so which
/// sessions there are.
pub fn changes_keep_ends()
    ensures ends { (net : Network) (change : Change) → HaveSameEnds net (changed net change) }
    ensures sessions { (net : Network) (emulated : List DeviceId) (change : Change)
        → session_ends net emulated ≡ session_ends (changed net change) emulated }
{}

/// An accepted change keeps the limits. So that too much of something is looked for in a reload
/// alone leaves out no fault: a link that goes down or comes up changes no count.
pub fn accepted_keeps_limits()
    ensures { (net : Network) (emulated : List DeviceId) (change : Change)
        → IsWithinLimits net emulated → IsAccepted net emulated change
        → IsWithinLimits (changed net change) emulated }
{}
