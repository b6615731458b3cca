//! Laws on what makes no difference to a boundary, to the sessions or to records. Each function
//! does nothing; its contract is the law.

ghost use Rattle.std.specs.Prelude.{◌≡◌, ◌↔◌, Bool, List, Option};
ghost use Rattle.cn_base.specs.declared.ids.DeviceId.{DeviceId};
ghost use Rattle.cn_net.specs.Alike.{ChangesKeepEnds, ChangesStayInside, DifferInUp, DifferInside, HaveBoundariesAlike, HaveRecordsAlike, HaveSameEnds};
ghost use Rattle.cn_net.specs.Certificate.{IsCertified};
ghost use Rattle.cn_net.specs.Islands.{HaveSameIslands};
ghost use Rattle.cn_net.specs.Network.{Network};
ghost use Rattle.cn_net.specs.Sessions.{session_ends};

/// A link counts for islands and for the certificate whether it is up or down: that one goes down,
/// comes up or is reset changes neither, whatever the labels.
pub fn up_changes_no_boundary()
    ensures { (net net' : Network) → DifferInUp net net' → HaveBoundariesAlike net net' }
{}

/// The certificate is one of islands, and not of their labels' values: labellings with the same
/// islands have it alike.
pub fn labels_change_no_certificate()
    ensures { (net : Network) (outside : DeviceId → Bool) (x y : DeviceId → Option DeviceId)
        → HaveSameIslands net x y → IsCertified net outside x ↔ IsCertified net outside y }
{}

/// Which sessions there are is said by the ends of the links and the number of the devices: they
/// are the same whichever links are up, and whatever the devices are.
pub fn ends_make_sessions()
    ensures { (net net' : Network) (emulated : List DeviceId)
        → HaveSameEnds net net' → session_ends net emulated ≡ session_ends net' emulated }
{}

/// What the outside devices hold alone is not changed by what changes inside: so where an emulated
/// device has another configuration, or a link with an emulated end goes down or comes up, records
/// that were sound are sound, and records that weren't aren't.
pub fn inside_changes_no_records()
    ensures { (net net' : Network) (outside : DeviceId → Bool)
        → DifferInside net net' outside → HaveRecordsAlike net net' outside }
{}

/// No change of a link or of a device's configuration changes an end of a link or how many devices
/// there are, and so which sessions there are.
pub fn changes_keep_ends()
    ensures { (net : Network) → ChangesKeepEnds net }
{}

/// A change of a link with an emulated end, and of an emulated device's configuration, is inside.
pub fn changes_stay_inside()
    ensures { (net : Network) (outside : DeviceId → Bool) → ChangesStayInside net outside }
{}
