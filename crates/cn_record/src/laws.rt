//! Laws of the definitions. Each function does nothing; its contract is the law.

ghost use Rattle.std.specs.Prelude.{◌≡◌, List, None};
ghost use Rattle.cn_base.specs.Cidr.{Cidr};
ghost use Rattle.cn_base.specs.declared.ids.DeviceId.{DeviceId};
ghost use Rattle.cn_net.specs.Boundary.{AgreeInside, IsStableInside, NoForeignOffer, OutsideAsRecorded};
ghost use Rattle.cn_net.specs.Islands.{label_of, outside_of};
ghost use Rattle.cn_net.specs.Opening.{Opening};
ghost use Rattle.cn_net.specs.Records.{SaysItsOwn};
ghost use Rattle.cn_net.specs.Stable.{Assignment, IsStable};
ghost use Rattle.cn_record.specs.Recorded.{IsRecorded, RecordedOpening};
ghost use Rattle.cn_record.specs.Said.{said_by};
ghost use Rattle.cn_record.specs.declared.saved.Row.{Row};

/// By whatever rows, sound or not, a device says something of the prefixes of its own island alone,
/// and a device without an island, as each emulated one is, says nothing.
pub fn says_its_own()
    ensures own { (o : Opening) (rows : List Row) → SaysItsOwn o.net (label_of o.labels)
        (said_by o rows) }
    ensures emulated { (o : Opening) (rows : List Row) (d : DeviceId) (p : Cidr)
        → label_of o.labels d ≡ None → said_by o rows d p ≡ None }
{}

/// Of sound records behind a certified boundary: in a stable state of the whole network each
/// outside device holds what it says of the prefixes of its island, and of other prefixes no
/// emulated device accepts anything from it. So emulated devices that hold their best, where the
/// outside devices say their rows and never react, hold what they hold in that state, of which a
/// valid network has exactly one.
pub fn recorded_boundary()
    ensures outside { (r : RecordedOpening) (state : Assignment)
        → IsRecorded r → IsStable r.opening.net state
        → OutsideAsRecorded r.opening.net (label_of r.opening.labels)
        (said_by r.opening r.rows) state }
    ensures foreign { (r : RecordedOpening) (state : Assignment)
        → IsRecorded r → IsStable r.opening.net state
        → NoForeignOffer r.opening.net (outside_of r.opening.emulated)
        (label_of r.opening.labels) state }
    ensures inside { (r : RecordedOpening) (held state : Assignment)
        → IsRecorded r → IsStable r.opening.net state
        → IsStableInside r.opening.net (outside_of r.opening.emulated)
        (said_by r.opening r.rows) held
        → AgreeInside r.opening.net (outside_of r.opening.emulated) held state }
{}
