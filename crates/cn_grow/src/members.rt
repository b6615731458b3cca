//! The members of a set that grows, each once, and for each device a mark that tells whether it is
//! one.

ghost use Rattle.std.specs.Prelude.{◌≡◌, ◌<◌, true, All, IfOk, length};
ghost use Rattle.cn_grow.specs.Members.{IsExtended, IsMarked, with_member};
ghost use Rattle.cn_net.specs.Islands.{holds_device};

use cn_base::DeviceId;
use std::alloc::AllocError;

/// Makes a device a member, unless it is one.
pub fn add(marks: &mut [bool], members: &mut Vec<DeviceId>, d: DeviceId) -> Result<(), AllocError>
    requires device { d.0 < length marks.old }
    requires marked { IsMarked marks.old members.old.items }
    ensures marked { IfOk result (λ _. IsMarked marks.new members.new.items) }
    ensures added { IfOk result (λ _. members.new.items ≡ with_member d members.old.items) }
{
    let place = d.0 as usize;
    if !marks[place] {
        members.push(d)?;
        marks[place] = true;
    }
    Ok(())
}

/// Makes all of these devices members.
pub fn add_all(
    marks: &mut [bool],
    members: &mut Vec<DeviceId>,
    devices: &[DeviceId],
) -> Result<(), AllocError>
    requires devices { All (λ d. d.0 < length marks.old) devices.now }
    requires marked { IsMarked marks.old members.old.items }
    ensures marked { IfOk result (λ _. IsMarked marks.new members.new.items) }
    ensures added { IfOk result
        (λ _. IsExtended (λ d. holds_device devices.now d ≡ true) members.old.items
        members.new.items) }
{
    for d in devices {
        add(marks, members, *d)?;
    }
    Ok(())
}
