//! The names of devices at the end of a text.

ghost use Rattle.std.specs.Prelude.{◌≡◌, ◌++◌, OnErr, OnOk};
ghost use Rattle.cn_net.specs.Network.{name_of};
ghost use Rattle.cn_report.specs.Standing.{paired};

use cn_base::DeviceId;
use cn_net::Net;
use std::alloc::AllocError;

/// The name of a device, and nothing where there is no such device.
fn name_of(net: &Net, d: DeviceId) -> &str
    ensures { result.now ≡ name_of net.now d }
{
    match net.device(d) {
        Some(device) => device.name.text(),
        None => "",
    }
}

/// Appends the name of a device, and nothing where there is no such device.
pub fn put_name(text: &mut Vec<u8>, net: &Net, d: DeviceId) -> Result<(), AllocError>
    ensures ok { OnOk result (text.new.items ≡ text.old.items ++ name_of net.now d) }
    ensures err { OnErr result (text.new.items ≡ text.old.items) }
{
    text.extend_from_slice(name_of(net, d).as_bytes())
}

/// Appends the names of the two devices of a session, the sender first. After want of memory the
/// text is as before.
pub fn put_pair(
    text: &mut Vec<u8>,
    net: &Net,
    from: DeviceId,
    to: DeviceId,
) -> Result<(), AllocError>
    ensures ok { OnOk result (text.new.items ≡ text.old.items ++ paired net.now from to) }
    ensures err { OnErr result (text.new.items ≡ text.old.items) }
{
    cn_text::put_pair(text, name_of(net, from), name_of(net, to))
}
