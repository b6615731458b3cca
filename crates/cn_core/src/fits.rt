//! That the numbers of an opening fit: their types have no greater ones. The premise of the laws on
//! octets, which `Core::start` meets for every opening by one look at it.

ghost use Rattle.std.specs.Prelude.{◌<◌, ◌^◌};
ghost use Rattle.cn_wire.specs.Writing.{IsPrefix};
ghost use Rattle.cn_core.specs.Fits.{Fits, FitsDevice, FitsNet, FitsPath, FitsRow};

use cn_base::{AsPath, Asn, Prefix, RouterId};
use cn_net::{Device, Net};
use cn_record::{Recorded, Row};

// An AS number has four octets.
fn number_fits(number: Asn)
    ensures { number.0 < 2 ^ 32 }
{}

// A BGP Identifier has four octets.
fn id_fits(id: RouterId)
    ensures { id.0 < 2 ^ 32 }
{}

// A prefix has 32 bits, and none behind its length is set.
fn prefix_fits(prefix: &Prefix)
    ensures { IsPrefix prefix.now }
{
    let _ = prefix.bits();
}

// A path has at most 255 numbers of four octets.
fn path_fits(path: &AsPath)
    ensures { FitsPath path.now }
{
    for number in path.items() {
        number_fits(*number);
    }
}

fn row_fits(row: &Row)
    ensures { FitsRow row.now }
{
    prefix_fits(&row.prefix);
    path_fits(&row.choice.path);
}

fn device_fits(device: &Device)
    ensures { FitsDevice device.now }
{
    number_fits(device.body.asn);
    id_fits(device.id);
    for own in device.body.own.items() {
        prefix_fits(&own.prefix);
    }
}

fn net_fits(net: &Net)
    ensures { FitsNet net.now }
{
    for device in net.devices() {
        device_fits(device);
    }
}

/// The numbers of every opening fit.
pub fn numbers_fit(recorded: &Recorded)
    ensures { Fits recorded.now }
{
    for row in recorded.rows() {
        row_fits(row);
    }
    net_fits(recorded.certified().net());
}
