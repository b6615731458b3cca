//! The lines of a trace, which are put at the end of one text.

ghost use Rattle.std.specs.Prelude.{◌≡◌, ◌++◌, IfOk, OnOk};
ghost use Rattle.cn_net.specs.Network.{name_of};
ghost use Rattle.cn_trace.specs.Trace.{event_text, step_line, step_text, trace_text};

use cn_base::DeviceId;
use cn_core::{Event, Step};
use cn_net::Net;
use cn_text::{put_number, put_pair, put_prefix};
use std::alloc::{AllocError, Global};

/// The name of a device, and nothing where there is no such device.
fn name_of(net: &Net, d: DeviceId) -> &str
    ensures { result.now ≡ name_of net.now d }
{
    match net.device(d) {
        Some(device) => device.name.text(),
        None => "",
    }
}

/// What happened, without a line end.
fn put_event(alloc: Global, text: &mut Vec<u8>, net: &Net, event: &Event) -> Result<(), AllocError>
    ensures { OnOk result (text.new.items ≡ text.old.items ++ event_text net.now event.now) }
{
    match event {
        Event::Receive { from, to } => {
            text.extend_from_slice(b"receive ")?;
            put_pair(text, name_of(net, *from), name_of(net, *to))
        }
        Event::Decide { device, prefix } => {
            text.extend_from_slice(b"decide ")?;
            text.extend_from_slice(name_of(net, *device).as_bytes())?;
            text.extend_from_slice(b" ")?;
            put_prefix(alloc, text, prefix)
        }
        Event::Send { from, to } => {
            text.extend_from_slice(b"send ")?;
            put_pair(text, name_of(net, *from), name_of(net, *to))
        }
    }
}

/// A step, without a line end.
fn put_step(alloc: Global, text: &mut Vec<u8>, net: &Net, step: &Step) -> Result<(), AllocError>
    ensures { OnOk result (text.new.items ≡ text.old.items ++ step_text net.now step.now) }
{
    match step {
        Step::Work(event) => put_event(alloc, text, net, event),
        Step::Mark { k } => {
            text.extend_from_slice(b"mark ")?;
            put_number(alloc, text, u64::from(*k))
        }
    }
}

/// The line of a step.
fn put_line(alloc: Global, text: &mut Vec<u8>, net: &Net, step: &Step) -> Result<(), AllocError>
    ensures { OnOk result (text.new.items ≡ text.old.items ++ step_line net.now step.now) }
{
    put_step(alloc, text, net, step)?;
    text.extend_from_slice(b"\n")
}

/// The trace of a history. Of the network it reads the names of the devices.
pub fn write_trace(alloc: Global, net: &Net, history: &[Step]) -> Result<Vec<u8>, AllocError>
    ensures { IfOk result (λ text. text.items ≡ trace_text net.now history.now) }
{
    let mut text = Vec::from_slice(alloc, b"trace 1\n")?;
    for step in history {
        put_line(alloc, &mut text, net, step)?;
    }
    // A trace is long: what growth by doubling took too much is given back.
    text.shrink_to_fit();
    Ok(text)
}
