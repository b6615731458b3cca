//! The texts of answers and of marks that no case runs to.

use cn_base::{DeviceId, Standing};
use cn_core::{Pull, Step};
use cn_given::build::network;
use cn_given::opening::choice;
use cn_given::tables::given;
use cn_given::words::{self, compare, same};
use cn_net::Net;
use cn_report::{print_done, print_pull};
use cn_trace::write_trace;
use std::alloc::Global;
use std::test::Fail;

fn done(alloc: Global, k: u32, kind: &str) -> Result<String, Fail> {
    Ok(String::from_utf8(print_done(alloc, k, kind)?)?)
}

#[test]
fn work_is_done(rt: HostRuntime) -> Result<(), Fail> {
    same("work", &done(rt.alloc(), 1, "work")?, "1 work done\n")?;
    same(
        "drain",
        &done(rt.alloc(), 10_000, "drain")?,
        "10000 drain done\n",
    )
}

// The rack and the leaf.
fn net(alloc: Global) -> Result<Net, Fail> {
    network(alloc, "t1 l1", "")
}

// The text of the fourth command, a pull that shows what is pending first.
fn pulled(alloc: Global, net: &Net, standing: Standing) -> Result<String, Fail> {
    let text = print_pull(alloc, net, 4, &Pull::Again { standing })?;
    Ok(String::from_utf8(text)?)
}

// The same of nothing, of a mailbox and of a device.
fn pending(alloc: Global, net: &Net) -> Result<String, Fail> {
    let (from, to, device) = (DeviceId(0), DeviceId(1), DeviceId(1));
    let mut text = pulled(alloc, net, Standing::Quiet)?;
    text.push_str(&pulled(alloc, net, Standing::Mailbox { from, to })?)?;
    text.push_str(&pulled(alloc, net, Standing::Device { device })?)?;
    Ok(text)
}

const PENDING: &str = "4 pull again
4 pull again mailbox t1 l1
4 pull again device l1
";

#[test]
fn pending_work_is_named(rt: HostRuntime) -> Result<(), Fail> {
    same("pending", &pending(rt.alloc(), &net(rt.alloc())?)?, PENDING)
}

// What is held, and the text of it.
const ORIGINS: &str = "
# IGP
held l1 igp 65102
gives from l1 path 65102 origin igp
# EGP
held l1 egp 65102
gives from l1 path 65102 origin egp
# incomplete
held l1 incomplete 65102
gives from l1 path 65102 origin incomplete
";

// A choice, as it is read and written.
fn held_in(alloc: Global, net: &Net, text: &str) -> Result<String, Fail> {
    let held = choice(alloc, net, text)?;
    words::choice(alloc, net, Some(&held))
}

fn held(alloc: Global, case: &str) -> Result<String, Fail> {
    held_in(alloc, &net(alloc)?, given(case, "held"))
}

#[test]
fn origins_have_words(rt: HostRuntime) -> Result<(), Fail> {
    compare(rt.alloc(), ORIGINS, held)
}

fn last_mark(alloc: Global, net: &Net) -> Result<String, Fail> {
    let text = write_trace(alloc, net, &[Step::Mark { k: 10_000 }])?;
    Ok(String::from_utf8(text)?)
}

#[test]
fn the_last_mark_is_traced(rt: HostRuntime) -> Result<(), Fail> {
    same(
        "a mark",
        &last_mark(rt.alloc(), &net(rt.alloc())?)?,
        "trace 1\nmark 10000\n",
    )
}
