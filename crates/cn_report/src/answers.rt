//! The texts of answers.

ghost use Rattle.std.specs.Prelude.{◌≡◌, ◌++◌, IfOk, OnOk};
ghost use Rattle.cn_report.specs.Answers.{answer_text, done_text, kind_word, pull_text, shown_text};
ghost use Rattle.cn_report.specs.Standing.{pending_text};

use crate::names::{put_name, put_pair};
use crate::tables::put_tables;
use cn_base::Standing;
use cn_change::Command;
use cn_core::{Answer, Pull};
use cn_net::Net;
use cn_text::put_number;
use std::alloc::{AllocError, Global};

/// The answer to command `k`, whose kind is this word: it is done.
pub fn print_done(alloc: Global, k: u32, word: &str) -> Result<Vec<u8>, AllocError>
    ensures { IfOk result (λ text. text.items ≡ done_text k word.now) }
{
    let mut text = Vec::new(alloc);
    put_number(alloc, &mut text, u64::from(k))?;
    text.extend_from_slice(b" ")?;
    text.extend_from_slice(word.as_bytes())?;
    text.extend_from_slice(b" done\n")?;
    Ok(text)
}

/// What is pending first, and nothing where nothing is.
fn put_pending(text: &mut Vec<u8>, net: &Net, standing: Standing) -> Result<(), AllocError>
    ensures { OnOk result (text.new.items ≡ text.old.items ++ pending_text net.now standing) }
{
    match standing {
        Standing::Quiet => Ok(()),
        Standing::Mailbox { from, to } => {
            text.extend_from_slice(b" mailbox ")?;
            put_pair(text, net, from, to)
        }
        Standing::Device { device } => {
            text.extend_from_slice(b" device ")?;
            put_name(text, net, device)
        }
    }
}

/// What a pull shows.
fn put_shown(alloc: Global, text: &mut Vec<u8>, net: &Net, pull: &Pull) -> Result<(), AllocError>
    ensures { OnOk result (text.new.items ≡ text.old.items ++ shown_text net.now pull.now) }
{
    match pull {
        Pull::Quiet { tables } => {
            text.extend_from_slice(b"quiet\n")?;
            put_tables(alloc, text, net, tables.items())
        }
        Pull::Again { standing } => {
            text.extend_from_slice(b"again")?;
            put_pending(text, net, *standing)?;
            text.extend_from_slice(b"\n")
        }
    }
}

/// The answer to command `k`, a pull. Of the network it reads the names of the devices.
pub fn print_pull(alloc: Global, net: &Net, k: u32, pull: &Pull) -> Result<Vec<u8>, AllocError>
    ensures { IfOk result (λ text. text.items ≡ pull_text net.now k pull.now) }
{
    let mut text = Vec::new(alloc);
    put_number(alloc, &mut text, u64::from(k))?;
    text.extend_from_slice(b" pull ")?;
    put_shown(alloc, &mut text, net, pull)?;
    // Tables are long: what growth by doubling took too much is given back.
    text.shrink_to_fit();
    Ok(text)
}

// The kind of a command.
fn kind_word(command: &Command) -> &'static str
    ensures { result.now ≡ kind_word command.now }
{
    match command {
        Command::Pull => "pull",
        Command::Work { .. } => "work",
    }
}

/// The answer to command `k`. Of the network it reads the names of the devices.
pub fn print_answer(
    alloc: Global,
    net: &Net,
    k: u32,
    command: &Command,
    answer: &Answer,
) -> Result<Vec<u8>, AllocError>
    ensures { IfOk result (λ text. text.items ≡ answer_text net.now k command.now answer.now) }
{
    match answer {
        Answer::Done => print_done(alloc, k, kind_word(command)),
        Answer::Pulled(pull) => print_pull(alloc, net, k, pull),
    }
}
