//! What mailboxes hold and hand back.

use crate::words::same;
use cn_mail::Mailbox;
use std::alloc::Global;
use std::test::Fail;

// What is asked of a mailbox.
enum Ask {
    Front,
    Pop,
    Push(u8),
    Clear,
}

use Ask::{Clear, Front, Pop, Push};

// A case, how many numbers are put into a mailbox, from 0 on, what is asked of it then, and what it
// answers, with how many it holds in the end and whether that is none.
const CASES: &[(&str, u8, &[Ask], &str)] = &[
    (
        "messages leave as they came",
        3,
        &[Front, Pop, Pop, Pop, Pop],
        "Some(0) Some(0) Some(1) Some(2) None 0 true",
    ),
    (
        "a full mailbox hands back",
        64,
        &[Push(64)],
        "Err(64) 64 false",
    ),
    (
        "room comes back",
        64,
        &[Pop, Push(64), Front],
        "Some(0) Ok(()) Some(1) 64 false",
    ),
    ("a cleared mailbox is empty", 64, &[Clear], "0 true"),
    (
        "a cleared mailbox takes messages",
        64,
        &[Clear, Push(7)],
        "Ok(()) 1 false",
    ),
];

// A mailbox that holds these numbers, the first in front.
fn holding(alloc: Global, count: u8) -> Result<Mailbox<u8>, Fail> {
    let mut mailbox = Mailbox::new(alloc)?;
    for number in 0..count {
        mailbox.push(number).ok().ok_or("full")?;
    }
    Ok(mailbox)
}

fn size(alloc: Global, mailbox: &Mailbox<u8>) -> Result<String, Fail> {
    Ok(format!(in alloc; "{} {}", mailbox.len(), mailbox.is_empty())?)
}

fn answer(alloc: Global, mailbox: &mut Mailbox<u8>, ask: &Ask) -> Result<String, Fail> {
    match ask {
        Front => Ok(format!(in alloc; "{:?} ", mailbox.front())?),
        Pop => Ok(format!(in alloc; "{:?} ", mailbox.pop())?),
        Push(number) => Ok(format!(in alloc; "{:?} ", mailbox.push(*number))?),
        Clear => {
            mailbox.clear();
            Ok(String::new(alloc))
        }
    }
}

fn told(alloc: Global, count: u8, asks: &[Ask]) -> Result<String, Fail> {
    let mut mailbox = holding(alloc, count)?;
    let mut text = String::new(alloc);
    for ask in asks {
        text.push_str(&answer(alloc, &mut mailbox, ask)?)?;
    }
    text.push_str(&size(alloc, &mailbox)?)?;
    Ok(text)
}

#[test]
fn mailboxes_answer(rt: HostRuntime) -> Result<(), Fail> {
    for (case, count, asks, text) in CASES {
        same(&rt, case, &told(rt.alloc(), *count, asks)?, text);
    }
    Ok(())
}
