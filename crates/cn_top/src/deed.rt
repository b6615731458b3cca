//! What a call means to do once its files are read, and how that is done.

ghost use Rattle.std.specs.Prelude.{◌≡◌, IfOk};
ghost use Rattle.cn_outside.specs.Scene.{scene};
ghost use Rattle.cn_outside.specs.Shelf.{SameReads};
ghost use Rattle.cn_top.specs.Deed.{deed_view, write_view};
ghost use Rattle.cn_top.specs.Ending.{Ends, PutsTexts, WritesOne};
ghost use Rattle.cn_top.specs.Meaning.{plan_deed, run_deed};
ghost use Rattle.cn_top.specs.Wrong.{line, refusal_of, unread_deed, usage_deed};

use crate::serial::Run;
use crate::status::Status;
use crate::texts;
use crate::wrong::Wrong;
use cn_base::Items;
use cn_net::Certified;
use cn_outside::{Out, Shelf, WriteAnswer};
use std::alloc::{AllocError, Global};

/// What is written, and under which name.
#[derive(Drop)]
pub struct Written<'a> {
    pub name: &'a str,
    pub octets: Items<u8>,
}

/// What a call does after its reads: it writes, if it is to, then puts the texts, one put each, and
/// ends with the status.
#[derive(Drop)]
pub struct Deed<'a> {
    pub status: Status,
    pub write: Option<Written<'a>>,
    pub puts: Items<Items<u8>>,
}

impl<'a> Deed<'a> {
    /// One line.
    fn line(alloc: Global, status: Status, text: Vec<u8>) -> Result<Deed<'a>, AllocError>
        ensures { IfOk result (λ deed. deed_view deed ≡ line status text.items) }
    {
        let mut puts = Vec::new(alloc);
        puts.push(Items::make(text))?;
        Ok(Deed {
            status,
            write: None,
            puts: Items::make(puts),
        })
    }

    /// The words are no listed form.
    pub fn usage(alloc: Global) -> Result<Deed<'a>, AllocError>
        ensures { IfOk result (λ deed. deed_view deed ≡ usage_deed) }
    {
        let text = Vec::from_slice(alloc, texts::usage_line())?;
        Deed::line(alloc, Status::Usage, text)
    }

    /// The file of this name couldn't be read.
    pub fn unread(alloc: Global, name: &str) -> Result<Deed<'a>, AllocError>
        ensures { IfOk result (λ deed. deed_view deed ≡ unread_deed name.now) }
    {
        let text = texts::unread_line(alloc, name)?;
        Deed::line(alloc, Status::ReadFault, text)
    }

    /// This is wrong with the file of this name.
    pub fn wrong(alloc: Global, file: &str, wrong: &Wrong) -> Result<Deed<'a>, AllocError>
        ensures { IfOk result (λ deed. deed_view deed ≡ refusal_of file.now wrong.now) }
    {
        let text = wrong.text(alloc, file)?;
        Deed::line(alloc, wrong.status(), text)
    }

    /// The plan whose boundary is safe.
    pub fn plan(alloc: Global, certified: &Certified) -> Result<Deed<'a>, AllocError>
        ensures { IfOk result (λ deed. deed_view deed ≡ plan_deed certified.now) }
    {
        let text = texts::plan_text(alloc, certified)?;
        Deed::line(alloc, Status::Ok, text)
    }

    /// The run of a script, with its trace under this name.
    pub fn run(trace: &'a str, run: Run) -> Deed<'a>
        ensures { deed_view result ≡ run_deed trace.now run }
    {
        Deed {
            status: Status::Ok,
            write: Some(Written {
                name: trace,
                octets: run.trace,
            }),
            puts: run.texts,
        }
    }
}

/// Puts the texts, each by one put, in their order.
fn put_all<O: Out>(alloc: Global, out: &mut O, texts: &[Items<u8>]) -> Result<(), WriteAnswer>
    ensures { PutsTexts texts.now (O.printed out.old) (O.printed out.new) result }
{
    for text in texts {
        match out.put(alloc, text.items()) {
            Ok(()) => {}
            Err(WriteAnswer::Failed) => return Err(WriteAnswer::Failed),
            Err(WriteAnswer::Memory) => return Err(WriteAnswer::Memory),
        }
    }
    Ok(())
}

/// Writes what is to be written, if anything is.
fn write_one<S: Shelf>(
    alloc: Global,
    shelf: &mut S,
    write: &Option<Written<'_>>,
) -> Result<(), WriteAnswer>
    ensures write { WritesOne (write_view write.now) (S.files shelf.old) (S.files shelf.new)
        result }
    ensures reads { SameReads (S.files shelf.old) (S.files shelf.new) }
{
    match write {
        None => Ok(()),
        Some(written) => match shelf.write(alloc, written.name, written.octets.items()) {
            Ok(()) => Ok(()),
            Err(WriteAnswer::Failed) => Err(WriteAnswer::Failed),
            Err(WriteAnswer::Memory) => Err(WriteAnswer::Memory),
        },
    }
}

/// Does the deed, and says how it ended.
pub fn carry_out<S: Shelf, O: Out>(
    alloc: Global,
    shelf: &mut S,
    out: &mut O,
    deed: &Deed<'_>,
) -> Status
    ensures ends { Ends (scene (S.files shelf.old) (O.printed out.old))
        (scene (S.files shelf.new) (O.printed out.new)) (deed_view deed.now) result }
    ensures reads { SameReads (S.files shelf.old) (S.files shelf.new) }
{
    match write_one(alloc, shelf, &deed.write) {
        Err(WriteAnswer::Failed) => Status::WriteFault,
        Err(WriteAnswer::Memory) => Status::NoMemory,
        Ok(()) => match put_all(alloc, out, deed.puts.items()) {
            Ok(()) => deed.status,
            Err(WriteAnswer::Failed) => Status::WriteFault,
            Err(WriteAnswer::Memory) => Status::NoMemory,
        },
    }
}
