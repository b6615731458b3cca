//! The program: the host's files and standard output below the calls of `cn_top`.
//!
//! It hands the arguments to `command` and ends with the number of the status. The contract that
//! says what it does is that of `command`; here stands only what no contract speaks of.
#![tactic(auto)]

use cn_outside::{HostOut, HostShelf};
use cn_top::{Status, command};
use std::alloc::{AllocError, Global};
use std::env;
use std::io::ErrorKind;
use std::process::ExitCode;

/// The arguments after the program's name. Where one of them is no text, whichever it is, the
/// command line is faulty: there are no words then, which no form has. An Err is want of memory.
fn words_of(rt: &HostRuntime, alloc: Global) -> Result<Vec<String>, AllocError> {
    let mut words = Vec::new(alloc);
    let arguments = match env::args(rt) {
        Ok(arguments) => arguments,
        Err(error) if error.kind() == ErrorKind::OutOfMemory => return Err(AllocError),
        Err(_) => return Ok(words),
    };
    for word in arguments.skip(1) {
        words.push(word)?;
    }
    Ok(words)
}

fn run(rt: HostRuntime) -> Result<Status, AllocError> {
    let alloc = rt.alloc();
    let words = words_of(&rt, alloc)?;
    let files: HostRuntime = rt.clone()?;
    let mut shelf = HostShelf::new(alloc, files);
    let mut out = HostOut::new(rt);
    Ok(command(alloc, words.as_slice(), &mut shelf, &mut out))
}

fn main(rt: HostRuntime) -> ExitCode {
    let status = match run(rt) {
        Ok(status) => status,
        Err(_) => Status::NoMemory,
    };
    ExitCode::from(status.number())
}
