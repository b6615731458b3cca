//! What is read of the texts of scripts, and which commands make a script.

use crate::words::{fault, same, word};
use cn_readscript::{Command, Script, read_script};
use std::alloc::Global;
use std::test::Fail;

// What stands in front of texts and behind them, and the texts, each with what is read of it: the
// commands, or the kind of the first fault with the fault's path.
type Texts = (
    &'static str,
    &'static str,
    &'static [(&'static str, &'static str)],
);

const TEXTS: &[Texts] = &[
    ("", "", WHOLE),
    ("version = 1\ncommand = [", "]\n", COMMANDS),
    ("version = 1\ncommand = [", "]\n", COUNTS),
    (
        "version = 1\ncommand = [{ kind = \"",
        "\" }]\n",
        LATER_KINDS,
    ),
];

const SCRIPT: &str = "version = 1
command = [
  { kind = \"work\", count = 1 },
  { kind = \"pull\" },
  { count = 1000000, kind = \"work\" },
]
";

// Whole texts.
const WHOLE: &[(&str, &str)] = &[
    (SCRIPT, "work 1, pull, work 1000000, "),
    ("version = 1\n", ""),
    ("version = 1\ncommand = []\n", ""),
    ("command = [{ kind = \"pull\" }]\nversion = 1\n", "pull, "),
    (
        "version = 1\n[[command]]\nkind = \"pull\"\n[[command]]\nkind = 'pull'\n",
        "pull, pull, ",
    ),
    ("version =", "toml"),
    ("", "key version"),
    ("z = 1\ncommand = 3\n", "key version"),
    ("version = \"1\"\n", "shape version"),
    ("version = 1.0\n", "shape version"),
    ("version = 0\n", "version 0"),
    ("version = -1\n", "version -1"),
    ("version = 2\ncommand = 3\n", "version 2"),
    ("version = 1\ncommand = 3\n", "shape command"),
    ("version = 1\ncommand = {}\n", "shape command"),
    ("version = 1\na = 1\ncommand = [1]\n", "shape command[0]"),
    ("version = 1\nz = 1\na = 2\n", "key a"),
    ("version = 1\n\"caf\u{e9}\" = 2\n", "key caf??"),
];

// The commands of a text.
const COMMANDS: &[(&str, &str)] = &[
    ("{}", "key command[0].kind"),
    ("{ count = 1 }", "key command[0].kind"),
    ("{ kind = 1 }", "shape command[0].kind"),
    ("{ kind = \"go\", z = 1 }", "value command[0].kind"),
    ("{ kind = \"Pull\" }", "value command[0].kind"),
    ("{ kind = \"pull \" }", "value command[0].kind"),
    ("{ kind = \"pull\", count = 1 }", "key command[0].count"),
    ("{ kind = \"pull\", z = 1, a = \"t1\" }", "key command[0].a"),
    ("{ kind = \"pull\" }, 5", "shape command[1]"),
    ("{ kind = \"go\" }, 5", "value command[0].kind"),
];

// The commands of a text of work.
const COUNTS: &[(&str, &str)] = &[
    ("{ kind = \"work\" }", "key command[0].count"),
    ("{ kind = \"work\", a = 1 }", "key command[0].count"),
    (
        "{ kind = \"work\", count = \"1\" }",
        "shape command[0].count",
    ),
    ("{ kind = \"work\", count = 0 }", "value command[0].count"),
    ("{ kind = \"work\", count = -1 }", "value command[0].count"),
    (
        "{ kind = \"work\", count = 1000001 }",
        "value command[0].count",
    ),
    (
        "{ kind = \"work\", count = 4294967297 }",
        "value command[0].count",
    ),
    (
        "{ kind = \"work\", count = 1, z = 1, b = 2 }",
        "key command[0].b",
    ),
    (
        "{ kind = \"pull\" }, { kind = \"work\", count = 0 }",
        "value command[1].count",
    ),
];

// The kinds of commands that aren't read yet.
const LATER_KINDS: &[(&str, &str)] = &[
    ("reload", "value command[0].kind"),
    ("cut", "value command[0].kind"),
    ("restore", "value command[0].kind"),
    ("reset", "value command[0].kind"),
    ("drain", "value command[0].kind"),
];

fn commands(alloc: Global, commands: &[Command]) -> Result<String, Fail> {
    let mut text = String::new(alloc);
    for command in commands {
        match command {
            Command::Pull => text.push_str("pull, ")?,
            Command::Work { count } => text.push_str(&format!(in alloc; "work {count}, ")?)?,
        }
    }
    Ok(text)
}

// What is read of these bytes.
fn told(alloc: Global, bytes: &[u8]) -> Result<String, Fail> {
    match read_script(alloc, bytes) {
        Ok(script) => commands(alloc, script.items()),
        Err(answer) => fault(alloc, &answer),
    }
}

#[test]
fn texts_are_read_or_not(rt: HostRuntime) -> Result<(), Fail> {
    let alloc = rt.alloc();
    for (front, back, rows) in TEXTS {
        for (text, want) in *rows {
            let whole = format!(in alloc; "{front}{text}{back}")?;
            same(&rt, text, &told(alloc, whole.as_bytes())?, want);
        }
    }
    same(&rt, "no text", &told(alloc, b"version = \xFF")?, "utf8");
    Ok(())
}

// An item and how many times it is written, and how many commands are read, or the first fault.
// Items that are no commands count too.
const LONG: &[(&str, usize, &str)] = &[
    ("{kind=\"pull\"},", 10_000, "10000"),
    ("1,", 10_001, "long 10001"),
];

fn long(alloc: Global, item: &str, times: usize) -> Result<String, Fail> {
    let mut text = word(alloc, "version = 1\ncommand = [")?;
    for _ in 0..times {
        text.push_str(item)?;
    }
    text.push_str("]\n")?;
    match read_script(alloc, text.as_bytes()) {
        Ok(script) => {
            let count = script.items().len();
            Ok(format!(in alloc; "{count}")?)
        }
        Err(answer) => fault(alloc, &answer),
    }
}

// How many pulls there are, the counts of the works behind them, and of how many commands the
// script is that they make, or that they make none.
const MADE: &[(&str, usize, &[u32], &str)] = &[
    ("a count of none", 1, &[0], "none"),
    ("the least count", 1, &[1], "2"),
    ("the largest count", 1, &[1_000_000], "2"),
    ("a count past the largest", 1, &[1_000_001], "none"),
    ("the largest number", 1, &[0xFFFF_FFFF], "none"),
    ("no command", 0, &[], "0"),
    ("most commands", 10_000, &[], "10000"),
    ("one command more", 10_001, &[], "none"),
];

fn made(alloc: Global, pulls: usize, counts: &[u32]) -> Result<String, Fail> {
    let mut commands = Vec::new(alloc);
    for _ in 0..pulls {
        commands.push(Command::Pull)?;
    }
    for count in counts {
        commands.push(Command::Work { count: *count })?;
    }
    if !Script::fits(&commands) {
        return word(alloc, "none");
    }
    let count = Script::make(commands).items().len();
    Ok(format!(in alloc; "{count}")?)
}

#[test]
fn scripts_have_limits(rt: HostRuntime) -> Result<(), Fail> {
    let alloc = rt.alloc();
    for (item, times, want) in LONG {
        same(&rt, item, &long(alloc, item, *times)?, want);
    }
    for (name, pulls, counts, want) in MADE {
        same(&rt, name, &made(alloc, *pulls, *counts)?, want);
    }
    Ok(())
}
