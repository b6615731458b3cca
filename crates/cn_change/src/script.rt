//! Scripts: lists of commands that may be run.

ghost use Rattle.std.specs.Prelude.{◌≡◌, ◌≤◌, ◌↔◌, All, IsTrue, length};
ghost use Rattle.cn_change.specs.Script.{CountFits, IsScript};

use crate::command::Command;
use std::marker::Model;

/// At most 10,000 commands, in which each count is from 1 to 1,000,000. Contracts see the list of
/// the commands.
#[derive(Debug, Drop)]
pub struct Script {
    commands: Vec<Command>,
}

impl Model for Script {
    ghost use Rattle.std.specs.Prelude.{List};
    ghost use Rattle.cn_change.specs.Script.{IsScript};
    ghost use Rattle.cn_change.specs.declared.command.Command.{Command};

    ghost Value = { List Command };

    ghost view = { λ s. s.commands.items };

    ghost invariant = { λ s. IsScript s.commands.items };
}

fn count_fits(command: &Command) -> bool
    ensures { IsTrue result ↔ CountFits command.now }
{
    match command {
        Command::Pull => true,
        Command::Work { count } => 1 <= *count && *count <= 1_000_000,
    }
}

impl Script {
    /// Holds where the commands make a script: the condition of `make`.
    pub fn fits(commands: &[Command]) -> bool
        ensures { IsTrue result ↔ IsScript commands.now }
    {
        commands.len() <= 10_000 && commands.iter().all(|command| count_fits(command))
    }

    /// The script of these commands. It takes no memory.
    pub fn make(commands: Vec<Command>) -> Script
        requires { IsScript commands.items }
        ensures { result ≡ commands.items }
    {
        Script { commands }
    }

    /// The commands, in order.
    pub fn items(&self) -> &[Command]
        ensures same { result.now ≡ self.now }
        ensures few { length result.now ≤ 10000 }
        ensures counts { All CountFits result.now }
    {
        self.commands.as_slice()
    }
}
