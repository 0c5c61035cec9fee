ghost use Rattle.std.specs.Prelude.{◌≡◌, IfOk};
ghost use Rattle.clap.specs.Words.{app_of};
ghost use Rattle.commandline.specs.CommandLine as line;
ghost use Rattle.commandline.specs.CommandLine.{IsCommandOf};

use crate::arguments::Argument;
use crate::tables::SUBCOMMANDS;
use clap::Command;
use std::alloc::{AllocError, Global};

/// A command below `mesamon`.
#[derive(Clone, Copy)]
pub(crate) struct Subcommand<'a> {
    /// Its name.
    pub name: &'a str,
    /// What help says of it.
    pub about: &'a str,
    /// Its arguments.
    pub arguments: &'a [Argument<'a>],
}

impl<'a> Subcommand<'a> {
    /// The command as the command line's parser takes it, without the one above it.
    pub fn build(&self, alloc: Global) -> Result<Command<'a>, AllocError>
        ensures { IfOk result (IsCommandOf (line.app_for self.now)) }
    {
        let mut command = Command::new(alloc, self.name).about(self.about);
        for argument in self.arguments {
            command = command.arg(argument.build(alloc))?;
        }
        Ok(command)
    }
}

/// The commands of the program, as the command line's parser takes them.
pub fn command<'a>(alloc: Global) -> Result<Command<'a>, AllocError>
    ensures { IfOk result (λ c. app_of c ≡ line.command_line) }
{
    let command = Command::new(alloc, "mesamon")
        .about("Compiles programs of processes and monitors, and runs them")
        .bin_name("mesamon")?;
    let command = command.no_binary_name(true).subcommand_required(true);
    with_subcommands(alloc, command, subcommands())
}

// The commands below `mesamon`: with them it is the command line.
fn subcommands() -> &'static [Subcommand<'static>]
    ensures { line.with_subcommands line.top_command result.now ≡ line.command_line }
{
    SUBCOMMANDS
}

// A command with subcommands.
fn with_subcommands<'a>(
    alloc: Global,
    command: Command<'a>,
    subcommands: &[Subcommand<'a>],
) -> Result<Command<'a>, AllocError>
    ensures { IfOk result (λ c. app_of c
        ≡ line.with_subcommands (app_of command.entry) subcommands.entry.now) }
{
    let mut command = command;
    for subcommand in subcommands {
        let subcommand = subcommand.build(alloc)?;
        command = command.subcommand(subcommand)?;
    }
    Ok(command)
}
