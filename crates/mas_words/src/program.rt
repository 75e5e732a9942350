//! The program as a command of `clap`, with a subcommand for each command of the words.
ghost use Rattle.std.specs.Prelude.{IfOk};
ghost use Rattle.mas_words.specs.Program.{IsApp, bare_app, cold_app, dir_app, number_app, program_app};

use clap::{Arg, ArgAction, Command};
use std::alloc::{AllocError, Global};

// A command that takes `--dir D`.
fn with_dir<'a>(alloc: Global, name: &'a str) -> Result<Command<'a>, AllocError>
    ensures { IfOk result (IsApp (dir_app name.entry.now)) }
{
    let dir = Arg::new(alloc, "dir").long("dir");
    Command::new(alloc, name).arg(dir)
}

// A command that takes `--dir D` and `--cold`.
fn with_cold<'a>(alloc: Global, name: &'a str) -> Result<Command<'a>, AllocError>
    ensures { IfOk result (IsApp (cold_app name.entry.now)) }
{
    let cold = Arg::new(alloc, "cold")
        .long("cold")
        .action(ArgAction::SetTrue);
    with_dir(alloc, name)?.arg(cold)
}

// A command that takes `--dir D` and wants a number.
fn with_number<'a>(alloc: Global, name: &'a str) -> Result<Command<'a>, AllocError>
    ensures { IfOk result (IsApp (number_app name.entry.now)) }
{
    let number = Arg::new(alloc, "n").required(true);
    with_dir(alloc, name)?.arg(number)
}

// The program without its commands.
fn bare<'a>(alloc: Global) -> Command<'a>
    ensures { IsApp bare_app result }
{
    Command::new(alloc, "mas")
        .no_binary_name(true)
        .disable_help_flag(true)
        .disable_help_subcommand(true)
        .subcommand_required(true)
}

/// The program, without a help flag or a help subcommand.
pub(crate) fn program<'a>(alloc: Global) -> Result<Command<'a>, AllocError>
    ensures { IfOk result (IsApp program_app) }
{
    bare(alloc)
        .subcommand(with_cold(alloc, "play")?)?
        .subcommand(with_cold(alloc, "race")?)?
        .subcommand(with_dir(alloc, "format")?)?
        .subcommand(with_dir(alloc, "report")?)?
        .subcommand(with_dir(alloc, "check")?)?
        .subcommand(with_number(alloc, "generate")?)
}
