//! The command that the words are read by.
ghost use Rattle.std.specs.Prelude.{◌≡◌, IfOk, false, codes};
ghost use Rattle.clap.specs.Words.{app_of, rule_of, shape_of, with_subcommand};
ghost use Rattle.clap.specs.declared.builder.command.Command.TheViews.{out-Command};
ghost use Rattle.cluster_config.specs.Command.{alone, base, with_value, value_rule, ritas};

use clap::{Arg, ArgAction, Command};
use std::alloc::{AllocError, Global};

// The value that says what is to be written.
fn value<'a>(alloc: Global) -> Arg<'a>
    ensures rule { rule_of result ≡ value_rule }
    ensures global { result.global ≡ false }
{
    Arg::new(alloc, "what")
        .required(true)
        .action(ArgAction::Set)
}

fn with_value<'a>(alloc: Global, name: &'a str) -> Result<Command<'a>, AllocError>
    ensures shape { IfOk result (λ c. shape_of c ≡ with_value name.entry.now) }
    ensures globals { IfOk result (λ c. (out-Command c).has_globals ≡ false) }
{
    Command::new(alloc, name).arg(value(alloc))
}

fn alone<'a>(alloc: Global, name: &'a str) -> Command<'a>
    ensures shape { shape_of result ≡ alone name.entry.now }
    ensures globals { (out-Command result).has_globals ≡ false }
{
    Command::new(alloc, name)
}

// The command and a subcommand that takes a value.
fn and_with_value<'a>(
    alloc: Global,
    command: Command<'a>,
    name: &'a str,
) -> Result<Command<'a>, AllocError>
    ensures { IfOk result (λ c. app_of c ≡ with_subcommand (app_of command.entry) (with_value name.entry.now)) }
{
    command.subcommand(with_value(alloc, name)?)
}

// The command and a subcommand that takes nothing.
fn and_alone<'a>(
    alloc: Global,
    command: Command<'a>,
    name: &'a str,
) -> Result<Command<'a>, AllocError>
    ensures { IfOk result (λ c. app_of c ≡ with_subcommand (app_of command.entry) (alone name.entry.now)) }
{
    command.subcommand(alone(alloc, name))
}

// Its flags and subcommand of help are left out.
fn base<'a>(alloc: Global) -> Command<'a>
    ensures { app_of result ≡ base }
{
    Command::new(alloc, "ritas")
        .disable_help_flag(true)
        .disable_help_subcommand(true)
        .subcommand_required(true)
}

/// The program's command.
pub(crate) fn ritas<'a>(alloc: Global) -> Result<Command<'a>, AllocError>
    ensures { IfOk result (λ c. app_of c ≡ ritas) }
{
    let command = and_with_value(alloc, base(alloc), "replay")?;
    let command = and_with_value(alloc, command, "drive")?;
    let command = and_alone(alloc, command, "keys")?;
    let command = and_alone(alloc, command, "node")?;
    let command = and_alone(alloc, command, "cluster")?;
    let command = and_alone(alloc, command, "submit")?;
    and_alone(alloc, command, "watch")
}
