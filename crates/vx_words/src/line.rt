//! The command line as `clap` reads it.

ghost use Rattle.std.specs.Prelude.{◌≡◌, IfOk, false};
ghost use Rattle.clap.specs.Words.{app_of, shape_of, with_subcommand};
ghost use Rattle.clap.specs.declared.builder.command.Command.TheViews.{out-Command as fields_of};
ghost use Rattle.vx_words.specs.Line.{form, line, with_names};

use crate::name::{NAMES, Name, row_in_table};
use clap::{Arg, Command};
use std::alloc::{AllocError, Global};

/// A command by its name, with one word or more behind it.
fn form<'a>(alloc: Global, name: &'a str) -> Result<Command<'a>, AllocError>
    ensures { IfOk result (λ made. (shape_of made ≡ form name.entry.now)
        × ((fields_of made).has_globals ≡ false)) }
{
    let arguments = Arg::new(alloc, "arguments").num_args(1..);
    Command::new(alloc, name).arg(arguments)
}

/// The command line with one more command.
fn with_form<'a>(alloc: Global, line: Command<'a>, name: &'a str) -> Result<Command<'a>, AllocError>
    ensures { IfOk result (λ made. app_of made ≡ with_subcommand (app_of line.entry) (form name.entry.now)) }
{
    line.subcommand(form(alloc, name)?)
}

/// The command line with more commands, in order.
fn with_forms<'a>(
    alloc: Global,
    mut line: Command<'a>,
    names: &[Name],
) -> Result<Command<'a>, AllocError>
    ensures { IfOk result (λ made. app_of made ≡ with_names (app_of line.entry) names.now) }
{
    for name in names {
        line = with_form(alloc, line, row_in_table(*name).name)?;
    }
    Ok(line)
}

/// All commands, without flags and without `help`.
pub fn command_line<'a>(alloc: Global) -> Result<Command<'a>, AllocError>
    ensures { IfOk result (λ made. app_of made ≡ line) }
{
    let line = Command::new(alloc, "vx")
        .no_binary_name(true)
        .disable_help_flag(true)
        .disable_help_subcommand(true)
        .subcommand_required(true);
    with_forms(alloc, line, &NAMES)
}
