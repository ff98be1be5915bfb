//! Words, split by `clap`.

ghost use Rattle.std.specs.Prelude.{◌≡◌, ◌≢◌, ◌<◌, ◌^◌, All, length, map};
ghost use Rattle.clap.specs.Words.{kind_of};
ghost use Rattle.vx_words.specs.declared.fault.UsageFault.TheVariants.{Usage};
ghost use Rattle.vx_words.specs.Line.{IsSplit};
ghost use Rattle.vx_words.specs.Words.{IsArgument, Reads};

use crate::arguments::{are_arguments, row_of};
use crate::command::Command;
use crate::fault::UsageFault;
use crate::line::command_line;
use crate::making::command_of;
use clap::ArgMatches;
use clap::error::{Error, ErrorKind};
use std::alloc::Global;
use vx_io::Words;

/// The command of words that `clap` has split.
fn command_in(alloc: Global, _words: &[&str], found: &ArgMatches<'_>) -> Result<Command, UsageFault>
    requires { IsSplit (map (λ word. word.now) _words.now) found.now }
    ensures { Reads (map (λ word. word.now) _words.now) result }
{
    let Some((name, behind)) = found.subcommand() else {
        return Err(UsageFault::Usage);
    };
    let Some(arguments) = behind.get_strs("arguments") else {
        return Err(UsageFault::Usage);
    };
    command_of(alloc, name, arguments)
}

/// What an error of `clap` says of the words.
fn fault_of(error: Error) -> UsageFault
    ensures { result ≡ Usage → kind_of error ≢ ErrorKind.OutOfMemory }
{
    match error.kind() {
        ErrorKind::OutOfMemory => UsageFault::OutOfMemory,
        _ => UsageFault::Usage,
    }
}

/// The command that words spell which may all be arguments.
fn split(alloc: Global, words: &[&str]) -> Result<Command, UsageFault>
    requires few { length (map (λ word. word.now) words.now) < 2 ^ 32 }
    requires arguments { All IsArgument (map (λ word. word.now) words.now) }
    ensures { Reads (map (λ word. word.now) words.now) result }
{
    match command_line(alloc)?.try_get_matches_from(words) {
        Ok(found) => command_in(alloc, words, &found),
        Err(error) => Err(fault_of(error)),
    }
}

/// The command that the words spell, or Usage where they spell none.
pub fn read_words(alloc: Global, words: &Words) -> Result<Command, UsageFault>
    ensures { Reads words.now result }
{
    if !are_arguments(words, 0) {
        return Err(UsageFault::Usage);
    }
    let row = row_of(alloc, words)?;
    split(alloc, row.as_slice())
}
