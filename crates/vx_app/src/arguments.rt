ghost use Rattle.std.specs.Prelude.{◌≡◌, ◌≤◌, IfOk, drop, length, map, string_bytes};
ghost use Rattle.vx_app.specs.Arguments.{IsCommandLine, status_without};

use std::alloc::{AllocError, Global};
use std::io::ErrorKind;
use vx_command::Status;
use vx_io::Words;

/// The most words that a command is read from; a command line never has so many.
const MOST_WORDS: usize = 1_000_000;

/// The arguments from the third on, as words.
fn words_behind(alloc: Global, arguments: &[String]) -> Result<Words, AllocError>
    requires some { 2 ≤ length arguments.now }
    requires few { length arguments.now ≤ 1000002 }
    ensures { IfOk result (λ words. words ≡ drop 2 (map (λ text. string_bytes text) arguments.now)) }
{
    let mut words = Words::new(alloc);
    for index in 2..arguments.len() {
        words.push(arguments[index].as_str())?;
    }
    Ok(words)
}

/// The words of a command, from the program's arguments: those behind the program's name and the
/// journal's. Usage where there is no journal.
pub fn command_words(alloc: Global, arguments: &[String]) -> Result<Words, Status>
    ensures { IsCommandLine (map (λ text. string_bytes text) arguments.now) result }
{
    if arguments.len() < 2 || arguments.len() - 2 > MOST_WORDS {
        return Err(Status::Usage);
    }
    match words_behind(alloc, arguments) {
        Ok(words) => Ok(words),
        Err(_refused) => Err(Status::NoMemory),
    }
}

/// The status where the arguments can't be had: Usage where they aren't all UTF-8.
pub fn arguments_status(fault: ErrorKind) -> Status
    ensures { result ≡ status_without fault }
{
    match fault {
        ErrorKind::InvalidData => Status::Usage,
        _ => Status::NoMemory,
    }
}
