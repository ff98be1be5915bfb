ghost use Rattle.vx_words.specs.Words.{Parses};

use crate::command::Command;
use crate::deciding::is_command;
use crate::fault::UsageFault;
use crate::reading::read_words;
use std::alloc::Global;
use vx_io::Words;

/// The command that the words spell, or Usage exactly where they spell none. Reading words takes
/// memory; where it runs out, whether they spell a command is decided without any.
pub fn parse(alloc: Global, words: &Words) -> Result<Command, UsageFault>
    ensures { Parses words.now result }
{
    match read_words(alloc, words) {
        Err(UsageFault::OutOfMemory) => Err(if is_command(words) {
            UsageFault::OutOfMemory
        } else {
            UsageFault::Usage
        }),
        read => read,
    }
}
