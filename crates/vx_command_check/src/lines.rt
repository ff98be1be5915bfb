ghost use Rattle.std.specs.Prelude.{◌≡◌, ◌++◌, Ok, OnOk, string_bytes};
ghost use Rattle.vx_base.specs.Refusals.{Gives};
ghost use Rattle.vx_command.specs.Steps.{is_no_memory};
ghost use Rattle.vx_command_check.specs.Answers as answers;

use std::alloc::Global;
use vx_base::Bytes;
use vx_command::Halt;

/// The line of a page that is certified.
pub(crate) fn certified_line(alloc: Global, number: u32) -> Result<Bytes, Halt>
    ensures { Gives is_no_memory result (Ok (answers.certified_line number)) }
{
    let mut text = String::new(alloc);
    write!(text, "page {number} certified\n")?;
    Ok(Bytes::from_vec(text.into_bytes()))
}

/// The line of a page that the readings say couldn't be read.
pub(crate) fn no_reading_line(alloc: Global, number: u32) -> Result<Bytes, Halt>
    ensures { Gives is_no_memory result (Ok (answers.no_reading_line number)) }
{
    let mut text = String::new(alloc);
    write!(text, "page {number} no reading\n")?;
    Ok(Bytes::from_vec(text.into_bytes()))
}
