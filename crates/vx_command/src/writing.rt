ghost use Rattle.std.specs.Prelude.{◌≡◌, false, Bool};
ghost use Rattle.vx_command.specs.Acts.{writing};
ghost use Rattle.vx_command.specs.Devices.{TouchesSink, writes_nothing};
ghost use Rattle.vx_command.specs.Done.{IsWritten};

use crate::halt::Halt;
use vx_io::{Sink, give};

/// Writes a text whole. Where the sink fails a front of it may be taken.
pub fn write_text<S: Sink>(out: &mut S, text: &[u8]) -> Result<(), Halt>
    ensures done { IsWritten (writing text.now) (S.taken out.old) (S.taken out.new) result }
    ensures sink { TouchesSink S.Sink out.old out.new result }
    // It is no answer of a command that has written nothing.
    ensures late { (first : Bool) → writes_nothing first result ≡ false }
{
    match give(out, text) {
        Ok(()) => Ok(()),
        Err(_failed) => Err(Halt::WriteFault),
    }
}
