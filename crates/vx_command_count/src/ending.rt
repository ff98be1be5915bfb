ghost use Rattle.std.specs.Prelude.{◌≡◌, ◌<◌, ◌^◌, false, IfOk};
ghost use Rattle.vx_command.specs.Acts.{work, writing};
ghost use Rattle.vx_command.specs.Devices.{TouchesSink, writes_nothing};
ghost use Rattle.vx_command.specs.Done.{IsWritten};
ghost use Rattle.vx_journal.specs.Steps.{answer_of};
ghost use Rattle.vx_sheet.specs.Lines.{lines_of};
ghost use Rattle.vx_command_count.specs.Outcome.{counted_text, end_outcome, last_acts, last_tally};
ghost use Rattle.vx_command_count.specs.Tally.{next_number as number_after, sheets_in, tally_with as tally_behind};

use crate::pieces::drop_last;
use crate::setting::Setting;
use crate::sheets::tell;
use crate::tally::{Tally, next_number, tally_with};
use crate::waiting::Waiting;
use std::alloc::Global;
use vx_command::{Halt, acts_in_order, write_text};
use vx_io::Sink;
use vx_sheet::{Came, push_counted};

/// Writes the line of a last image without a second.
fn tell_single<S: Sink>(
    alloc: Global,
    setting: &Setting<'_>,
    tally: Tally,
    out: &mut S,
) -> Result<Tally, Halt>
    requires { sheets_in tally < 2 ^ 62 }
    ensures done { IsWritten (writing (lines_of setting.now.election.now setting.now.batch.now
        (number_after tally) Came.Single)) (S.taken out.old) (S.taken out.new) (answer_of result) }
    ensures tally { IfOk result (λ last. last ≡ tally_behind tally Came.Single) }
    ensures sink { TouchesSink S.Sink out.old out.new result }
    ensures late { writes_nothing false result ≡ false }
{
    tell(alloc, setting, next_number(tally), &Came::Single, out)?;
    Ok(tally_with(tally, &Came::Single))
}

/// Writes the line of a last image that waits for a second, if one does. It isn't read.
fn tell_last<S: Sink>(
    alloc: Global,
    setting: &Setting<'_>,
    tally: Tally,
    waiting: &Waiting,
    out: &mut S,
) -> Result<Tally, Halt>
    requires { sheets_in tally < 2 ^ 62 }
    ensures done { IsWritten (work (last_acts setting.now.election.now setting.now.batch.now tally waiting.now))
        (S.taken out.old) (S.taken out.new) (answer_of result) }
    ensures tally { IfOk result (λ last. last ≡ last_tally tally waiting.now) }
    ensures sink { TouchesSink S.Sink out.old out.new result }
    ensures late { writes_nothing false result ≡ false }
{
    acts_in_order();
    match waiting.image(alloc)? {
        None => Ok(tally),
        Some(image) => {
            drop_last(Some(image));
            tell_single(alloc, setting, tally, out)
        }
    }
}

/// Writes the last line of a count.
fn tell_counted<S: Sink>(alloc: Global, tally: Tally, out: &mut S) -> Result<(), Halt>
    ensures done { IsWritten (writing (counted_text tally)) (S.taken out.old) (S.taken out.new) result }
    ensures sink { TouchesSink S.Sink out.old out.new result }
    ensures late { writes_nothing false result ≡ false }
{
    acts_in_order();
    let mut text = String::new(alloc);
    push_counted(&mut text, tally.added, tally.repeated, tally.unread)?;
    write_text(out, text.as_bytes())
}

/// Ends a count: writes the line of a last image that waits, if one does, and how many sheets were
/// counted.
pub(crate) fn end_count<S: Sink>(
    alloc: Global,
    setting: &Setting<'_>,
    tally: Tally,
    waiting: &Waiting,
    out: &mut S,
) -> Result<(), Halt>
    requires { sheets_in tally < 2 ^ 62 }
    ensures done { IsWritten (end_outcome setting.now.election.now setting.now.batch.now tally waiting.now)
        (S.taken out.old) (S.taken out.new) result }
    ensures sink { TouchesSink S.Sink out.old out.new result }
    ensures late { writes_nothing false result ≡ false }
{
    acts_in_order();
    let all = tell_last(alloc, setting, tally, waiting, out)?;
    tell_counted(alloc, all, out)
}
