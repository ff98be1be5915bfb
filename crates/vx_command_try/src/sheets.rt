ghost use Rattle.std.specs.Prelude.{◌≡◌, ◌<◌, ◌-◌, ◌*◌, ◌^◌, IfOk, false};
ghost use Rattle.vx_command.specs.Acts.{writing};
ghost use Rattle.vx_command.specs.Devices.{TouchesSink, writes_nothing};
ghost use Rattle.vx_command.specs.Done.{IsWritten};
ghost use Rattle.vx_walk.specs.Steps.{WalksSheet};
ghost use Rattle.vx_walk.specs.Walked.{waits};
ghost use Rattle.vx_sheet.specs.Came.{sheet_read};
ghost use Rattle.vx_sheet.specs.Shows.{IsOfPage};
ghost use Rattle.vx_command_try.specs.Lines as lines;
ghost use Rattle.vx_command_try.specs.Outcome.{end_outcome, no_sheet, sheet_outcome, sheet_step};
ghost use Rattle.vx_command_try.specs.Setting.{IsSet};

use crate::lines::{cause_of, push_no_sheet, push_sheet, push_tried};
use crate::setting::Setting;
use std::alloc::Global;
use vx_bits::BitView;
use vx_command::{Halt, acts_in_order, write_text};
use vx_count::CounterMemory;
use vx_io::Sink;
use vx_rules::SheetMarks;
use vx_sheet::{Came, PageRead, read_image, read_sheet};

/// Writes the line of the sheet with a number.
fn tell_sheet<S: Sink>(
    alloc: Global,
    number: u64,
    sheet: &SheetMarks,
    out: &mut S,
) -> Result<(), Halt>
    ensures done { IsWritten (writing (lines.sheet_line number sheet.now)) (S.taken out.old) (S.taken out.new) result }
    ensures sink { TouchesSink S.Sink out.old out.new result }
    ensures late { writes_nothing false result ≡ false }
{
    acts_in_order();
    let mut text = String::new(alloc);
    push_sheet(&mut text, number, sheet)?;
    write_text(out, text.as_bytes())
}

/// Writes why the images of the sheet with a number are none.
fn tell_no_sheet<S: Sink>(alloc: Global, number: u64, came: &Came, out: &mut S) -> Result<(), Halt>
    ensures done { IsWritten (writing (lines.no_sheet_line number came.now)) (S.taken out.old) (S.taken out.new) result }
    ensures sink { TouchesSink S.Sink out.old out.new result }
    ensures late { writes_nothing false result ≡ false }
{
    acts_in_order();
    let mut text = String::new(alloc);
    push_no_sheet(&mut text, number, came)?;
    write_text(out, text.as_bytes())
}

/// Writes why the images of the sheet with a number are none, and halts so.
fn refuse<S: Sink>(alloc: Global, number: u64, came: &Came, out: &mut S) -> Result<(), Halt>
    ensures done { IsWritten (no_sheet number came.now) (S.taken out.old) (S.taken out.new) result }
    ensures sink { TouchesSink S.Sink out.old out.new result }
    ensures late { writes_nothing false result ≡ false }
{
    acts_in_order();
    tell_no_sheet(alloc, number, came, out)?;
    Err(Halt::NoSheet(number, cause_of(came)))
}

/// Tells the sheet with a number by what was read of its images; halts where they are none.
fn tell<S: Sink>(
    alloc: Global,
    number: u64,
    read: &Result<SheetMarks, Came>,
    out: &mut S,
) -> Result<(), Halt>
    ensures done { WalksSheet (sheet_outcome number read.now) (S.taken out.old) (S.taken out.new) result }
    ensures sink { TouchesSink S.Sink out.old out.new result }
    ensures late { writes_nothing false result ≡ false }
{
    acts_in_order();
    match read {
        Ok(sheet) => tell_sheet(alloc, number, sheet, out),
        Err(came) => refuse(alloc, number, came, out),
    }
}

/// Tries the sheet with a number by what its two images are read as.
fn try_pair<S: Sink>(
    alloc: Global,
    setting: &Setting<'_>,
    number: u64,
    first: &PageRead,
    second: &PageRead,
    out: &mut S,
) -> Result<(), Halt>
    requires set { IsSet setting.now }
    requires some { 0 < number }
    requires few { number < 2 ^ 62 }
    requires first { IfOk first.now (IsOfPage setting.now.election.now) }
    requires second { IfOk second.now (IsOfPage setting.now.election.now) }
    ensures done { WalksSheet (sheet_outcome number (sheet_read setting.now.election.now (2 * number - 1) first.now second.now))
        (S.taken out.old) (S.taken out.new) result }
    ensures sink { TouchesSink S.Sink out.old out.new result }
    ensures late { writes_nothing false result ≡ false }
{
    acts_in_order();
    let (election, plans) = (setting.election, setting.plans);
    let image = 2 * number - 1;
    let read = read_sheet(alloc, election, plans, image, first, second)?;
    tell(alloc, number, &read, out)
}

/// Reads the two images of the sheet with a number, in the memory of the last counter, and tries it.
pub(crate) fn try_images<S: Sink>(
    alloc: Global,
    counter: &mut CounterMemory,
    setting: &Setting<'_>,
    number: u64,
    first: &BitView<'_>,
    second: &BitView<'_>,
    out: &mut S,
) -> Result<(), Halt>
    requires set { IsSet setting.now }
    requires some { 0 < number }
    requires few { number < 2 ^ 62 }
    ensures done { WalksSheet (sheet_step setting.now.election.now number first.now second.now)
        (S.taken out.old) (S.taken out.new) result }
    ensures sink { TouchesSink S.Sink out.old out.new result }
    ensures late { writes_nothing false result ≡ false }
{
    acts_in_order();
    let (election, plans) = (setting.election, setting.plans);
    let first_read = read_image(alloc, counter, election, plans, first)?;
    let second_read = read_image(alloc, counter, election, plans, second)?;
    try_pair(alloc, setting, number, &first_read, &second_read, out)
}

/// Writes the last line: how many sheets there are.
fn tell_tried<S: Sink>(alloc: Global, sheets: u64, out: &mut S) -> Result<(), Halt>
    requires { sheets < 2 ^ 62 }
    ensures done { IsWritten (writing (lines.tried_line sheets)) (S.taken out.old) (S.taken out.new) result }
    ensures sink { TouchesSink S.Sink out.old out.new result }
    ensures late { writes_nothing false result ≡ false }
{
    acts_in_order();
    let mut text = String::new(alloc);
    push_tried(&mut text, sheets)?;
    write_text(out, text.as_bytes())
}

/// Ends a `try`: how many sheets there are; or the last image has no second, and the command halts.
pub(crate) fn end_try<S: Sink>(
    alloc: Global,
    sheets: u64,
    left: Option<BitView<'_>>,
    out: &mut S,
) -> Result<(), Halt>
    requires { sheets < 2 ^ 62 }
    ensures done { IsWritten (end_outcome sheets (waits left.entry)) (S.taken out.old) (S.taken out.new) result }
    ensures sink { TouchesSink S.Sink out.old out.new result }
    ensures late { writes_nothing false result ≡ false }
{
    match left {
        None => tell_tried(alloc, sheets, out),
        Some(_) => refuse(alloc, sheets + 1, &Came::Single, out),
    }
}
