ghost use Rattle.std.specs.Prelude.{◌≡◌, IfOk, false};
ghost use Rattle.vx_sheet.specs.Reads.{IsReadOf};
ghost use Rattle.vx_command.specs.Devices.{TouchesSink, writes_nothing};
ghost use Rattle.vx_walk.specs.Steps.{WalksSheet};
ghost use Rattle.vx_command_desk.specs.Setting.{IsSet, step_of, text_in};

use crate::setting::Setting;
use std::alloc::Global;
use vx_base::{Bytes, OutOfMemory};
use vx_bits::BitView;
use vx_command::{Halt, acts_in_order, write_text};
use vx_count::CounterMemory;
use vx_desk::{push_sheet, waits};
use vx_io::Sink;
use vx_sheet::{PageRead, read_image};

/// What both images of a sheet are read as. The memory that reading takes is let go with it: a sheet's text
/// takes as much.
fn read_both(
    alloc: Global,
    setting: &Setting<'_>,
    first: &BitView<'_>,
    second: &BitView<'_>,
) -> Result<(PageRead, PageRead), OutOfMemory>
    requires set { IsSet setting.now }
    ensures { IfOk result (λ both.
        IsReadOf setting.now.election.now first.now both.0
        × IsReadOf setting.now.election.now second.now both.1) }
{
    let mut counter = CounterMemory::new(alloc);
    let (election, plans) = (setting.election, setting.plans);
    let first_read = read_image(alloc, &mut counter, election, plans, first)?;
    let second_read = read_image(alloc, &mut counter, election, plans, second)?;
    Ok((first_read, second_read))
}

/// Reads both images of the sheet with a number, and makes its text. The room that most texts take is taken at
/// once: a text that grows step by step leaves the memory of each step behind.
fn read_sheet(
    alloc: Global,
    setting: &Setting<'_>,
    scan: &str,
    number: u64,
    first: &BitView<'_>,
    second: &BitView<'_>,
) -> Result<Bytes, OutOfMemory>
    requires { IsSet setting.now }
    ensures { IfOk result (λ text. text ≡ text_in setting.now scan.now number first.now second.now) }
{
    let (first_read, second_read) = read_both(alloc, setting, first, second)?;
    let room = first.rows().len().saturating_add(second.rows().len());
    let mut text = Bytes::with_capacity(alloc, room)?;
    push_sheet(
        alloc,
        &mut text,
        setting.election,
        setting.plans,
        setting.center,
        setting.batch,
        scan,
        number,
        first,
        &first_read,
        second,
        &second_read,
    )?;
    Ok(text)
}

/// Makes the text of the sheet with a number. Where nothing of it waits that is empty, and its images aren't
/// read.
fn make_text(
    alloc: Global,
    setting: &Setting<'_>,
    scan: &str,
    number: u64,
    first: &BitView<'_>,
    second: &BitView<'_>,
) -> Result<Bytes, OutOfMemory>
    requires { IsSet setting.now }
    ensures { IfOk result (λ text. text ≡ text_in setting.now scan.now number first.now second.now) }
{
    if waits(setting.center, setting.batch, number) {
        read_sheet(alloc, setting, scan, number, first, second)
    } else {
        Ok(Bytes::new(alloc))
    }
}

/// Writes the text of the sheet with a number, of its two images in the scan with a name. Its memory is let go with it, since reading
/// the next sheet takes as much.
pub(crate) fn write_sheet<S: Sink>(
    alloc: Global,
    setting: &Setting<'_>,
    scan: &str,
    number: u64,
    first: &BitView<'_>,
    second: &BitView<'_>,
    out: &mut S,
) -> Result<(), Halt>
    requires set { IsSet setting.now }
    ensures done { WalksSheet (step_of setting.now scan.now number first.now second.now)
        (S.taken out.old) (S.taken out.new) result }
    ensures sink { TouchesSink S.Sink out.old out.new result }
    ensures late { writes_nothing false result ≡ false }
{
    acts_in_order();
    let text = make_text(alloc, setting, scan, number, first, second)?;
    write_text(out, text.as_slice())
}
