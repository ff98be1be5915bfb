ghost use Rattle.std.specs.Prelude.{◌≡◌, false, IfOk};
ghost use Rattle.vx_command.specs.Acts.{writing};
ghost use Rattle.vx_command.specs.Devices.{TouchesSink, writes_nothing};
ghost use Rattle.vx_command.specs.Done.{IsWritten};
ghost use Rattle.vx_command_desk.specs.Outcome.{opening_text};
ghost use Rattle.vx_command_desk.specs.Setting.{IsSet, closing_of};

use crate::setting::Setting;
use std::alloc::Global;
use vx_base::{Bytes, OutOfMemory};
use vx_command::{Halt, acts_in_order, write_text};
use vx_desk::{push_first, push_head, push_last, push_tail};
use vx_io::Sink;

/// The head of the page and the first line of data.
#[tactic(auto, unfolding(crate::specs::Outcome::opening_text))]
fn opening(alloc: Global, setting: &Setting<'_>) -> Result<Bytes, OutOfMemory>
    ensures { IfOk result (λ text. text ≡ opening_text setting.now.election.now setting.now.batch.now) }
{
    let mut text = Bytes::new(alloc);
    push_head(&mut text)?;
    push_first(alloc, &mut text, setting.election, setting.batch)?;
    Ok(text)
}

/// The last line of data, behind so many sheets, and the tail of the page.
#[tactic(auto, unfolding(crate::specs::Outcome::closing_text))]
fn closing(alloc: Global, setting: &Setting<'_>, sheets: u64) -> Result<Bytes, OutOfMemory>
    requires { IsSet setting.now }
    ensures { IfOk result (λ text. text ≡ closing_of setting.now sheets) }
{
    let mut end = Bytes::new(alloc);
    push_last(alloc, &mut end, setting.center, setting.batch, sheets)?;
    push_tail(&mut end)?;
    Ok(end)
}

/// Begins the page.
pub(crate) fn open_page<S: Sink>(
    alloc: Global,
    setting: &Setting<'_>,
    out: &mut S,
) -> Result<(), Halt>
    ensures done { IsWritten (writing (opening_text setting.now.election.now setting.now.batch.now))
        (S.taken out.old) (S.taken out.new) result }
    ensures sink { TouchesSink S.Sink out.old out.new result }
    ensures late { writes_nothing false result ≡ false }
{
    acts_in_order();
    let text = opening(alloc, setting)?;
    write_text(out, text.as_slice())
}

/// Ends the page behind so many sheets.
pub(crate) fn close_page<S: Sink>(
    alloc: Global,
    setting: &Setting<'_>,
    sheets: u64,
    out: &mut S,
) -> Result<(), Halt>
    requires { IsSet setting.now }
    ensures done { IsWritten (writing (closing_of setting.now sheets))
        (S.taken out.old) (S.taken out.new) result }
    ensures sink { TouchesSink S.Sink out.old out.new result }
    ensures late { writes_nothing false result ≡ false }
{
    acts_in_order();
    let text = closing(alloc, setting, sheets)?;
    write_text(out, text.as_slice())
}
