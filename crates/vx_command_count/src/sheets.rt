ghost use Rattle.std.specs.Prelude.{◌≡◌, ◌<◌, ◌+◌, ◌^◌, IfErr, IfOk, OnOk, false};
ghost use Rattle.vx_events.specs.Fits.{Fits};
ghost use Rattle.vx_journal.specs.Keeping.{keep_acts, reply_in, journal_with};
ghost use Rattle.vx_command.specs.Acts.{work, writing};
ghost use Rattle.vx_command.specs.Devices.{TouchesKeeper, TouchesSink, TouchesSinkAndKeeper, writes_nothing};
ghost use Rattle.vx_command.specs.Done.{IsDone, IsWritten};
ghost use Rattle.vx_journal.specs.Steps.{IsRecorded, answer_of};
ghost use Rattle.vx_sheet.specs.Lines.{lines_of};
ghost use Rattle.vx_sheet.specs.Came.{sheet_read};
ghost use Rattle.vx_sheet.specs.Shows.{IsOfPage, IsReadAll};
ghost use Rattle.vx_command_count.specs.Setting.{IsSet};
ghost use Rattle.vx_command_count.specs.Sheets as spec;
ghost use Rattle.vx_command_count.specs.Tally.{next_image, sheets_in};

use crate::counting::Counting;
use crate::setting::Setting;
use crate::tally::{next_number, tally_with};
use std::alloc::Global;
use vx_command::{Halt, acts_in_order, write_text};
use vx_events::{Event, Reply, drop_event};
use vx_io::{Keeper, Sink};
use vx_journal::{Journal, keep_event};
use vx_sheet::{Came, PageRead, push_lines, read_event};

/// Lets what a sheet came to go.
fn drop_came(_came: Came) {}

/// What the sheet of an Add that is done comes to.
fn came_done(event: Event) -> Came
    ensures { result ≡ spec.came_by event Reply.Done }
{
    match event {
        Event::Add { sheet, .. } => Came::Added(sheet),
        other => {
            drop_event(other);
            Came::Repeated
        }
    }
}

/// What a sheet comes to by what is answered to its event.
fn came_by(event: Event, reply: Reply) -> Came
    ensures { result ≡ spec.came_by event reply }
{
    match reply {
        Reply::Done => came_done(event),
        Reply::Full(count) => {
            drop_event(event);
            Came::Full(count)
        }
        _ => {
            drop_event(event);
            Came::Repeated
        }
    }
}

/// Keeps the event that adds a sheet, and answers what the sheet came to.
fn keep_sheet<K: Keeper>(
    alloc: Global,
    journal: &mut Journal<'_>,
    keeper: &mut K,
    event: Event,
) -> Result<Came, Halt>
    requires { Fits journal.old.center.election event }
    ensures came { IfOk result (λ came. came ≡ spec.came_by event (reply_in journal.old event)) }
    ensures next { OnOk result (journal.new ≡ journal_with journal.old event) }
    ensures done { IsRecorded (keep_acts journal.old event)
        (K.held keeper.old) (K.held keeper.new) (answer_of result) }
    ensures keeper { TouchesKeeper K.Keeper keeper.old keeper.new result }
{
    let kept = keep_event(alloc, journal, keeper, &event);
    match kept {
        Ok(reply) => Ok(came_by(event, reply)),
        Err(halt) => {
            drop_event(event);
            Err(halt)
        }
    }
}

/// Settles a sheet by the event that it makes, or what it comes to in its place: the event is kept, and
/// answers what the sheet came to.
fn settle<K: Keeper>(
    alloc: Global,
    journal: &mut Journal<'_>,
    keeper: &mut K,
    made: Result<Event, Came>,
) -> Result<Came, Halt>
    requires { IfOk made (Fits journal.old.center.election) }
    ensures came { IfOk result (λ came. came ≡ spec.came_if journal.old made) }
    ensures next { OnOk result (journal.new ≡ spec.journal_if journal.old made) }
    ensures done { IsRecorded (spec.keep_if journal.old made)
        (K.held keeper.old) (K.held keeper.new) (answer_of result) }
    ensures keeper { TouchesKeeper K.Keeper keeper.old keeper.new result }
{
    acts_in_order();
    match made {
        Ok(event) => keep_sheet(alloc, journal, keeper, event),
        Err(came) => Ok(came),
    }
}

/// Writes the lines of the sheet with a number.
pub(crate) fn tell<S: Sink>(
    alloc: Global,
    setting: &Setting<'_>,
    number: u64,
    came: &Came,
    out: &mut S,
) -> Result<(), Halt>
    requires { IsReadAll setting.now.election.now came.now }
    ensures done { IsWritten (writing (lines_of setting.now.election.now setting.now.batch.now number came.now))
        (S.taken out.old) (S.taken out.new) result }
    ensures sink { TouchesSink S.Sink out.old out.new result }
    ensures late { writes_nothing false result ≡ false }
{
    acts_in_order();
    let mut text = String::new(alloc);
    push_lines(&mut text, setting.election, setting.batch, number, came)?;
    write_text(out, text.as_bytes())
}

/// Counts the next sheet by the event that it makes, or what it comes to in its place: its record is
/// appended where the event is kept, and its lines are written then.
fn count_sheet<S: Sink, K: Keeper>(
    alloc: Global,
    setting: &Setting<'_>,
    counting: &mut Counting<'_>,
    made: Result<Event, Came>,
    keeper: &mut K,
    out: &mut S,
) -> Result<(), Halt>
    requires election { counting.old.journal.center.election ≡ setting.now.election.now }
    requires few { sheets_in counting.old.tally < 2 ^ 62 }
    requires fits { IfOk made (Fits setting.now.election.now) }
    requires told { IfErr made (IsReadAll setting.now.election.now) }
    ensures done { IsDone (work (spec.made_acts setting.now.election.now setting.now.batch.now counting.old made))
        (S.taken out.old) (S.taken out.new) (K.held keeper.old) (K.held keeper.new) result }
    ensures next { OnOk result (counting.new ≡ spec.counted_so counting.old made) }
    ensures election { OnOk result (counting.new.journal.center.election ≡ setting.now.election.now) }
    ensures more { OnOk result (sheets_in counting.new.tally ≡ sheets_in counting.old.tally + 1) }
    ensures devices { TouchesSinkAndKeeper S.Sink K.Keeper out.old out.new keeper.old keeper.new result }
    ensures late { writes_nothing false result ≡ false }
{
    acts_in_order();
    let tally = counting.tally;
    let number = next_number(tally);
    let journal = &mut counting.journal;
    let came = settle(alloc, journal, keeper, made)?;
    match tell(alloc, setting, number, &came, out) {
        Ok(()) => {
            counting.tally = tally_with(tally, &came);
            drop_came(came);
            Ok(())
        }
        Err(halt) => {
            drop_came(came);
            Err(halt)
        }
    }
}

/// Counts the next sheet by what its two images are read as.
pub(crate) fn count_pair<S: Sink, K: Keeper>(
    alloc: Global,
    setting: &Setting<'_>,
    counting: &mut Counting<'_>,
    first: &PageRead,
    second: &PageRead,
    keeper: &mut K,
    out: &mut S,
) -> Result<(), Halt>
    requires set { IsSet setting.now }
    requires election { counting.old.journal.center.election ≡ setting.now.election.now }
    requires few { sheets_in counting.old.tally < 2 ^ 62 }
    requires first { IfOk first.now (IsOfPage setting.now.election.now) }
    requires second { IfOk second.now (IsOfPage setting.now.election.now) }
    ensures done { IsDone (work (spec.sheet_acts setting.now.election.now setting.now.batch.now counting.old
        (sheet_read setting.now.election.now (next_image counting.old.tally) first.now second.now)))
        (S.taken out.old) (S.taken out.new) (K.held keeper.old) (K.held keeper.new) result }
    ensures next { OnOk result (counting.new ≡ spec.counted_with setting.now.batch.now counting.old
        (sheet_read setting.now.election.now (next_image counting.old.tally) first.now second.now)) }
    ensures election { OnOk result (counting.new.journal.center.election ≡ setting.now.election.now) }
    ensures more { OnOk result (sheets_in counting.new.tally ≡ sheets_in counting.old.tally + 1) }
    ensures devices { TouchesSinkAndKeeper S.Sink K.Keeper out.old out.new keeper.old keeper.new result }
    ensures late { writes_nothing false result ≡ false }
{
    acts_in_order();
    let number = next_number(counting.tally);
    let (election, plans) = (setting.election, setting.plans);
    let made = read_event(alloc, election, plans, setting.batch, number, first, second)?;
    count_sheet(alloc, setting, counting, made, keeper, out)
}
