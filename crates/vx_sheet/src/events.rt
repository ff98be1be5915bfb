ghost use Rattle.std.specs.Prelude.{◌≡◌, ◌<◌, ◌*◌, ◌-◌, ◌^◌, true, IfErr, IfOk, Ok};
ghost use Rattle.vx_election_model.specs.Valid.{IsValid};
ghost use Rattle.vx_events.specs.Fits.{Fits, is_batch};
ghost use Rattle.vx_layout.specs.Plans.{ArePlansOf};
ghost use Rattle.vx_sheet.specs.Came.{sheet_read};
ghost use Rattle.vx_sheet.specs.Events as spec;
ghost use Rattle.vx_sheet.specs.Shows.{IsOfPage, IsReadAll, PlansShowOptions};

use crate::came::Came;
use crate::reading::{PageRead, read_sheet};
use std::alloc::Global;
use vx_base::OutOfMemory;
use vx_election_model::Election;
use vx_events::{Event, Key};
use vx_json::Text;
use vx_layout::CardPlans;
use vx_rules::SheetMarks;

/// The most that a sheet's number may be.
pub const NUMBER_LIMIT: u32 = 999_999;

/// The event that adds a sheet.
fn add_event(
    alloc: Global,
    batch: &str,
    number: u32,
    sheet: SheetMarks,
) -> Result<Event, OutOfMemory>
    ensures { IfOk result (λ event. event ≡ Event.Add (record { batch = batch.now; number = number }) sheet) }
{
    let key = Key {
        batch: Text::from_str(alloc, batch)?,
        number,
    };
    Ok(Event::Add { key, sheet })
}

/// The event that adds the sheet with a number, unless that is above the most.
fn event_within(
    alloc: Global,
    batch: &str,
    number: u64,
    sheet: SheetMarks,
) -> Result<Result<Event, Came>, OutOfMemory>
    ensures { IfOk result (λ made. made ≡ spec.event_of batch.now number (Ok sheet)) }
{
    if number > u64::from(NUMBER_LIMIT) {
        return Ok(Err(Came::Beyond));
    }
    let event = add_event(alloc, batch, number as u32, sheet)?;
    Ok(Ok(event))
}

/// The event of the sheet with a number, of whose images this was read, or what it comes to.
fn event_of(
    alloc: Global,
    batch: &str,
    number: u64,
    read: Result<SheetMarks, Came>,
) -> Result<Result<Event, Came>, OutOfMemory>
    ensures { IfOk result (λ made. made ≡ spec.event_of batch.now number read) }
{
    match read {
        Ok(sheet) => event_within(alloc, batch, number, sheet),
        Err(came) => Ok(Err(came)),
    }
}

/// The event of the sheet of a batch with a number, whose two images were read so, or what it comes to in
/// its place: it is added where they are a sheet, unless its number is above the most. Sheet n is the
/// images 2n - 1 and 2n.
pub fn read_event(
    alloc: Global,
    election: &Election,
    plans: &CardPlans,
    batch: &str,
    number: u64,
    first: &PageRead,
    second: &PageRead,
) -> Result<Result<Event, Came>, OutOfMemory>
    requires election { IsValid election.now }
    requires plans { ArePlansOf election.now plans.now }
    requires shown { PlansShowOptions election.now }
    requires batch { is_batch batch.now ≡ true }
    requires some { 0 < number }
    requires room { number < 2 ^ 63 }
    requires first { IfOk first.now (IsOfPage election.now) }
    requires second { IfOk second.now (IsOfPage election.now) }
    ensures exact { IfOk result (λ made. made ≡ spec.event_of batch.now number
        (sheet_read election.now (2 * number - 1) first.now second.now)) }
    ensures fits { IfOk result (λ made. IfOk made (Fits election.now)) }
    ensures told { IfOk result (λ made. IfErr made (IsReadAll election.now)) }
{
    let image = 2 * number - 1;
    let read = read_sheet(alloc, election, plans, image, first, second)?;
    let made = event_of(alloc, batch, number, read)?;
    Ok(made)
}
