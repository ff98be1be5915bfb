//! What the results of a count tell of its sheets, counted in the order of adding.

ghost use Rattle.std.specs.Prelude.{◌+◌, ◌<◌, ◌≡◌, ◌≤◌, [], IfOk, OnOk, length, take};
ghost use Rattle.vx_election_model.specs.Valid.{IsValid};
ghost use Rattle.vx_styles.specs.Cards.{cards_of};
ghost use Rattle.vx_center.specs.Sheets.{sheets_in};
ghost use Rattle.vx_cvr.specs.Report.{HasItsContests};
ghost use Rattle.vx_tally.specs.Running.{summed_in};
ghost use Rattle.vx_tally.specs.Totals.{IsCountable};
ghost use Rattle.vx_results.specs.Report as report;
ghost use Rattle.vx_results.specs.Telling.{AreCounted, HasSheet};

use crate::records::record_of;
use std::alloc::Global;
use vx_base::OutOfMemory;
use vx_center::{Center, ExportSheet};
use vx_election_model::Election;
use vx_rules::SheetMarks;
use vx_styles::{Card, cards};
use vx_tally::Totals;

/// What is counted of sheets.
#[derive(Drop)]
pub(crate) struct Counted {
    /// What their records sum up to.
    pub(crate) totals: Totals,
    /// How many of their contests wait.
    pub(crate) waiting: u64,
}

/// Counts a sheet, which was read as that, and of which the row is exported.
fn count_row(
    alloc: Global,
    counted: &mut Counted,
    election: &Election,
    cards: &[Card],
    sheet: &SheetMarks,
    row: &ExportSheet,
) -> Result<(), OutOfMemory>
    requires valid { IsValid election.now }
    requires cards { cards.now ≡ cards_of election.now }
    requires contests { HasItsContests election.now row.now }
    requires few { (summed_in counted.old.totals).count < 1000000000 }
    requires countable { IsCountable (report.record_of election.now row.now) }
    requires finals { length row.now.finals ≤ length sheet.now.contests }
    ensures { OnOk result (HasSheet election.now sheet.now row.now counted.old counted.new) }
{
    let left = sheet.contests.len() - row.finals.len();
    let made = record_of(alloc, election, cards, row)?;
    counted.totals.add(alloc, &made)?;
    counted.waiting = counted.waiting.checked_add(left as u64).ok_or(OutOfMemory)?;
    Ok(())
}

/// Counts the sheet at a place in the order of adding, where those before it are counted.
fn count_sheet(
    alloc: Global,
    counted: &mut Counted,
    election: &Election,
    cards: &[Card],
    center: &Center<'_>,
    place: usize,
) -> Result<(), OutOfMemory>
    requires valid { IsValid election.now }
    requires cards { cards.now ≡ cards_of election.now }
    requires same { center.now.election ≡ election.now }
    requires there { place < length (sheets_in center.now.events) }
    requires so_far { AreCounted election.now center.now.events (take place (sheets_in center.now.events)) counted.old }
    ensures { OnOk result
        (AreCounted election.now center.now.events (take (place + 1) (sheets_in center.now.events)) counted.new) }
{
    let (_kept, _count) = (center.events(), center.sheet_count());
    let row = center.row_at(alloc, place)?;
    let sheet = center.sheet_at(place);
    count_row(alloc, counted, election, cards, sheet, &row)?;
    Ok(())
}

/// Counts all sheets.
fn count_sheets(
    alloc: Global,
    counted: &mut Counted,
    election: &Election,
    cards: &[Card],
    center: &Center<'_>,
) -> Result<(), OutOfMemory>
    requires valid { IsValid election.now }
    requires cards { cards.now ≡ cards_of election.now }
    requires same { center.now.election ≡ election.now }
    requires none { AreCounted election.now center.now.events [] counted.old }
    ensures { OnOk result (AreCounted election.now center.now.events (sheets_in center.now.events) counted.new) }
{
    for place in 0..center.sheet_count() {
        count_sheet(alloc, counted, election, cards, center, place)?;
    }
    Ok(())
}

/// What is counted of all sheets of a journal. Of each sheet the row and the record are let go before the next.
pub(crate) fn count(
    alloc: Global,
    election: &Election,
    center: &Center<'_>,
) -> Result<Counted, OutOfMemory>
    requires valid { IsValid election.now }
    requires same { center.now.election ≡ election.now }
    ensures { IfOk result (AreCounted election.now center.now.events (sheets_in center.now.events)) }
{
    let cards = cards(alloc, election)?;
    let mut counted = Counted {
        totals: Totals::new(alloc),
        waiting: 0,
    };
    count_sheets(alloc, &mut counted, election, cards.as_slice(), center)?;
    Ok(counted)
}

/// Lets what was counted go.
pub(crate) fn drop_counted(_counted: Counted) {}
