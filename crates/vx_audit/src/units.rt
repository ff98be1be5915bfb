//! The lines of the totals of units.

ghost use Rattle.std.specs.Prelude.{◌≡◌, ◌++◌, OnOk, option_copied, string_bytes};
ghost use Rattle.std.specs.List.{flat_map};
ghost use Rattle.vx_tally.specs.Running.{summed_in};
ghost use Rattle.vx_audit.specs.Cells.{cell_line, selection_at};
ghost use Rattle.vx_audit.specs.Totals as lines;
ghost use Rattle.vx_audit.specs.Walk.{by_place};

use std::alloc::Global;
use vx_base::OutOfMemory;
use vx_json::Text;
use vx_tally::{Cell, ReportContest, Totals};

/// The id of the selection at a place of the contest at a place.
fn selection_at(contests: &[ReportContest], contest: u32, selection: u32) -> Option<&Text>
    ensures { option_copied result ≡ selection_at contests.now contest selection }
{
    match contests.get(contest as usize) {
        None => None,
        Some(found) => found.selections.as_slice().get(selection as usize),
    }
}

/// Adds the line of a selection in a unit, where there are votes.
fn push_votes(text: &mut String, unit: &str, selection: &str, votes: u64) -> Result<(), OutOfMemory>
    ensures { OnOk result (string_bytes text.new ≡ string_bytes text.old
        ++ lines.unit_line unit.now selection.now votes) }
{
    if votes == 0 {
        return Ok(());
    }
    write!(text, "unit {unit} {selection} {votes}\n")
}

/// Adds the line of a cell, where there are votes.
fn push_cell(
    text: &mut String,
    totals: &Totals,
    contests: &[ReportContest],
    units: &[Text],
    cell: Cell,
) -> Result<(), OutOfMemory>
    ensures { OnOk result (string_bytes text.new ≡ string_bytes text.old
        ++ cell_line (summed_in totals.now) contests.now units.now cell) }
{
    let (unit, contest, selection) = cell;
    let Some(id) = units.get(unit as usize) else {
        return Ok(());
    };
    let Some(name) = selection_at(contests, contest, selection) else {
        return Ok(());
    };
    let votes = totals.total_in(unit, contest, selection);
    push_votes(text, id.as_str(), name.as_str(), votes)?;
    Ok(())
}

/// Adds the lines of cells, one after another.
fn push_cells(
    text: &mut String,
    totals: &Totals,
    contests: &[ReportContest],
    units: &[Text],
    cells: &[Cell],
) -> Result<(), OutOfMemory>
    ensures { OnOk result (string_bytes text.new ≡ string_bytes text.old
        ++ flat_map (cell_line (summed_in totals.now) contests.now units.now) cells.now) }
{
    for cell in cells {
        push_cell(text, totals, contests, units, *cell)?;
    }
    Ok(())
}

/// Adds the lines of all units. Only cells of which there are votes are looked at.
pub(crate) fn push_units(
    alloc: Global,
    text: &mut String,
    totals: &Totals,
    contests: &[ReportContest],
    units: &[Text],
) -> Result<(), OutOfMemory>
    ensures { OnOk result (string_bytes text.new ≡ string_bytes text.old
        ++ by_place (lines.unit_totals (summed_in totals.now) contests.now) 0 units.now) }
{
    let cells = totals.cells(alloc)?;
    push_cells(text, totals, contests, units, cells.as_slice())?;
    Ok(())
}
