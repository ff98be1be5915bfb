//! The rankings of all groups, gathered in one walk over the sheets in the order of adding. Of the rows that are
//! exported one is held at a time.

ghost use Rattle.std.specs.Prelude.{◌≡◌, ◌+◌, ◌<◌, [], IfOk, OnOk, length, map, take};
ghost use Rattle.vx_center.specs.Exports.{row_at};
ghost use Rattle.vx_center.specs.Places.{sheet_at};
ghost use Rattle.vx_center.specs.Sheets.{sheets_in};
ghost use Rattle.vx_ranked.specs.Rankings as words;
ghost use Rattle.vx_ranked.specs.Rankings.{group_ranked, ranked_by};

use crate::groups::Group;
use crate::sheets::SheetRankings;
use std::alloc::Global;
use vx_base::OutOfMemory;
use vx_center::{Center, ExportSheet};
use vx_rules::SheetMarks;

/// Lets a row go.
fn drop_row(_row: ExportSheet) {}

/// Of each group, no sheets yet.
fn no_sheets(alloc: Global, groups: &[Group]) -> Result<Vec<SheetRankings>, OutOfMemory>
    ensures { IfOk result (λ ranked. ranked.items ≡ map (λ _. words.none_ranked) groups.now) }
{
    let mut ranked = Vec::with_capacity(alloc, groups.len())?;
    for _ in groups {
        ranked.push(SheetRankings::new(alloc))?;
    }
    Ok(ranked)
}

/// Lets each group take the sheet at a place in the order of adding, of which the row is exported.
fn take_row(
    alloc: Global,
    ranked: &mut Vec<SheetRankings>,
    groups: &[Group],
    center: &Center<'_>,
    place: usize,
    sheet: &SheetMarks,
    row: &ExportSheet,
) -> Result<(), OutOfMemory>
    requires there { place < length (sheets_in center.now.events) }
    requires sheet { sheet.now ≡ (sheet_at center.now.events place).sheet }
    requires row { row.now ≡ row_at center.now.election center.now.events place }
    requires so_far { ranked.old.items ≡ map
        (ranked_by center.now.election center.now.events (take place (sheets_in center.now.events))) groups.now }
    ensures { OnOk result (ranked.new.items ≡ map
        (ranked_by center.now.election center.now.events (take (place + 1) (sheets_in center.now.events))) groups.now) }
{
    for (index, group) in groups.iter().enumerate() {
        ranked[index].take_place(alloc, group, center, place, sheet, row)?;
    }
    Ok(())
}

/// Lets each group take the sheet at a place in the order of adding, where it has taken those before it.
fn take_sheet(
    alloc: Global,
    ranked: &mut Vec<SheetRankings>,
    groups: &[Group],
    center: &Center<'_>,
    place: usize,
) -> Result<(), OutOfMemory>
    requires there { place < length (sheets_in center.now.events) }
    requires so_far { ranked.old.items ≡ map
        (ranked_by center.now.election center.now.events (take place (sheets_in center.now.events))) groups.now }
    ensures { OnOk result (ranked.new.items ≡ map
        (ranked_by center.now.election center.now.events (take (place + 1) (sheets_in center.now.events))) groups.now) }
{
    let row = center.row_at(alloc, place)?;
    let sheet = center.sheet_at(place);
    let done = take_row(alloc, ranked, groups, center, place, sheet, &row);
    drop_row(row);
    done
}

/// Lets each group take all sheets.
fn take_sheets(
    alloc: Global,
    ranked: &mut Vec<SheetRankings>,
    groups: &[Group],
    center: &Center<'_>,
) -> Result<(), OutOfMemory>
    requires none { ranked.old.items ≡ map (ranked_by center.now.election center.now.events []) groups.now }
    ensures { OnOk result (ranked.new.items ≡ map (group_ranked center.now.election center.now.events) groups.now) }
{
    for place in 0..center.sheet_count() {
        take_sheet(alloc, ranked, groups, center, place)?;
    }
    Ok(())
}

/// What the sheets of a count rank in each group, in the order of the groups, by the events that were kept. A sheet of
/// a group waits, and has no ranking there, where one of the group's contests on it isn't exported.
pub(crate) fn rank_groups(
    alloc: Global,
    center: &Center<'_>,
    groups: &[Group],
) -> Result<Vec<SheetRankings>, OutOfMemory>
    ensures { IfOk result (λ ranked. ranked.items
        ≡ map (group_ranked center.now.election center.now.events) groups.now) }
{
    let mut ranked = no_sheets(alloc, groups)?;
    take_sheets(alloc, &mut ranked, groups, center)?;
    Ok(ranked)
}
