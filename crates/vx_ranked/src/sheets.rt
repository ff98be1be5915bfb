//! The rankings of the sheets of a count in a group.

ghost use Rattle.std.specs.Prelude.{◌≡◌, ◌+◌, ◌<◌, ◌^◌, ◌++◌, OnOk, true, false, if◌then◌else◌, length, take};
ghost use Rattle.vx_center.specs.Exports.{row_at};
ghost use Rattle.vx_center.specs.Places.{sheet_at};
ghost use Rattle.vx_center.specs.Sheets.{sheets_in};
ghost use Rattle.vx_ranked.specs.Rankings as words;
ghost use Rattle.vx_ranked.specs.Rankings.{ranked_by, rankings_by};

use crate::groups::Group;
use crate::ranking::{ranking_by, waits};
use std::alloc::Global;
use vx_base::OutOfMemory;
use vx_center::{Center, ExportSheet, Final, added_sheets_fit};
use vx_rounds::Rankings;
use vx_rules::SheetMarks;

/// What the sheets of a count rank in a group.
#[derive(Drop)]
pub struct SheetRankings {
    /// The rankings of the sheets that have one, in the order of adding.
    pub rankings: Rankings,
    /// How many sheets wait: a contest of the group on them isn't exported.
    pub waiting: u64,
}

impl SheetRankings {
    /// No sheets yet; takes no memory.
    pub(crate) fn new(alloc: Global) -> SheetRankings
        ensures { result ≡ words.none_ranked }
    {
        SheetRankings {
            rankings: Rankings::new(alloc),
            waiting: 0,
        }
    }

    /// Takes a sheet with those exported contests.
    fn take_sheet(
        &mut self,
        alloc: Global,
        contests: &[u32],
        sheet: &SheetMarks,
        finals: &[Final],
    ) -> Result<(), OutOfMemory>
        requires room { self.old.waiting + 1 < 2 ^ 64 }
        requires ascending { words.are_ascending finals.now ≡ true }
        requires whole { length finals.now ≡ length sheet.now.contests
            → words.is_waiting contests.now sheet.now finals.now ≡ false }
        ensures rankings { OnOk result (self.new.rankings
            ≡ self.old.rankings ++ rankings_by contests.now sheet.now finals.now) }
        ensures waiting { OnOk result (self.new.waiting ≡ self.old.waiting
            + (if words.is_waiting contests.now sheet.now finals.now then 1 else 0)) }
    {
        if waits(contests, sheet, finals) {
            self.waiting += 1;
        } else if let Some(ranking) = ranking_by(alloc, contests, sheet, finals)? {
            self.rankings.push(ranking)?;
        }
        Ok(())
    }

    /// Takes the sheet at a place in the order of adding, of which the row is exported, behind the sheets before it.
    pub(crate) fn take_place(
        &mut self,
        alloc: Global,
        group: &Group,
        center: &Center<'_>,
        _place: usize,
        sheet: &SheetMarks,
        row: &ExportSheet,
    ) -> Result<(), OutOfMemory>
        requires there { _place < length (sheets_in center.now.events) }
        requires sheet { sheet.now ≡ (sheet_at center.now.events _place).sheet }
        requires row { row.now ≡ row_at center.now.election center.now.events _place }
        requires so_far { self.old
            ≡ ranked_by center.now.election center.now.events (take _place (sheets_in center.now.events)) group.now }
        ensures { OnOk result (self.new
            ≡ ranked_by center.now.election center.now.events (take (_place + 1) (sheets_in center.now.events))
            group.now) }
    {
        added_sheets_fit();
        let (_kept, _count) = (center.events(), center.sheet_count());
        let contests = group.contests.as_slice();
        let finals = row.finals.as_slice();
        self.take_sheet(alloc, contests, sheet, finals)?;
        Ok(())
    }
}
