ghost use Rattle.std.specs.Prelude.{◌≡◌, slice_get, true};
ghost use Rattle.vx_election_model.specs.Valid.{IsValid};
ghost use Rattle.vx_rules.specs.Reasons.{is_blank_sheet};
ghost use Rattle.vx_events.specs.Fits.{is_read, is_sheet};
ghost use Rattle.vx_center.specs.Waiting as spec;
ghost use Rattle.vx_center.specs.Waiting.{FirstFrom, FirstSheetFrom, IsNextWaiting, exports_by, waits_at, waits_by};

use crate::center::Center;
use crate::counting::is_decided;
use crate::decided::Decided;
use vx_election_model::{Election, Reason, ReasonSet};
use vx_rules::{ContestMarks, SheetMarks, is_blank, reasons};

/// Whether a set has any reason.
fn has_any(set: ReasonSet) -> bool
    ensures { result ≡ spec.has_any set }
{
    set.has(Reason::Overvote)
        || set.has(Reason::Undervote)
        || set.has(Reason::MarginalMark)
        || set.has(Reason::BlankBallot)
        || set.has(Reason::WriteIn)
}

/// Whether a contest of a sheet of which so much was decided is exported.
pub(crate) fn is_exported(
    election: &Election,
    sheet_blank: bool,
    decided: &[Decided],
    marks: &ContestMarks,
) -> bool
    requires { is_read election.now marks.now ≡ true }
    ensures { result ≡ exports_by election.now sheet_blank decided.now marks.now }
{
    match election.contests.as_slice().get(marks.contest as usize) {
        None => false,
        Some(contest) => {
            is_decided(marks.contest, decided)
                || !has_any(reasons(contest, &marks.states, sheet_blank, election.reasons))
        }
    }
}

/// Whether the contest at a place of a sheet waits.
fn waits(
    election: &Election,
    sheet: &SheetMarks,
    sheet_blank: bool,
    decided: &[Decided],
    place: usize,
) -> bool
    requires valid { IsValid election.now }
    requires fits { is_sheet election.now sheet.now ≡ true }
    requires blank { sheet_blank ≡ is_blank_sheet sheet.now }
    ensures { result ≡ waits_by election.now sheet.now decided.now (slice_get sheet.now.contests place) }
{
    match sheet.contests.as_slice().get(place) {
        None => false,
        Some(marks) => !is_exported(election, sheet_blank, decided, marks),
    }
}

/// The first contest from a place on of a sheet that waits.
fn waiting_from(
    election: &Election,
    sheet: &SheetMarks,
    decided: &[Decided],
    from: usize,
) -> Option<u32>
    requires valid { IsValid election.now }
    requires fits { is_sheet election.now sheet.now ≡ true }
    ensures { FirstFrom
        (λ contest. waits_by election.now sheet.now decided.now (slice_get sheet.now.contests contest))
        from result }
{
    let sheet_blank = is_blank(sheet);
    let count = sheet.contests.len();
    for place in from..count {
        if waits(election, sheet, sheet_blank, decided, place) {
            return Some(place as u32);
        }
    }
    None
}

impl<'e> Center<'e> {
    /// The first contest from a place on that waits on the sheet with this place.
    fn waiting_on(&self, sheet: usize, from: usize) -> Option<u32>
        ensures { FirstFrom (waits_at self.now.election self.now.events sheet) from result }
    {
        match self.found(sheet) {
            None => None,
            Some(found) => waiting_from(self.election(), found.sheet, found.entry.decided(), from),
        }
    }

    /// What waits first from a sheet on.
    fn waiting_after(&self, from: usize) -> Option<(u32, u32)>
        ensures { FirstSheetFrom self.now.election self.now.events from result }
    {
        for sheet in from..self.sheet_count() {
            if let Some(contest) = self.waiting_on(sheet, 0) {
                return Some((sheet as u32, contest));
            }
        }
        None
    }

    /// The sheet and the contest that wait next behind such a pair, or first of all. A sheet is told by
    /// its place in the order of adding, a contest by its place on the sheet, both from 0. A whole queue
    /// is one walk over the sheets. Takes no memory.
    pub fn next_waiting(&self, after: Option<(u32, u32)>) -> Option<(u32, u32)>
        ensures { IsNextWaiting self.now.election self.now.events after result }
    {
        let (sheet, contest) = match after {
            None => (0u32, 0),
            Some((sheet, contest)) => (sheet, contest as usize + 1),
        };
        match self.waiting_on(sheet as usize, contest) {
            Some(contest) => Some((sheet, contest)),
            None => self.waiting_after(sheet as usize + 1),
        }
    }
}
