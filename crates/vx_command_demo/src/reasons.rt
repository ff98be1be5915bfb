//! The reasons of a sheet.

ghost use Rattle.std.specs.Prelude.{◌≡◌, ◌<◌, ◌≤◌, IfOk, count_by, length, true};
ghost use Rattle.std.specs.List.{list_all};
ghost use Rattle.vx_election_model.specs.Valid.{IsValid};
ghost use Rattle.vx_events.specs.Fits.{is_read};
ghost use Rattle.vx_layout.specs.Flow as flow;
ghost use Rattle.vx_layout.specs.Plans.{ArePlansOf};
ghost use Rattle.vx_sheet.specs.Shows.{IsOfPage};
ghost use Rattle.vx_sheet.specs.Came.{sheet_read};
ghost use Rattle.vx_command_demo.specs.Adding as adding;
ghost use Rattle.vx_command_demo.specs.Sums as spec;

use crate::sums::{ReasonSums, no_reasons};
use std::alloc::Global;
use vx_base::OutOfMemory;
use vx_election_model::{Contest, Election, Reason, ReasonSet};
use vx_layout::{CardPlans, plans_show_each_option};
use vx_rules::{ContestMarks, SheetMarks, is_blank, reasons};
use vx_sheet::{PageRead, read_sheet};

/// The contest with a number.
fn contest_at(election: &Election, number: u32) -> &Contest
    requires { number < length election.now.contests }
    ensures { result.now ≡ flow.contest_at election.now.contests number }
{
    &election.contests.as_slice()[number as usize]
}

/// Whether a reason holds of a contest of a sheet, whether it is enabled or not.
fn has(election: &Election, blank: bool, reason: Reason, marks: &ContestMarks) -> bool
    requires { is_read election.now marks.now ≡ true }
    ensures { result ≡ spec.has election.now blank reason marks.now }
{
    let all = ReasonSet::of([true; 5]);
    let contest = contest_at(election, marks.contest);
    let held = reasons(contest, &marks.states, blank, all);
    held.has(reason)
}

/// For how many of these contests of a sheet it holds.
fn count_of(election: &Election, blank: bool, reason: Reason, contests: &[ContestMarks]) -> u64
    requires { list_all (is_read election.now) contests.now ≡ true }
    ensures count { result ≡ count_by (spec.has election.now blank reason) contests.now }
    ensures few { result ≤ length contests.now }
{
    let mut count = 0;
    for marks in contests {
        if has(election, blank, reason, marks) {
            count += 1;
        }
    }
    count
}

/// For how many contests of a sheet each reason holds.
fn sums_of_sheet(election: &Election, sheet: &SheetMarks) -> ReasonSums
    requires { list_all (is_read election.now) sheet.now.contests ≡ true }
    ensures sums { result ≡ adding.reasons_of_sheet election.now sheet.now }
    ensures few { adding.AreReasonSums (length sheet.now.contests) result }
{
    let blank = is_blank(sheet);
    let contests = sheet.contests.as_slice();
    ReasonSums {
        overvote: count_of(election, blank, Reason::Overvote, contests),
        undervote: count_of(election, blank, Reason::Undervote, contests),
        marginal: count_of(election, blank, Reason::MarginalMark, contests),
        blank: count_of(election, blank, Reason::BlankBallot, contests),
        write_in: count_of(election, blank, Reason::WriteIn, contests),
    }
}

/// For how many contests of the sheet of two pages each reason holds: of none where they are no sheet.
pub(crate) fn sums_of_pages(
    alloc: Global,
    election: &Election,
    plans: &CardPlans,
    front: &PageRead,
    back: &PageRead,
) -> Result<ReasonSums, OutOfMemory>
    requires election { IsValid election.now }
    requires plans { ArePlansOf election.now plans.now }
    requires front { IfOk front.now (IsOfPage election.now) }
    requires back { IfOk back.now (IsOfPage election.now) }
    ensures sums { IfOk result (λ sums. sums ≡ adding.reasons_read election.now
        (sheet_read election.now 1 front.now back.now)) }
    ensures few { IfOk result (adding.AreReasonSums 500) }
{
    plans_show_each_option();
    match read_sheet(alloc, election, plans, 1, front, back)? {
        Ok(sheet) => Ok(sums_of_sheet(election, &sheet)),
        Err(_came) => Ok(no_reasons()),
    }
}
