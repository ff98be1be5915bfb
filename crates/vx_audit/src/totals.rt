//! The text of the totals of a report.

ghost use Rattle.std.specs.Prelude.{◌≡◌, ◌<◌, ◌≤◌, ◌++◌, All, IfOk, OnOk, length, string_bytes};
ghost use Rattle.vx_tally.specs.Running.{SumsUp, summed_in};
ghost use Rattle.vx_tally.specs.Totals.{AreCountable};
ghost use Rattle.vx_audit.specs.Sized.{HasFew, IsSized};
ghost use Rattle.vx_audit.specs.Totals as lines;
ghost use Rattle.vx_audit.specs.Walk.{by_place};

use crate::units::push_units;
use std::alloc::Global;
use vx_base::OutOfMemory;
use vx_json::Text;
use vx_tally::{CvrRecord, Report, ReportContest, Totals, drop_totals};

/// What records sum up to.
pub fn totals_of(alloc: Global, records: &[CvrRecord]) -> Result<Totals, OutOfMemory>
    requires { AreCountable records.now }
    ensures { IfOk result (SumsUp records.now) }
{
    let mut totals = Totals::new(alloc);
    for one in records {
        totals.add(alloc, one)?;
    }
    Ok(totals)
}

/// Adds the line of a selection.
fn push_total(
    text: &mut String,
    contest: &str,
    selection: &str,
    votes: u64,
) -> Result<(), OutOfMemory>
    ensures { OnOk result (string_bytes text.new ≡ string_bytes text.old
        ++ lines.total_line contest.now selection.now votes) }
{
    write!(text, "total {contest} {selection} {votes}\n")
}

/// Adds the lines of the selections of the contest at a place.
fn push_selections(
    text: &mut String,
    totals: &Totals,
    place: u32,
    contest: &str,
    selections: &[Text],
) -> Result<(), OutOfMemory>
    requires { length selections.now ≤ 1000000 }
    ensures { OnOk result (string_bytes text.new ≡ string_bytes text.old
        ++ by_place (lines.selection_total (summed_in totals.now) place contest.now) 0 selections.now) }
{
    for (selection, name) in selections.iter().enumerate() {
        let votes = totals.total(place, selection as u32);
        push_total(text, contest, name.as_str(), votes)?;
    }
    Ok(())
}

/// Adds the lines of the contest at a place.
fn push_contest(
    text: &mut String,
    totals: &Totals,
    place: u32,
    contest: &ReportContest,
) -> Result<(), OutOfMemory>
    requires { HasFew contest.now }
    ensures { OnOk result (string_bytes text.new ≡ string_bytes text.old
        ++ lines.contest_totals (summed_in totals.now) place contest.now) }
{
    let (over, under) = (totals.over(place), totals.under(place));
    let id = contest.id.as_str();
    write!(text, "contest {id} over {over} under {under}\n")?;
    push_selections(text, totals, place, id, contest.selections.as_slice())?;
    Ok(())
}

/// Adds the lines of all contests.
fn push_contests(
    text: &mut String,
    totals: &Totals,
    contests: &[ReportContest],
) -> Result<(), OutOfMemory>
    requires few { length contests.now ≤ 1000000 }
    requires selections { All HasFew contests.now }
    ensures { OnOk result (string_bytes text.new ≡ string_bytes text.old
        ++ by_place (lines.contest_totals (summed_in totals.now)) 0 contests.now) }
{
    for (place, contest) in contests.iter().enumerate() {
        push_contest(text, totals, place as u32, contest)?;
    }
    Ok(())
}

/// What `totals` writes of sums, with the contests and the units that they are of.
#[tactic(auto, unfolding(crate::specs::Totals::sums_text))]
pub fn sums_text(
    alloc: Global,
    contests: &[ReportContest],
    units: &[Text],
    totals: &Totals,
) -> Result<String, OutOfMemory>
    requires few { length contests.now ≤ 1000000 }
    requires selections { All HasFew contests.now }
    ensures { IfOk result (λ text. string_bytes text
        ≡ lines.sums_text (summed_in totals.now) contests.now units.now) }
{
    let mut text = String::new(alloc);
    push_contests(&mut text, totals, contests)?;
    push_units(alloc, &mut text, totals, contests, units)?;
    write!(text, "records {}\n", totals.len())?;
    Ok(text)
}

/// What `totals` writes of a report.
#[tactic(auto, unfolding(crate::specs::Totals::totals_text))]
pub fn totals_text(alloc: Global, report: &Report) -> Result<String, OutOfMemory>
    requires { IsSized report.now }
    ensures { IfOk result (λ text. string_bytes text ≡ lines.totals_text report.now) }
{
    let (contests, units) = (report.contests.as_slice(), report.units.as_slice());
    let totals = totals_of(alloc, report.records.as_slice())?;
    let text = sums_text(alloc, contests, units, &totals);
    drop_totals(totals);
    text
}
