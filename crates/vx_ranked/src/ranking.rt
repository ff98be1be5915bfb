//! The ranking of a sheet.

ghost use Rattle.std.specs.Prelude.{◌≡◌, false, true, fold, length, not, if◌then◌else◌, IfOk, OnOk, Some};
ghost use Rattle.std.specs.List.{list_any};
ghost use Rattle.std.specs.Option.{option_copied};
ghost use Rattle.vx_ranked.specs.Rankings as words;
ghost use Rattle.vx_ranked.specs.Rankings.{joined, ranking_of};

use crate::members::is_among;
use std::alloc::Global;
use vx_base::OutOfMemory;
use vx_center::Final;
use vx_rounds::Ranking;
use vx_rules::{ContestMarks, SheetMarks};

/// The place of an exported contest. It is no promise.
fn place_of(finals: &[Final], contest: u32) -> usize {
    finals
        .iter()
        .position(|one| one.contest == contest)
        .unwrap_or(0)
}

/// What an exported contest counts as.
fn final_on(finals: &[Final], contest: u32) -> Option<&Final>
    ensures { option_copied result ≡ words.final_on finals.now contest }
{
    finals.iter().find(|one| one.contest == contest)
}

/// The same where each contest stands once. It is likely at that place.
fn final_at(finals: &[Final], contest: u32, likely: usize) -> Option<&Final>
    requires { words.are_ascending finals.now ≡ true }
    ensures { option_copied result ≡ words.final_on finals.now contest }
{
    if let Some(one) = finals.get(likely) {
        if one.contest == contest {
            return Some(one);
        }
    }
    final_on(finals, contest)
}

/// Where the exported contest of the first rank stands; the further ranks' mostly stand behind it. It is no
/// promise.
fn first_place(finals: &[Final], contests: &[u32]) -> usize {
    match contests.first() {
        Some(first) => place_of(finals, *first),
        None => 0,
    }
}

/// Whether a rank ends the list.
fn ends_list(one: &Final) -> bool
    ensures { result ≡ words.ends_list (Some one.now) }
{
    one.ruled || one.selected.as_slice().len() > 1
}

/// Adds a candidate, if it isn't there.
fn join(ranking: &mut Vec<u32>, candidate: u32) -> Result<(), OutOfMemory>
    ensures { OnOk result (ranking.new.items ≡ joined ranking.old.items candidate) }
{
    if !is_among(ranking.as_slice(), candidate) {
        ranking.push(candidate)?;
    }
    Ok(())
}

/// Adds candidates, each that isn't there.
fn join_all(ranking: &mut Vec<u32>, candidates: &[u32]) -> Result<(), OutOfMemory>
    ensures { OnOk result (ranking.new.items ≡ fold joined ranking.old.items candidates.now) }
{
    for candidate in candidates {
        join(ranking, *candidate)?;
    }
    Ok(())
}

/// Adds the candidate of a rank, and answers whether the list goes on.
fn take_rank(ranking: &mut Vec<u32>, rank: Option<&Final>) -> Result<bool, OutOfMemory>
    ensures goes_on { IfOk result (λ goes_on. goes_on ≡ not (words.ends_list (option_copied rank.entry))) }
    ensures list { OnOk result (ranking.new.items ≡
        (if words.ends_list (option_copied rank.entry) then ranking.old.items
        else fold joined ranking.old.items (words.named_by (option_copied rank.entry)))) }
{
    let Some(one) = rank else {
        return Ok(true);
    };
    if ends_list(one) {
        return Ok(false);
    }
    join_all(ranking, one.selected.as_slice())?;
    Ok(true)
}

/// The ranking of a sheet with those exported contests.
#[tactic(auto, unfolding(crate::specs::Rankings::ranking_of))]
fn ranking_of(alloc: Global, finals: &[Final], contests: &[u32]) -> Result<Ranking, OutOfMemory>
    requires { words.are_ascending finals.now ≡ true }
    ensures { IfOk result (λ ranking. ranking ≡ ranking_of finals.now contests.now) }
{
    let mut ranking = Vec::with_capacity(alloc, contests.len())?;
    let mut likely = first_place(finals, contests);
    for contest in contests {
        if !take_rank(&mut ranking, final_at(finals, *contest, likely))? {
            return Ok(Ranking::from_vec(ranking));
        }
        likely = likely.saturating_add(1);
    }
    Ok(Ranking::from_vec(ranking))
}

fn is_of_group(contests: &[u32], marks: &ContestMarks) -> bool
    ensures { result ≡ words.is_of_group contests.now marks.now }
{
    is_among(contests, marks.contest)
}

fn waits_in(finals: &[Final], contests: &[u32], marks: &ContestMarks) -> bool
    ensures { result ≡ words.waits_in finals.now contests.now marks.now }
{
    is_of_group(contests, marks) && final_on(finals, marks.contest).is_none()
}

/// Whether a sheet waits, by a look at each of its contests.
fn is_waiting(contests: &[u32], sheet: &SheetMarks, finals: &[Final]) -> bool
    ensures { result ≡ words.is_waiting contests.now sheet.now finals.now }
{
    sheet
        .contests
        .as_slice()
        .iter()
        .any(|marks| waits_in(finals, contests, marks))
}

/// Whether a sheet waits. It doesn't where as many contests are exported as it has.
pub(crate) fn waits(contests: &[u32], sheet: &SheetMarks, finals: &[Final]) -> bool
    requires whole { length finals.now ≡ length sheet.now.contests
        → words.is_waiting contests.now sheet.now finals.now ≡ false }
    ensures { result ≡ words.is_waiting contests.now sheet.now finals.now }
{
    if finals.len() == sheet.contests.len() {
        return false;
    }
    is_waiting(contests, sheet, finals)
}

fn has_group(contests: &[u32], sheet: &SheetMarks) -> bool
    ensures { result ≡ list_any (words.is_of_group contests.now) sheet.now.contests }
{
    sheet
        .contests
        .as_slice()
        .iter()
        .any(|marks| is_of_group(contests, marks))
}

/// The ranking of a sheet that doesn't wait, if it has one.
pub(crate) fn ranking_by(
    alloc: Global,
    contests: &[u32],
    sheet: &SheetMarks,
    finals: &[Final],
) -> Result<Option<Ranking>, OutOfMemory>
    requires ascending { words.are_ascending finals.now ≡ true }
    requires ready { words.is_waiting contests.now sheet.now finals.now ≡ false }
    ensures { IfOk result (λ ranking.
        words.rankings_by contests.now sheet.now finals.now ≡ words.list_of ranking) }
{
    if has_group(contests, sheet) {
        Ok(Some(ranking_of(alloc, finals, contests)?))
    } else {
        Ok(None)
    }
}
