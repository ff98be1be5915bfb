//! Names that were given in words to write-in slots.

ghost use Rattle.std.specs.Prelude.{◌≡◌, ◌<◌, All, OnOk, length, option_map};
ghost use Rattle.std.specs.List.{flat_map};
ghost use Rattle.vx_cvr.specs.Report.{HasItsContests, IsOfElection};
ghost use Rattle.vx_cvr.specs.Votes as votes;
ghost use Rattle.vx_results.specs.Named as spec;
ghost use Rattle.vx_results.specs.Report.{contest_at};
ghost use Rattle.vx_results.specs.Sums.{Adds, AddsEach};

use crate::sums::Sums;
use std::alloc::Global;
use vx_base::OutOfMemory;
use vx_center::{ExportSheet, Final, WriteInName};
use vx_cvr::votes_of;
use vx_election_model::{Contest, Election};

/// The name that an option was given, if it is a slot with one.
fn name_of<'f>(contest: &Contest, counted: &'f Final, option: u32) -> Option<&'f WriteInName>
    ensures { option_map (λ name. name.now) result ≡ votes.name_of contest.now counted.now option }
{
    if (option as usize) < contest.choices.len() {
        return None;
    }
    match counted
        .names
        .as_slice()
        .get(option as usize - contest.choices.len())
    {
        None | Some(None) => None,
        Some(Some(name)) => Some(name),
    }
}

/// The words that an option was given, if it is a slot with some.
fn words_of<'f>(contest: &Contest, counted: &'f Final, option: u32) -> Option<&'f str>
    ensures { option_map (λ words. words.now) result
        ≡ spec.words_in (votes.name_of contest.now counted.now option) }
{
    match name_of(contest, counted, option) {
        Some(WriteInName::Words(words)) => Some(words.as_str()),
        Some(WriteInName::Candidate(_)) | None => None,
    }
}

/// Adds the words that a selected option was given.
fn add_option(
    alloc: Global,
    names: &mut Sums,
    contest: &Contest,
    counted: &Final,
    option: u32,
) -> Result<(), OutOfMemory>
    ensures { OnOk result (Adds (spec.named_by contest.now counted.now option) names.old names.new) }
{
    match words_of(contest, counted, option) {
        None => {}
        Some(words) => names.add(alloc, words, votes_of(contest, counted, option))?,
    }
    Ok(())
}

/// Adds the words that the selected options of a contest of a sheet were given.
fn add_options(
    alloc: Global,
    names: &mut Sums,
    contest: &Contest,
    counted: &Final,
) -> Result<(), OutOfMemory>
    ensures { OnOk result (Adds (flat_map (spec.named_by contest.now counted.now) counted.now.selected)
        names.old names.new) }
{
    for option in counted.selected.as_slice() {
        add_option(alloc, names, contest, counted, *option)?;
    }
    Ok(())
}

/// Adds those of an exported contest to the names of its contest.
fn add_final(
    alloc: Global,
    names: &mut Vec<Sums>,
    election: &Election,
    counted: &Final,
) -> Result<(), OutOfMemory>
    requires there { IsOfElection election.now counted.now }
    requires size { length names.old.items ≡ length election.now.contests }
    ensures { OnOk result (AddsEach (λ contest. spec.named_in election.now contest counted.now)
        names.old.items names.new.items) }
{
    let place = counted.contest as usize;
    let contest = &election.contests.as_slice()[place];
    add_options(alloc, &mut names[place], contest, counted)?;
    Ok(())
}

/// Adds those of a sheet to the names of its contests.
pub(crate) fn add_names(
    alloc: Global,
    names: &mut Vec<Sums>,
    election: &Election,
    row: &ExportSheet,
) -> Result<(), OutOfMemory>
    requires contests { HasItsContests election.now row.now }
    requires size { length names.old.items ≡ length election.now.contests }
    ensures { OnOk result (AddsEach (λ contest. spec.named_on election.now contest row.now)
        names.old.items names.new.items) }
{
    for counted in row.finals.as_slice() {
        add_final(alloc, names, election, counted)?;
    }
    Ok(())
}
