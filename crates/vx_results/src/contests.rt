//! The units of a report, and its contests with their selections.

ghost use Rattle.std.specs.Prelude.{◌≡◌, ◌++◌, All, IfOk, OnOk, map};
ghost use Rattle.vx_election_model.specs.declared.named.Named.{Named};
ghost use Rattle.vx_cvr.specs.Names as names;
ghost use Rattle.vx_results.specs.Report as spec;

use std::alloc::Global;
use vx_base::OutOfMemory;
use vx_cvr::{contest_name, precinct_name, selection_name};
use vx_election_model::{Contest, Election, Named};
use vx_json::{Text, Texts};
use vx_tally::{ReportContest, ReportContests};

fn precinct_unit(alloc: Global, id: &str) -> Result<Text, OutOfMemory>
    ensures { IfOk result (λ name. name ≡ names.precinct_name id.now) }
{
    let name = precinct_name(alloc, id)?;
    Ok(Text::from_string(name))
}

/// Puts precincts behind other units.
fn push_precincts(
    alloc: Global,
    units: &mut Vec<Text>,
    precincts: &[Named],
) -> Result<(), OutOfMemory>
    ensures { OnOk result (units.new.items
        ≡ units.old.items ++ map (λ (named : Named). names.precinct_name named.id) precincts.now) }
{
    for named in precincts {
        units.push(precinct_unit(alloc, named.id.as_str())?)?;
    }
    Ok(())
}

/// All of the election, and its precincts.
pub(crate) fn units_of(alloc: Global, election: &Election) -> Result<Texts, OutOfMemory>
    ensures { IfOk result (λ units. units ≡ spec.units_of election.now) }
{
    let scope = Text::from_str(alloc, "scope")?;
    let mut units = vec![in alloc; scope]?;
    push_precincts(alloc, &mut units, election.precincts.as_slice())?;
    Ok(Texts::from_vec(units))
}

/// A selection of a contest, by its option's number.
fn selection(alloc: Global, contest: &str, option: usize) -> Result<Text, OutOfMemory>
    ensures { IfOk result (λ name. name ≡ names.selection_name contest.now option) }
{
    let name = selection_name(alloc, contest, option)?;
    Ok(Text::from_string(name))
}

/// The selections of a contest: one for each option.
fn selections_of(alloc: Global, contest: &Contest) -> Result<Texts, OutOfMemory>
    requires { spec.HasFewOptions contest.now }
    ensures { IfOk result (λ selections. selections ≡ spec.selections_of contest.now) }
{
    let mut selections = Vec::new(alloc);
    for option in 0..contest.options() as usize {
        selections.push(selection(alloc, contest.id.as_str(), option)?)?;
    }
    Ok(Texts::from_vec(selections))
}

fn contest_of(alloc: Global, contest: &Contest) -> Result<ReportContest, OutOfMemory>
    requires { spec.HasFewOptions contest.now }
    ensures { IfOk result (λ made. made ≡ spec.contest_of contest.now) }
{
    let id = contest_name(alloc, contest.id.as_str())?;
    let selections = selections_of(alloc, contest)?;
    Ok(ReportContest {
        id: Text::from_string(id),
        selections,
    })
}

/// The contests of an election, in order.
pub(crate) fn contests_of(alloc: Global, election: &Election) -> Result<ReportContests, OutOfMemory>
    requires { All spec.HasFewOptions election.now.contests }
    ensures { IfOk result (λ made. made ≡ map spec.contest_of election.now.contests) }
{
    let mut made = Vec::new(alloc);
    for contest in election.contests.as_slice() {
        made.push(contest_of(alloc, contest)?)?;
    }
    Ok(ReportContests::from_vec(made))
}
