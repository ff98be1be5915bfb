//! What an exported contest of a sheet counts as.

ghost use Rattle.std.specs.Prelude.{◌≡◌, ◌≤◌, ◌<◌, ◌^◌, length, option_map};
ghost use Rattle.vx_cvr.specs.Votes as spec;
ghost use Rattle.vx_cvr.specs.Report.{choice_at as choice_of, written_name as written_name_of, voted_for as voted_for_of, snapshot_kind as snapshot_kind_of, is_modified as is_modified_of};

use vx_center::{Final, WriteInName};
use vx_election_model::Contest;
use vx_grid::State;

pub fn is_overvoted(contest: &Contest, counted: &Final) -> bool
    ensures { result ≡ spec.is_overvoted contest.now counted.now }
{
    counted.ruled || counted.selected.as_slice().len() > contest.seats as usize
}

pub fn overvotes(contest: &Contest, counted: &Final) -> u32
    ensures { result ≡ spec.overvotes contest.now counted.now }
{
    if is_overvoted(contest, counted) {
        contest.seats
    } else {
        0
    }
}

pub fn undervotes(contest: &Contest, counted: &Final) -> u32
    ensures { result ≡ spec.undervotes contest.now counted.now }
{
    if is_overvoted(contest, counted) {
        0
    } else {
        contest.seats - counted.selected.as_slice().len() as u32
    }
}

/// An option behind the candidates is a write-in slot.
pub fn is_slot(contest: &Contest, option: u32) -> bool
    ensures { result ≡ spec.is_slot contest.now option }
{
    contest.choices.len() <= option as usize
}

/// The write-in slots among the selected options.
pub fn write_ins(contest: &Contest, counted: &Final) -> usize
    ensures { result ≡ spec.write_ins contest.now counted.now }
{
    counted
        .selected
        .as_slice()
        .iter()
        .filter(|option| is_slot(contest, **option))
        .count()
}

/// The name that an option was given, if it is a slot with one.
pub fn name_of<'f>(contest: &Contest, counted: &'f Final, option: u32) -> Option<&'f WriteInName>
    ensures { option_map (λ name. name.now) result ≡ spec.name_of contest.now counted.now option }
{
    if !is_slot(contest, option) {
        return None;
    }
    match counted
        .names
        .as_slice()
        .get(option as usize - contest.choices.len())
    {
        None | Some(None) => None,
        Some(Some(name)) => Some(name),
    }
}

/// The candidate that an option's votes are for, where it is a slot that names one.
pub fn candidate_of(contest: &Contest, counted: &Final, option: u32) -> Option<u32>
    ensures { result ≡ spec.candidate_of contest.now counted.now option }
{
    match name_of(contest, counted, option) {
        None | Some(WriteInName::Words(_)) => None,
        Some(WriteInName::Candidate(number)) => Some(*number),
    }
}

/// Whether a selected option is a candidate's own, or a slot below an option that names it.
fn selects_before(
    contest: &Contest,
    counted: &Final,
    option: u32,
    number: u32,
    selected: u32,
) -> bool
    ensures { result ≡ spec.selects_before contest.now counted.now option number selected }
{
    selected == number
        || (selected < option && candidate_of(contest, counted, selected) == Some(number))
}

/// Whether a candidate is selected by its own option, or by a slot below an option that names it.
fn is_selected_before(contest: &Contest, counted: &Final, option: u32, number: u32) -> bool
    ensures { result ≡ spec.is_selected_before contest.now counted.now option number }
{
    counted.selected.as_slice().iter().any(|selected| selects_before(
        contest, counted, option, number, *selected,
    ))
}

/// How many votes a selected option has.
pub fn votes_of(contest: &Contest, counted: &Final, option: u32) -> u32
    ensures { result ≡ spec.votes_of contest.now counted.now option }
{
    if is_overvoted(contest, counted) {
        return 0;
    }
    match candidate_of(contest, counted, option) {
        None => 1,
        Some(number) => {
            if is_selected_before(contest, counted, option, number) {
                0
            } else {
                1
            }
        }
    }
}

/// What an option was read as, in a word.
pub fn indication_of(counted: &Final, option: u32) -> &'static str
    ensures { result.now ≡ spec.indication_of counted.now option }
{
    match counted.read.as_slice().get(option as usize) {
        Some(State::Marked) => "yes",
        Some(State::Marginal) => "unknown",
        Some(State::Clear) | None => "no",
    }
}

/// A slot without a name.
fn is_unnamed(contest: &Contest, counted: &Final, option: u32) -> bool
    ensures { result ≡ spec.is_unnamed contest.now counted.now option }
{
    is_slot(contest, option) && name_of(contest, counted, option).is_none()
}

/// Whether a selected option's vote can be given to someone, in a word.
pub fn allocable(contest: &Contest, counted: &Final, option: u32) -> &'static str
    ensures { result.now ≡ spec.allocable contest.now counted.now option }
{
    if is_overvoted(contest, counted) {
        "no"
    } else if is_unnamed(contest, counted, option) {
        "unknown"
    } else {
        "yes"
    }
}

/// The option whose selection a selected option's votes are for: itself, or the candidate whom it names.
pub fn voted_for(contest: &Contest, counted: &Final, option: u32) -> u32
    ensures { result ≡ voted_for_of option (spec.candidate_of contest.now counted.now option) }
{
    match candidate_of(contest, counted, option) {
        None => option,
        Some(number) => number,
    }
}

/// Whether a person decided something of a sheet's exported contests.
fn is_modified(finals: &[Final]) -> bool
    ensures { result ≡ is_modified_of finals.now }
{
    finals.iter().any(|counted| counted.decided)
}

/// The same in a word.
pub fn snapshot_kind(finals: &[Final]) -> &'static str
    ensures { result.now ≡ snapshot_kind_of finals.now }
{
    if is_modified(finals) {
        "modified"
    } else {
        "interpreted"
    }
}
