//! The election's contests, their candidates, and what may be selected in them.

ghost use Rattle.std.specs.Prelude.{◌≡◌, ◌++◌, ◌<◌, ◌^◌, All, ◌∷◌, [], IfOk, OnOk, codes, length, map};
ghost use Rattle.std.specs.List.{flat_map, range_with_len};
ghost use Rattle.serde_json.specs.Data.{put as with_member};
ghost use Rattle.serde_json.specs.View.{members_view, view};
ghost use Rattle.vx_election_model.specs.Options.{options_of};
ghost use Rattle.vx_cvr.specs.Json.{list, members as members_of, text};
ghost use Rattle.vx_cvr.specs.Names.{contest_name as contest_name_of};
ghost use Rattle.vx_cvr.specs.Report as spec;

use crate::members::{Members, put_list, texts};
use crate::names::{candidate_name, contest_name, selection_name};
use serde_json::{Value, put};
use std::alloc::Global;
use vx_base::OutOfMemory;
use vx_election_model::{Contest, Election};

/// The members of an object by its id and its class, with one text more.
fn identified<'t>(
    alloc: Global,
    id: &'t str,
    class: &'t str,
    name: &'t str,
    given: &'t str,
) -> Result<Members, OutOfMemory>
    ensures { IfOk result (λ members. members_view members.entries ≡ with_member name.now (text given.now)
        (members_of ((codes "@id", text id.now) ∷ (codes "@type", text class.now) ∷ []))) }
{
    texts(alloc, &[("@id", id), ("@type", class), (name, given)])
}

/// A candidate of a contest, by its option's number.
fn candidate(alloc: Global, contest: &Contest, option: usize) -> Result<Value, OutOfMemory>
    requires { option < length contest.now.choices }
    ensures { IfOk result (λ value. view value ≡ spec.candidate contest.now option) }
{
    let id = candidate_name(alloc, contest.id.as_str(), option)?;
    let choice = &contest.choices.as_slice()[option];
    let text = choice.name.as_str();
    let members = identified(alloc, id.as_str(), "CVR.Candidate", "Name", text)?;
    Ok(Value::Object(members))
}

/// Adds the candidates of a contest; the answers of a yes/no contest are none.
fn push_candidates(
    alloc: Global,
    candidates: &mut Vec<Value>,
    contest: &Contest,
) -> Result<(), OutOfMemory>
    ensures { OnOk result (map view candidates.new.items
        ≡ map view candidates.old.items ++ spec.candidates_of contest.now) }
{
    if contest.is_yes_no {
        return Ok(());
    }
    for option in 0..contest.choices.len() {
        candidates.push(candidate(alloc, contest, option)?)?;
    }
    Ok(())
}

/// All candidates of all contests, in order.
fn candidates(alloc: Global, contests: &[Contest]) -> Result<Value, OutOfMemory>
    ensures { IfOk result (λ value. view value ≡ list (flat_map spec.candidates_of contests.now)) }
{
    let mut candidates = Vec::new(alloc);
    for contest in contests {
        push_candidates(alloc, &mut candidates, contest)?;
    }
    Ok(Value::Array(candidates))
}

/// What may be selected in a contest of candidates: a candidate, or a write-in slot.
fn candidate_selection(
    alloc: Global,
    contest: &Contest,
    option: usize,
) -> Result<Value, OutOfMemory>
    ensures { IfOk result (λ value. view value ≡ spec.candidate_selection contest.now option) }
{
    let id = selection_name(alloc, contest.id.as_str(), option)?;
    let mut members = texts(
        alloc,
        &[("@id", id.as_str()), ("@type", "CVR.CandidateSelection")],
    )?;
    if contest.choices.len() <= option {
        put(&mut members, alloc, "IsWriteIn", Value::Bool(true))?;
        Ok(Value::Object(members))
    } else {
        let candidate = candidate_name(alloc, contest.id.as_str(), option)?;
        put_list(
            &mut members,
            alloc,
            "CandidateIds",
            Value::String(candidate),
        )?;
        Ok(Value::Object(members))
    }
}

/// An answer of a yes/no contest.
fn answer(alloc: Global, contest: &Contest, option: usize) -> Result<Value, OutOfMemory>
    requires { option < length contest.now.choices }
    ensures { IfOk result (λ value. view value ≡ spec.answer contest.now option) }
{
    let id = selection_name(alloc, contest.id.as_str(), option)?;
    let choice = &contest.choices.as_slice()[option];
    let text = choice.label.as_str();
    let members = identified(
        alloc,
        id.as_str(),
        "CVR.BallotMeasureSelection",
        "Selection",
        text,
    )?;
    Ok(Value::Object(members))
}

/// What may be selected in a contest of candidates, in order.
fn candidate_selections(alloc: Global, contest: &Contest) -> Result<Value, OutOfMemory>
    requires { options_of contest.now < 2 ^ 32 }
    ensures { IfOk result (λ value. view value
        ≡ spec.selections_of spec.candidate_selection contest.now) }
{
    let mut selections = Vec::new(alloc);
    for option in 0..contest.options() as usize {
        selections.push(candidate_selection(alloc, contest, option)?)?;
    }
    Ok(Value::Array(selections))
}

/// The answers of a yes/no contest, in order.
fn answers(alloc: Global, contest: &Contest) -> Result<Value, OutOfMemory>
    requires { options_of contest.now ≡ length contest.now.choices }
    ensures { IfOk result (λ value. view value ≡ spec.selections_of spec.answer contest.now) }
{
    let mut answers = Vec::new(alloc);
    for option in 0..contest.choices.len() {
        answers.push(answer(alloc, contest, option)?)?;
    }
    Ok(Value::Array(answers))
}

/// The members of a contest that are texts.
fn contest_texts(alloc: Global, contest: &Contest, class: &str) -> Result<Members, OutOfMemory>
    ensures { IfOk result (λ members. members_view members.entries ≡ members_of
        ((codes "@id", text (contest_name_of contest.now.id)) ∷ (codes "@type", text class.now)
        ∷ (codes "Name", text contest.now.title) ∷ [])) }
{
    let id = contest_name(alloc, contest.id.as_str())?;
    let members = identified(alloc, id.as_str(), class, "Name", contest.title.as_str())?;
    Ok(members)
}

fn candidate_contest(alloc: Global, contest: &Contest) -> Result<Value, OutOfMemory>
    requires { options_of contest.now < 2 ^ 32 }
    ensures { IfOk result (λ value. view value ≡ spec.candidate_contest contest.now) }
{
    let mut members = contest_texts(alloc, contest, "CVR.CandidateContest")?;
    let selections = candidate_selections(alloc, contest)?;
    put(&mut members, alloc, "ContestSelection", selections)?;
    put(
        &mut members,
        alloc,
        "VotesAllowed",
        Value::from(contest.seats),
    )?;
    Ok(Value::Object(members))
}

fn measure(alloc: Global, contest: &Contest) -> Result<Value, OutOfMemory>
    requires { options_of contest.now ≡ length contest.now.choices }
    ensures { IfOk result (λ value. view value ≡ spec.measure contest.now) }
{
    let mut members = contest_texts(alloc, contest, "CVR.BallotMeasureContest")?;
    let answers = answers(alloc, contest)?;
    put(&mut members, alloc, "ContestSelection", answers)?;
    Ok(Value::Object(members))
}

/// A contest that a valid election may have.
fn contest(alloc: Global, given: &Contest) -> Result<Value, OutOfMemory>
    requires { spec.HasOptions given.now }
    ensures { IfOk result (λ value. view value ≡ spec.contest given.now) }
{
    if given.is_yes_no {
        measure(alloc, given)
    } else {
        candidate_contest(alloc, given)
    }
}

/// Adds contests in order.
fn push_contests(
    alloc: Global,
    contests: &mut Vec<Value>,
    given: &[Contest],
) -> Result<(), OutOfMemory>
    requires { All spec.HasOptions given.now }
    ensures { OnOk result (map view contests.new.items
        ≡ map view contests.old.items ++ map spec.contest given.now) }
{
    for one in given {
        contests.push(contest(alloc, one)?)?;
    }
    Ok(())
}

/// The election with its candidates and contests.
pub fn election(alloc: Global, given: &Election) -> Result<Value, OutOfMemory>
    requires { All spec.HasOptions given.now.contests }
    ensures { IfOk result (λ value. view value ≡ spec.election_object given.now) }
{
    let mut members = texts(
        alloc,
        &[
            ("@id", "election"),
            ("@type", "CVR.Election"),
            ("ElectionScopeId", "scope"),
            ("Name", given.title.as_str()),
        ],
    )?;
    let candidates = candidates(alloc, given.contests.as_slice())?;
    put(&mut members, alloc, "Candidate", candidates)?;
    let mut contests = Vec::new(alloc);
    push_contests(alloc, &mut contests, given.contests.as_slice())?;
    put(&mut members, alloc, "Contest", Value::Array(contests))?;
    Ok(Value::Object(members))
}
