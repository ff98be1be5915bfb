//! The election's contests with their options.

ghost use Rattle.std.specs.Prelude.{◌≡◌, ◌<◌, ◌^◌, All, IfOk, length, map};
ghost use Rattle.serde_json.specs.View.{view};
ghost use Rattle.vx_markup.specs.Json.{list};
ghost use Rattle.vx_cvr.specs.Report.{choice_at};
ghost use Rattle.vx_results.specs.Report.{HasFewOptions};
ghost use Rattle.vx_board.specs.Contests as spec;

use serde_json::{Value, json};
use std::alloc::Global;
use vx_base::OutOfMemory;
use vx_cvr::{contest_name, selection_name};
use vx_election_model::Contest;

/// The name of an option's choice, and none for a write-in slot.
fn label_of(contest: &Contest, option: usize) -> &str
    ensures { result.now ≡ (choice_at contest.now option).name }
{
    match contest.choices.as_slice().get(option) {
        Some(choice) => choice.name.as_str(),
        None => "",
    }
}

/// Which write-in slot an option is, counted from 1; 0 for a choice.
fn slot_of(contest: &Contest, option: usize) -> u64
    requires { option < 2 ^ 32 }
    ensures { result ≡ spec.slot_of contest.now option }
{
    (option + 1).saturating_sub(contest.choices.len()) as u64
}

/// An option of a contest.
fn option_value(alloc: Global, contest: &Contest, option: usize) -> Result<Value, OutOfMemory>
    requires { option < 2 ^ 32 }
    ensures { IfOk result (λ value. view value ≡ spec.option_data contest.now option) }
{
    let name = selection_name(alloc, contest.id.as_str(), option)?;
    let label = label_of(contest, option);
    let slot = slot_of(contest, option);
    json!(in alloc; {"label": label, "name": name.as_str(), "slot": slot})
}

/// The options of a contest, in order.
fn options_value(alloc: Global, contest: &Contest) -> Result<Value, OutOfMemory>
    requires { HasFewOptions contest.now }
    ensures { IfOk result (λ value. view value ≡ spec.options_data contest.now) }
{
    let mut options = Vec::new(alloc);
    for option in 0..contest.options() as usize {
        options.push(option_value(alloc, contest, option)?)?;
    }
    Ok(Value::Array(options))
}

/// A contest by its name in the report and its options.
fn contest_with(
    alloc: Global,
    contest: &Contest,
    name: &str,
    options: Value,
) -> Result<Value, OutOfMemory>
    ensures { IfOk result (λ value. view value
        ≡ spec.contest_with contest.now name.now (view options)) }
{
    json!(in alloc; {
        "name": name,
        "options": options,
        "seats": contest.seats,
        "title": contest.title.as_str()
    })
}

/// A contest.
fn contest_value(alloc: Global, contest: &Contest) -> Result<Value, OutOfMemory>
    requires { HasFewOptions contest.now }
    ensures { IfOk result (λ value. view value ≡ spec.contest_data contest.now) }
{
    let name = contest_name(alloc, contest.id.as_str())?;
    let options = options_value(alloc, contest)?;
    contest_with(alloc, contest, name.as_str(), options)
}

/// The contests of an election, in order.
pub(crate) fn contests_value(alloc: Global, contests: &[Contest]) -> Result<Value, OutOfMemory>
    requires { All HasFewOptions contests.now }
    ensures { IfOk result (λ value. view value ≡ list (map spec.contest_data contests.now)) }
{
    let mut made = Vec::new(alloc);
    for contest in contests {
        made.push(contest_value(alloc, contest)?)?;
    }
    Ok(Value::Array(made))
}
