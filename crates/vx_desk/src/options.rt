//! The options of a contest that waits.

ghost use Rattle.std.specs.Prelude.{◌≡◌, ◌<◌, ◌≤◌, ◌++◌, IfOk, OnOk, length, map};
ghost use Rattle.serde_json.specs.View.{view};
ghost use Rattle.vx_markup.specs.Json.{list};
ghost use Rattle.vx_desk.specs.Contests.{choice_at};
ghost use Rattle.vx_desk.specs.Contests as spec;
ghost use Rattle.vx_desk.specs.Regions.{IsInside};
ghost use Rattle.vx_desk.specs.Shown.{HasItsPlace};

use crate::image::Image;
use crate::region::{Region, x_of, y_of};
use serde_json::{Value, json};
use std::alloc::Global;
use vx_base::OutOfMemory;
use vx_election_model::{Contest, Reason, ReasonSet};
use vx_grid::State;
use vx_layout::Bubble;
use vx_rules::reason_word;

/// What a bubble was read as, in a word.
fn state_word(state: State) -> &'static str
    ensures { result.now ≡ spec.state_word state }
{
    match state {
        State::Marked => "marked",
        State::Marginal => "marginal",
        State::Clear => "clear",
    }
}

/// The name of an option's choice, and none for a write-in slot.
fn name_of(contest: &Contest, option: u32) -> &str
    ensures { result.now ≡ (choice_at contest.now option).name }
{
    match contest.choices.as_slice().get(option as usize) {
        Some(choice) => choice.name.as_str(),
        None => "",
    }
}

/// An option by its bubble, its score and what it was read as.
fn option_of(
    alloc: Global,
    contest: &Contest,
    image: &Image<'_>,
    region: Region,
    bubble: Bubble,
    score: u32,
    state: State,
) -> Result<Value, OutOfMemory>
    requires place { HasItsPlace bubble }
    requires inside { IsInside image.now.page region }
    ensures { IfOk result (λ value. view value
        ≡ spec.option_of contest.now image.now region bubble score state) }
{
    let x = x_of(image, region, bubble);
    let y = y_of(image, region, bubble);
    let name = name_of(contest, bubble.option);
    let slot = contest.choices.len() <= bubble.option as usize;
    json!(in alloc; {
        "name": name,
        "score": score,
        "slot": slot,
        "state": state_word(state),
        "x": x,
        "y": y
    })
}

/// Adds the option of the bubble with a place in the plan's order, if it is of the contest.
fn push_option(
    alloc: Global,
    options: &mut Vec<Value>,
    contest: &Contest,
    number: u32,
    image: &Image<'_>,
    region: Region,
    k: usize,
) -> Result<(), OutOfMemory>
    requires there { k < length image.now.bubbles }
    requires inside { IsInside image.now.page region }
    ensures { OnOk result (map view options.new.items
        ≡ map view options.old.items ++ spec.option_at contest.now number image.now region k) }
{
    let bubble = image.bubbles()[k];
    if bubble.contest == number {
        let (score, state) = (image.score_at(k), image.state_at(k));
        options.push(option_of(alloc, contest, image, region, bubble, score, state)?)?;
    }
    Ok(())
}

/// The options of a contest with a number, in order.
#[tactic(auto, using(crate::proofs::Steps::laid))]
pub(crate) fn options_of(
    alloc: Global,
    contest: &Contest,
    number: u32,
    image: &Image<'_>,
    region: Region,
) -> Result<Value, OutOfMemory>
    requires { IsInside image.now.page region }
    ensures { IfOk result (λ value. view value
        ≡ list (spec.options_of contest.now number image.now region)) }
{
    let mut options = Vec::new(alloc);
    for k in 0..image.bubbles().len() {
        push_option(alloc, &mut options, contest, number, image, region, k)?;
    }
    Ok(Value::Array(options))
}

/// Adds a reason's word, if a set has it.
fn push_reason(
    alloc: Global,
    words: &mut Vec<Value>,
    set: ReasonSet,
    reason: Reason,
) -> Result<(), OutOfMemory>
    ensures { OnOk result (map view words.new.items
        ≡ map view words.old.items ++ spec.reason_if set reason) }
{
    if set.has(reason) {
        words.push(json!(in alloc; reason_word(reason))?)?;
    }
    Ok(())
}

/// Adds the words of the reasons of a set, in their order.
fn push_reasons(alloc: Global, words: &mut Vec<Value>, set: ReasonSet) -> Result<(), OutOfMemory>
    ensures { OnOk result (map view words.new.items
        ≡ map view words.old.items ++ spec.reason_texts set) }
{
    push_reason(alloc, words, set, Reason::Overvote)?;
    push_reason(alloc, words, set, Reason::Undervote)?;
    push_reason(alloc, words, set, Reason::MarginalMark)?;
    push_reason(alloc, words, set, Reason::BlankBallot)?;
    push_reason(alloc, words, set, Reason::WriteIn)
}

/// The words of the reasons of a set.
pub(crate) fn reasons_of(alloc: Global, set: ReasonSet) -> Result<Value, OutOfMemory>
    ensures { IfOk result (λ value. view value ≡ list (spec.reason_texts set)) }
{
    let mut words = Vec::new(alloc);
    push_reasons(alloc, &mut words, set)?;
    Ok(Value::Array(words))
}
