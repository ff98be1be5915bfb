//! The thresholds and the reasons of an election.

ghost use Rattle.std.specs.Prelude.{◌≡◌, ◌≤◌, map, length, IfOk};
ghost use Rattle.serde_json.specs.View.{view};
ghost use Rattle.vx_base.specs.Refusals.{Gives, GivesAs};
ghost use Rattle.vx_election.specs.Faults.{is_no_memory};
ghost use Rattle.vx_election.specs.Members.{whole_member};
ghost use Rattle.vx_election.specs.Settings.{pixels_of, are_in_order, stated_thresholds_in, thresholds_in, reason_of, reason_in, reason_list_in, enabled_of, is_named, stated_reasons_in, reasons_in};

use crate::fault::ElectionFault;
use crate::members::{list_up_to, whole_member};
use crate::names::{self, is_word};
use serde_json::Value;
use std::alloc::Global;
use vx_election_model::{Reason, ReasonSet};
use vx_grid::{INNER_PIXELS, Thresholds};
use vx_json::{Path, string_of};

/// Thousandths of the pixels inside a bubble's outline, rounded up.
fn pixels_of(thousandths: u32) -> u32
    requires { thousandths ≤ 1000 }
    ensures { result ≡ pixels_of thousandths }
{
    (INNER_PIXELS * thousandths).div_ceil(1000)
}

fn are_in_order(marg: u32, def: u32) -> bool
    ensures { result ≡ are_in_order marg def }
{
    13 <= marg && marg < def
}

fn thousandths_of(
    alloc: Global,
    value: &Value,
    path: &Path,
    name: &str,
) -> Result<u32, ElectionFault>
    ensures exact { Gives is_no_memory result
        (whole_member (view value.now) path.now name.now 1 1000) }
    ensures within { IfOk result (λ number. number ≤ 1000) }
{
    let number = whole_member(alloc, value, path, name, 1, 1000)?;
    Ok(number as u32)
}

/// The thresholds of an object, in pixels.
#[tactic(auto, unfolding(crate::specs::Settings::stated_thresholds_in))]
fn stated_thresholds_of(
    alloc: Global,
    value: &Value,
    path: &Path,
) -> Result<Thresholds, ElectionFault>
    ensures { Gives is_no_memory result (stated_thresholds_in (view value.now) path.now) }
{
    let definite = thousandths_of(alloc, value, path, "definite")?;
    let marginal = thousandths_of(alloc, value, path, "marginal")?;
    let marg = pixels_of(marginal);
    let def = pixels_of(definite);
    if !are_in_order(marg, def) {
        return Err(ElectionFault::BadThresholds(marg, def));
    }
    Ok(Thresholds { marg, def })
}

/// The thresholds of an election, in pixels: those of 50 and 120 thousandths where it names none.
#[tactic(auto, unfolding(crate::specs::Settings::thresholds_in))]
pub(crate) fn thresholds_of(alloc: Global, value: &Value) -> Result<Thresholds, ElectionFault>
    ensures { Gives is_no_memory result (thresholds_in (view value.now)) }
{
    match value.get(names::mark_thousandths()) {
        None => Ok(Thresholds {
            marg: pixels_of(50),
            def: pixels_of(120),
        }),
        Some(member) => {
            let at = Path::root(alloc).member(alloc, names::mark_thousandths())?;
            stated_thresholds_of(alloc, member, &at)
        }
    }
}

/// The reason of that name.
fn reason_of(text: &str) -> Option<Reason>
    ensures { result ≡ reason_of text.now }
{
    if is_word(text, "Overvote") {
        Some(Reason::Overvote)
    } else if is_word(text, "Undervote") {
        Some(Reason::Undervote)
    } else if is_word(text, "MarginalMark") {
        Some(Reason::MarginalMark)
    } else if is_word(text, "BlankBallot") {
        Some(Reason::BlankBallot)
    } else if is_word(text, "WriteIn") {
        Some(Reason::WriteIn)
    } else {
        None
    }
}

#[tactic(auto, unfolding(crate::specs::Settings::reason_in))]
fn reason_member(alloc: Global, value: &Value, path: &Path) -> Result<Reason, ElectionFault>
    ensures { Gives is_no_memory result (reason_in (view value.now) path.now) }
{
    let text = string_of(alloc, value, path)?;
    match reason_of(text) {
        Some(reason) => Ok(reason),
        None => Err(ElectionFault::OutOfRange(path.copy(alloc)?)),
    }
}

/// The elements of a list of reasons.
#[tactic(auto, unfolding(crate::specs::Settings::reason_list_in))]
fn reason_list_of(
    alloc: Global,
    values: &[Value],
    path: &Path,
) -> Result<Vec<Reason>, ElectionFault>
    ensures { GivesAs (λ reasons. reasons.items) is_no_memory result
        (reason_list_in path.now (map view values.now)) }
{
    let mut reasons = Vec::new(alloc);
    for value in values {
        let at = path.element(alloc, reasons.len())?;
        let reason = reason_member(alloc, value, &at)?;
        reasons.push(reason)?;
    }
    Ok(reasons)
}

fn is_named(reason: Reason, reasons: &[Reason]) -> bool
    ensures { result ≡ is_named reason reasons.now }
{
    for other in reasons {
        if *other as usize == reason as usize {
            return true;
        }
    }
    false
}

/// Those reasons with MarginalMark.
fn enabled_of(reasons: &[Reason]) -> ReasonSet
    ensures { result ≡ enabled_of reasons.now }
{
    ReasonSet::of([
        is_named(Reason::Overvote, reasons),
        is_named(Reason::Undervote, reasons),
        true,
        is_named(Reason::BlankBallot, reasons),
        is_named(Reason::WriteIn, reasons),
    ])
}

#[tactic(auto, unfolding(crate::specs::Settings::stated_reasons_in))]
fn stated_reasons_of(alloc: Global, value: &Value, path: &Path) -> Result<ReasonSet, ElectionFault>
    ensures { Gives is_no_memory result (stated_reasons_in (view value.now) path.now) }
{
    let list = list_up_to(alloc, value, path, 5)?;
    let reasons = reason_list_of(alloc, list, path)?;
    Ok(enabled_of(&reasons))
}

/// The reasons of an election: all but Undervote where it names none.
#[tactic(auto, unfolding(crate::specs::Settings::reasons_in))]
pub(crate) fn reasons_of(alloc: Global, value: &Value) -> Result<ReasonSet, ElectionFault>
    ensures { Gives is_no_memory result (reasons_in (view value.now)) }
{
    match value.get("vxReasons") {
        None => Ok(ReasonSet::of([true, false, true, true, true])),
        Some(member) => {
            let at = Path::root(alloc).member(alloc, "vxReasons")?;
            stated_reasons_of(alloc, member, &at)
        }
    }
}
