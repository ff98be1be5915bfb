//! Whether two images are those of a sheet that was kept.

ghost use Rattle.std.specs.Prelude.{◌≡◌, length};
ghost use Rattle.vx_desk.specs.Kept as spec;
ghost use Rattle.vx_sheet.specs.Sheet as sheet;

use vx_grid::{Kind, State};
use vx_rules::{ContestMarks, SheetMarks};
use vx_sheet::Came;

fn same_state(one: State, other: State) -> bool
    ensures { result ≡ spec.same_state one other }
{
    matches!(
        (one, other),
        (State::Marked, State::Marked)
            | (State::Marginal, State::Marginal)
            | (State::Clear, State::Clear)
    )
}

#[tactic(auto, using(crate::proofs::Same::lengths_differ, crate::proofs::Same::same_later, crate::proofs::Same::differ_here, crate::proofs::Same::same_end))]
fn same_states(one: &[State], other: &[State]) -> bool
    ensures { result ≡ spec.same_list spec.same_state one.now other.now }
{
    if one.len() != other.len() {
        return false;
    }
    for k in 0..one.len() {
        if !same_state(one[k], other[k]) {
            return false;
        }
    }
    true
}

fn same_marks(one: &ContestMarks, other: &ContestMarks) -> bool
    ensures { result ≡ spec.same_marks one.now other.now }
{
    one.contest == other.contest && same_states(one.states.as_slice(), other.states.as_slice())
}

#[tactic(auto, using(crate::proofs::Same::lengths_differ, crate::proofs::Same::same_later, crate::proofs::Same::differ_here, crate::proofs::Same::same_end))]
fn same_contests(one: &[ContestMarks], other: &[ContestMarks]) -> bool
    ensures { result ≡ spec.same_list spec.same_marks one.now other.now }
{
    if one.len() != other.len() {
        return false;
    }
    for k in 0..one.len() {
        if !same_marks(&one[k], &other[k]) {
            return false;
        }
    }
    true
}

fn same_kind(one: Kind, other: Kind) -> bool
    ensures { result ≡ sheet.same_kind one other }
{
    matches!(
        (one, other),
        (Kind::Precinct, Kind::Precinct)
            | (Kind::Absentee, Kind::Absentee)
            | (Kind::Provisional, Kind::Provisional)
            | (Kind::Other, Kind::Other)
    )
}

fn same_leaf(one: &SheetMarks, other: &SheetMarks) -> bool
    ensures { result ≡ spec.same_leaf one.now other.now }
{
    (one.card == other.card && one.front == other.front)
        && (same_kind(one.kind, other.kind) && one.test == other.test)
}

fn same_sheet(one: &SheetMarks, other: &SheetMarks) -> bool
    ensures { result ≡ spec.same_sheet one.now other.now }
{
    same_leaf(one, other) && same_contests(one.contests.as_slice(), other.contests.as_slice())
}

/// Whether what two images came to is a sheet that was kept.
pub(crate) fn is_that(read: &Result<SheetMarks, Came>, kept: &SheetMarks) -> bool
    ensures { result ≡ spec.is_that kept.now read.now }
{
    match read {
        Ok(sheet) => same_sheet(sheet, kept),
        Err(_) => false,
    }
}
