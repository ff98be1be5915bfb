ghost use Rattle.std.specs.Prelude.{◌≡◌, ◌&&◌, length, drop, count_by};
ghost use Rattle.std.specs.List.{list_all, list_any};
ghost use Rattle.vx_election_model.specs.Options.{options_of};
ghost use Rattle.vx_election_model.specs.Reasons.{has_reason};
ghost use Rattle.vx_election_model.specs.declared.reason.Reason.{Reason};
ghost use Rattle.vx_election_model.specs.declared.reason.Reason.TheVariants.{MarginalMark};
ghost use Rattle.vx_rules.specs.Reasons.{holds, is_blank_sheet, is_clear, is_enabled, is_marginal, is_marked, reasons_of};
ghost use Rattle.vx_rules.specs.Reasons as words;

use crate::marks::{ContestMarks, SheetMarks};
use vx_election_model::{Contest, Reason, ReasonSet};
use vx_grid::{State, States};

fn is_marked(state: State) -> bool
    ensures { result ≡ is_marked state }
{
    matches!(state, State::Marked)
}

fn is_marginal(state: State) -> bool
    ensures { result ≡ is_marginal state }
{
    matches!(state, State::Marginal)
}

fn is_clear(state: State) -> bool
    ensures { result ≡ is_clear state }
{
    matches!(state, State::Clear)
}

/// How many options are read as marked.
fn marked_count(states: &[State]) -> usize
    ensures { result ≡ count_by is_marked states.now }
{
    states.iter().filter(|state| is_marked(**state)).count()
}

fn has_marginal(states: &[State]) -> bool
    ensures { result ≡ list_any is_marginal states.now }
{
    states.iter().any(|state| is_marginal(*state))
}

/// Whether one of the states from place `first` on is marked.
fn has_marked_from(states: &[State], first: usize) -> bool
    ensures { result ≡ list_any is_marked (drop first states.now) }
{
    states.iter().skip(first).any(|state| is_marked(*state))
}

fn are_clear(states: &[State]) -> bool
    ensures { result ≡ list_all is_clear states.now }
{
    states.iter().all(|state| is_clear(*state))
}

/// Whether every state of the sheet is Clear.
pub fn is_blank(sheet: &SheetMarks) -> bool
    ensures { result ≡ is_blank_sheet sheet.now }
{
    sheet
        .contests
        .as_slice()
        .iter()
        .all(|marks| are_clear(marks.states.as_slice()))
}

/// A reason's name.
pub fn reason_word(reason: Reason) -> &'static str
    ensures { result.now ≡ words.reason_word reason }
{
    match reason {
        Reason::Overvote => "Overvote",
        Reason::Undervote => "Undervote",
        Reason::MarginalMark => "MarginalMark",
        Reason::BlankBallot => "BlankBallot",
        Reason::WriteIn => "WriteIn",
    }
}

/// The reasons that hold of a contest of a sheet and are enabled. `sheet_blank` says whether every
/// state of the whole sheet is Clear. MarginalMark is always enabled.
pub fn reasons(
    contest: &Contest,
    states: &States,
    sheet_blank: bool,
    enabled: ReasonSet,
) -> ReasonSet
    requires { length states.now ≡ options_of contest.now }
    ensures exact { result ≡ reasons_of contest.now states.now sheet_blank enabled }
    ensures each { (reason : Reason) → has_reason result reason
        ≡ (holds contest.now states.now sheet_blank reason && is_enabled enabled reason) }
    ensures marginal { has_reason result MarginalMark ≡ list_any is_marginal states.now }
{
    let states = states.as_slice();
    let marked = marked_count(states);
    let seats = contest.seats as usize;
    ReasonSet::of([
        marked > seats && enabled.has(Reason::Overvote),
        marked < seats && enabled.has(Reason::Undervote),
        has_marginal(states),
        sheet_blank && enabled.has(Reason::BlankBallot),
        has_marked_from(states, contest.choices.len()) && enabled.has(Reason::WriteIn),
    ])
}
