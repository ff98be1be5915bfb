ghost use Rattle.std.specs.Prelude.{◌≡◌, ◌≤◌, ◌==◌, Option, Some, true, find, length, nat_le};
ghost use Rattle.std.specs.Option.{option_copied};
ghost use Rattle.vx_election_model.specs.Options.{options_of};
ghost use Rattle.vx_election_model.specs.Valid.{IsValid};
ghost use Rattle.vx_rules.specs.declared.marks.ContestMarks.{ContestMarks};
ghost use Rattle.vx_events.specs.Fits.{is_sheet};
ghost use Rattle.vx_center.specs.Decisions.{decisions_on, ruling_of};
ghost use Rattle.vx_center.specs.Finals.{selected_by};
ghost use Rattle.vx_center.specs.Replies as replies;
ghost use Rattle.vx_center.specs.Sheets as sheets;

use crate::counting::{is_selected, least_marginal, ruling_on, slots};
use crate::decided::Decided;
use vx_election_model::{Contest, Election};
use vx_events::{Decision, Options, Reply, WriteInName};
use vx_grid::State;
use vx_rules::{ContestMarks, SheetMarks};

/// What is answered to a station that claims a sheet which this one holds.
pub(crate) fn claim_reply(station: u32, holder: Option<u32>) -> Reply
    ensures { result ≡ replies.claim_reply station holder }
{
    match holder {
        None => Reply::Done,
        Some(other) => {
            if other == station {
                Reply::Done
            } else {
                Reply::HeldBy(other)
            }
        }
    }
}

/// Such an answer, if the station holds the sheet; else why it is refused.
pub(crate) fn if_held(station: u32, holder: Option<u32>, reply: Reply) -> Reply
    ensures { result ≡ replies.if_held station holder reply }
{
    match holder {
        None => Reply::NotHeld,
        Some(holder) => {
            if holder == station {
                reply
            } else {
                Reply::HeldBy(holder)
            }
        }
    }
}

/// The first option from a number on; options ascend.
fn first_from(number: u32, options: &[u32]) -> Option<u32>
    ensures { result ≡ find (nat_le number) options.now }
{
    options.iter().copied().find(|option| number <= *option)
}

fn selections_reply(contest: &Contest, options: &Options) -> Reply
    requires { options_of contest.now ≤ 150 }
    ensures { result
        ≡ replies.selections_reply contest.now options.now (find (nat_le (options_of contest.now)) options.now) }
{
    let options = options.as_slice();
    match first_from(contest.options(), options) {
        Some(option) => Reply::NotAnOption(option),
        None => {
            if options.len() <= contest.seats as usize {
                Reply::Done
            } else {
                Reply::OverSeats(options.len() as u32, contest.seats)
            }
        }
    }
}

fn name_reply(contest: &Contest, name: &WriteInName) -> Reply
    ensures { result ≡ replies.name_reply contest.now name.now }
{
    match name {
        WriteInName::Words(_) => Reply::Done,
        WriteInName::Candidate(number) => {
            if (*number as usize) < contest.choices.len() {
                Reply::Done
            } else {
                Reply::NotAnOption(*number)
            }
        }
    }
}

fn has_slot(contest: &Contest, states: &[State], ruling: Option<&Decision>, slot: u32) -> bool
    requires { options_of contest.now ≤ 150 }
    ensures { result ≡ replies.has_slot contest.now (selected_by states.now (option_copied ruling.entry)) slot }
{
    slot < slots(contest) && is_selected(states, ruling, contest.choices.len() + slot as usize)
}

fn slot_reply(
    contest: &Contest,
    states: &[State],
    ruling: Option<&Decision>,
    slot: u32,
    name: &WriteInName,
) -> Reply
    requires { options_of contest.now ≤ 150 }
    ensures { result
        ≡ replies.slot_reply contest.now (selected_by states.now (option_copied ruling.entry)) slot name.now }
{
    if has_slot(contest, states, ruling, slot) {
        name_reply(contest, name)
    } else {
        Reply::NoWriteIn(slot)
    }
}

fn naming_reply(
    contest: &Contest,
    states: &[State],
    ruling: Option<&Decision>,
    slot: u32,
    name: &WriteInName,
) -> Reply
    requires few { options_of contest.now ≤ 150 }
    requires states { length states.now ≡ options_of contest.now }
    ensures { result ≡ replies.naming_reply contest.now states.now (option_copied ruling.entry) slot name.now }
{
    if ruling.is_some() {
        return slot_reply(contest, states, ruling, slot, name);
    }
    match least_marginal(states) {
        Some(option) => Reply::StillMarginal(option),
        None => slot_reply(contest, states, None, slot, name),
    }
}

fn accept_reply(states: &[State]) -> Reply
    requires { length states.now ≤ 150 }
    ensures { result ≡ replies.unless_marginal (replies.least_marginal states.now) Reply.Done }
{
    match least_marginal(states) {
        Some(option) => Reply::StillMarginal(option),
        None => Reply::Done,
    }
}

/// What is answered to a decision of a contest that was read and last ruled so.
fn decision_reply(
    contest: &Contest,
    states: &[State],
    ruling: Option<&Decision>,
    decision: &Decision,
) -> Reply
    requires few { options_of contest.now ≤ 150 }
    requires states { length states.now ≡ options_of contest.now }
    ensures { result ≡ replies.decision_reply contest.now states.now (option_copied ruling.entry) decision.now }
{
    match decision {
        Decision::Selections(options) => selections_reply(contest, options),
        Decision::RuledOvervote => Reply::Done,
        Decision::AcceptRead => accept_reply(states),
        Decision::NameWriteIn { slot, name } => naming_reply(contest, states, ruling, *slot, name),
    }
}

/// What a contest was read as, if the sheet has it.
fn marks_on(sheet: &SheetMarks, contest: u32) -> Option<&ContestMarks>
    ensures { option_copied result ≡ sheets.marks_on sheet.now contest }
{
    sheet
        .contests
        .as_slice()
        .iter()
        .find(|marks| marks.contest == contest)
}

/// What is answered to a decision of a contest of a sheet of which so much was decided, by the station
/// that holds it.
pub(crate) fn decide_reply(
    election: &Election,
    sheet: &SheetMarks,
    decided: &[Decided],
    number: u32,
    decision: &Decision,
) -> Reply
    requires valid { IsValid election.now }
    requires fits { is_sheet election.now sheet.now ≡ true }
    ensures { result
        ≡ replies.decide_reply election.now (decisions_on number decided.now) number decision.now sheet.now }
{
    let Some(contest) = election.contests.as_slice().get(number as usize) else {
        return Reply::NotOnSheet(number);
    };
    let Some(marks) = marks_on(sheet, number) else {
        return Reply::NotOnSheet(number);
    };
    decision_reply(
        contest,
        marks.states.as_slice(),
        ruling_on(number, decided),
        decision,
    )
}
