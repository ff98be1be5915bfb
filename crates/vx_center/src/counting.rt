ghost use Rattle.std.specs.Prelude.{◌≡◌, ◌<◌, ◌^◌, ◌==◌, nat_eq, length};
ghost use Rattle.std.specs.List.{list_any};
ghost use Rattle.std.specs.Option.{option_copied};
ghost use Rattle.vx_rules.specs.Reasons.{is_marginal, is_marked};
ghost use Rattle.vx_center.specs.Decisions.{decisions_on, name_of, ruling_of};
ghost use Rattle.vx_center.specs.Finals.{marked_options, selected_by, slots_of};
ghost use Rattle.vx_center.specs.Replies.{least_marginal};
ghost use Rattle.vx_center.specs.Waiting.{is_decided};

use crate::decided::Decided;
use vx_election_model::Contest;
use vx_events::{Decision, WriteInName};
use vx_grid::State;

pub(crate) fn is_marked(state: State) -> bool
    ensures { result ≡ is_marked state }
{
    matches!(state, State::Marked)
}

fn is_marginal(state: State) -> bool
    ensures { result ≡ is_marginal state }
{
    matches!(state, State::Marginal)
}

/// The least option that was read as marginal.
pub(crate) fn least_marginal(states: &[State]) -> Option<u32>
    requires { length states.now < 2 ^ 32 }
    ensures { result ≡ least_marginal states.now }
{
    let mut number = 0u32;
    for state in states {
        if is_marginal(*state) {
            return Some(number);
        }
        number += 1;
    }
    None
}

/// How a contest was last ruled.
pub(crate) fn ruling_on(contest: u32, decided: &[Decided]) -> Option<&Decision>
    ensures { option_copied result ≡ ruling_of (decisions_on contest decided.now) }
{
    let mut ruling = None;
    for one in decided {
        if one.contest == contest {
            match one.decision {
                Decision::NameWriteIn { .. } => {}
                _ => ruling = Some(&one.decision),
            }
        }
    }
    ruling
}

/// The name that a write-in slot of a contest was last given.
pub(crate) fn name_on(contest: u32, slot: u32, decided: &[Decided]) -> Option<&WriteInName>
    ensures { option_copied result ≡ name_of slot (decisions_on contest decided.now) }
{
    let mut given = None;
    for one in decided {
        if one.contest == contest {
            if let Decision::NameWriteIn { slot: other, name } = &one.decision {
                if *other == slot {
                    given = Some(name);
                }
            }
        }
    }
    given
}

fn names_contest(contest: u32, decided: &[Decided]) -> bool
    ensures { result ≡ list_any (λ one. one.contest == contest) decided.now }
{
    decided.iter().any(|one| one.contest == contest)
}

/// Whether anything was decided of a contest.
pub(crate) fn is_decided(contest: u32, decided: &[Decided]) -> bool
    ensures { result ≡ is_decided (decisions_on contest decided.now) }
{
    names_contest(contest, decided)
}

/// How many write-in slots a contest has.
pub(crate) fn slots(contest: &Contest) -> u32
    ensures { result ≡ slots_of contest.now }
{
    if contest.write_ins { contest.seats } else { 0 }
}

fn is_among(options: &[u32], option: usize) -> bool
    ensures { result ≡ list_any (nat_eq option) options.now }
{
    options.iter().any(|other| option == *other as usize)
}

fn is_read_marked(states: &[State], option: usize) -> bool
    ensures { result ≡ list_any (nat_eq option) (marked_options states.now) }
{
    match states.get(option) {
        Some(state) => is_marked(*state),
        None => false,
    }
}

/// Whether an option of a contest that was read and last ruled so counts as selected.
pub(crate) fn is_selected(states: &[State], ruling: Option<&Decision>, option: usize) -> bool
    ensures { result ≡ list_any (nat_eq option) (selected_by states.now (option_copied ruling.entry)) }
{
    match ruling {
        Some(Decision::Selections(options)) => is_among(options.as_slice(), option),
        _ => is_read_marked(states, option),
    }
}
