//! What is counted of one page: what it is read as, and whether the checker accepts that.

ghost use Rattle.std.specs.Prelude.{◌≡◌, ◌*◌, ◌<◌, ◌≤◌, ◌^◌, IfOk, count_by, is_ok, length, sum};
ghost use Rattle.vx_election_model.specs.Valid.{IsValid};
ghost use Rattle.vx_grid.specs.Places.{IsWithin};
ghost use Rattle.vx_layout.specs.Plans.{ArePlansOf};
ghost use Rattle.vx_rules.specs.Reasons.{is_marked as is_marked_state};
ghost use Rattle.vx_command_demo.specs.Adding as adding;
ghost use Rattle.vx_command_demo.specs.Sums as spec;
ghost use Rattle.vx_command_demo.specs.Trials.{printed_page};

use crate::sums::PageSums;
use std::alloc::Global;
use std::mem::replace;
use vx_base::OutOfMemory;
use vx_bits::BitPage;
use vx_check::check;
use vx_count::{Counter, CounterMemory};
use vx_election_model::Election;
use vx_grid::{Border, State, marks};
use vx_layout::{CardPlans, PagePlan};
use vx_scan_model::PageReading;

/// Whether a bubble is read as it was marked or not.
fn is_read_so(state: State, mark: bool) -> bool
    ensures { result ≡ spec.is_read_so state mark }
{
    match state {
        State::Marked => mark,
        State::Marginal => false,
        State::Clear => !mark,
    }
}

/// Whether all bubbles of a page are.
fn are_read_so(states: &[State], marks: &[bool]) -> bool
    ensures { result ≡ spec.are_read_so states.now marks.now }
{
    match (states, marks) {
        ([], []) => true,
        ([], [_, ..]) => false,
        ([_state, _states @ ..], []) => false,
        ([state, states @ ..], [mark, marks @ ..]) => {
            is_read_so(*state, *mark) && are_read_so(states, marks)
        }
    }
}

/// Whether a reading says the card and the page that were printed, and the marks that were drawn.
fn says(card: u32, plan: &PagePlan, marks: &[bool], reading: &PageReading) -> bool
    ensures { result ≡ spec.says (printed_page card plan.now) marks.now reading.now }
{
    reading.code.card == card
        && reading.code.page == plan.page
        && are_read_so(reading.states.as_slice(), marks)
}

/// Whether the checker accepts a reading of a scan. `memory` is that of the last counter, and gets
/// this one's.
fn is_accepted(
    alloc: Global,
    memory: &mut CounterMemory,
    election: &Election,
    plans: &CardPlans,
    scan: &BitPage,
    reading: &PageReading,
) -> Result<bool, OutOfMemory>
    requires election { IsValid election.now }
    requires plans { ArePlansOf election.now plans.now }
    ensures { IfOk result (λ so. so ≡ spec.is_accepted election.now scan.now reading.now) }
{
    // For the proof alone: what these calls' clauses say of the page.
    let (_width, _height) = (scan.width(), scan.height());
    let last = replace(memory, CounterMemory::new(alloc));
    let mut counter = Counter::reusing(last, &scan.view())?;
    let tested = check(election, plans, &mut counter, reading);
    *memory = counter.into_memory();
    Ok(tested.is_ok())
}

fn is_marked(state: State) -> bool
    ensures { result ≡ is_marked_state state }
{
    matches!(state, State::Marked)
}

/// How many states are Marked.
fn marked_count(states: &[State]) -> u64
    ensures count { result ≡ count_by is_marked_state states.now }
    ensures few { result ≤ length states.now }
{
    states.iter().filter(|state| is_marked(**state)).count() as u64
}

/// Scores, added up.
fn sum_of(scores: &[u32]) -> u64
    requires { length scores.now < 1000 }
    ensures sum { result ≡ sum scores.now }
    ensures bound { result ≤ 2 ^ 42 }
{
    let mut total = 0;
    for score in scores {
        total += u64::from(*score);
    }
    total
}

/// The columns of the places of a border, added up.
fn columns_of(border: &Border) -> i64
    ensures sum { result ≡ spec.columns_at border.now.places }
    ensures bound { IsWithin (2 ^ 39) result }
{
    let mut total = 0;
    for k in 0..marks(border.paper()) {
        let place = border.at(k);
        total += i64::from(place.u);
    }
    total
}

/// And the rows.
fn rows_of(border: &Border) -> i64
    ensures sum { result ≡ spec.rows_at border.now.places }
    ensures bound { IsWithin (2 ^ 39) result }
{
    let mut total = 0;
    for k in 0..marks(border.paper()) {
        let place = border.at(k);
        total += i64::from(place.v);
    }
    total
}

/// One where something is so, else none.
fn one_if(so: bool) -> u64
    ensures { result ≡ adding.one_if so }
{
    if so { 1 } else { 0 }
}

/// What is counted of a page of a card and its scan, of what it is read as.
pub(crate) fn sums_read(
    alloc: Global,
    memory: &mut CounterMemory,
    election: &Election,
    plans: &CardPlans,
    card: u32,
    plan: &PagePlan,
    marks: &[bool],
    scan: &BitPage,
    reading: &PageReading,
) -> Result<PageSums, OutOfMemory>
    requires election { IsValid election.now }
    requires plans { ArePlansOf election.now plans.now }
    requires states { length reading.now.states < 1000 }
    requires scores { length reading.now.scores < 1000 }
    ensures sums { IfOk result (λ sums. sums
        ≡ adding.sums_read election.now (printed_page card plan.now) marks.now scan.now reading.now) }
    ensures within { IfOk result adding.ArePageSums }
{
    let accepted = is_accepted(alloc, memory, election, plans, scan, reading)?;
    Ok(PageSums {
        pages: 1,
        as_truth: one_if(says(card, plan, marks, reading)),
        certified: one_if(accepted),
        marks: marked_count(reading.states.as_slice()),
        columns: columns_of(&reading.border),
        rows: rows_of(&reading.border),
        scores: sum_of(reading.scores.as_slice()),
    })
}
