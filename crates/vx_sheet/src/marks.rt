ghost use Rattle.std.specs.Prelude.{◌≡◌, ◌≤◌, ◌++◌, IfOk, OnOk};
ghost use Rattle.std.specs.List.{flat_map, range_with_len};
ghost use Rattle.std.specs.Option.{option_copied};
ghost use Rattle.vx_sheet.specs.Sheet as sheet;
ghost use Rattle.vx_sheet.specs.Spans.{AreWithin};

use std::alloc::{AllocError, Global};
use vx_grid::{State, States};
use vx_layout::{Bubble, CardPlan};
use vx_rules::{ContestMarks, ContestMarksList};
use vx_scan_model::PageReading;

/// The bubbles of the page that was read.
fn bubbles_on<'a>(plan: &'a CardPlan, reading: &PageReading) -> &'a [Bubble]
    ensures { result.now ≡ sheet.bubbles_on plan.now reading.now }
{
    let page = reading.code.page;
    if page == 0 {
        return &[];
    }
    match plan.pages.as_slice().get(page as usize - 1) {
        Some(page) => page.bubbles.as_slice(),
        None => &[],
    }
}

/// Whether a contest has one of these bubbles.
fn has_bubble(contest: u32, bubbles: &[Bubble]) -> bool
    ensures { result ≡ sheet.has_bubble contest bubbles.now }
{
    bubbles.iter().any(|bubble| bubble.contest == contest)
}

/// Adds what a bubble was read as, if it is one of the contest's.
fn add_state(
    list: &mut Vec<State>,
    contest: u32,
    bubble: Bubble,
    state: Option<&State>,
) -> Result<(), AllocError>
    ensures { OnOk result (list.new.items
        ≡ list.old.items ++ sheet.state_on contest bubble (option_copied state.entry)) }
{
    if let Some(state) = state {
        if bubble.contest == contest {
            list.push(*state)?;
        }
    }
    Ok(())
}

/// Adds what the bubbles of a contest were read as, in order.
fn add_states(
    list: &mut Vec<State>,
    contest: u32,
    bubbles: &[Bubble],
    states: &[State],
) -> Result<(), AllocError>
    ensures { OnOk result (list.new.items ≡ list.old.items ++ sheet.states_on contest bubbles.now states.now) }
{
    for (place, bubble) in bubbles.iter().enumerate() {
        add_state(list, contest, *bubble, states.get(place))?;
    }
    Ok(())
}

/// What a contest was read as on both pages.
fn marks_of(
    alloc: Global,
    plan: &CardPlan,
    front: &PageReading,
    back: &PageReading,
    contest: u32,
) -> Result<ContestMarks, AllocError>
    ensures { IfOk result (λ marks. marks ≡ sheet.marks_of plan.now front.now back.now contest) }
{
    let mut states = Vec::new(alloc);
    add_states(
        &mut states,
        contest,
        bubbles_on(plan, front),
        front.states.as_slice(),
    )?;
    add_states(
        &mut states,
        contest,
        bubbles_on(plan, back),
        back.states.as_slice(),
    )?;
    Ok(ContestMarks {
        contest,
        states: States::from_vec(states),
    })
}

/// Whether a contest has a bubble on either page.
fn is_on(plan: &CardPlan, front: &PageReading, back: &PageReading, contest: u32) -> bool
    ensures { result ≡ sheet.is_on plan.now front.now back.now contest }
{
    has_bubble(contest, bubbles_on(plan, front)) || has_bubble(contest, bubbles_on(plan, back))
}

/// Contests have numbers from `least` to `greatest`.
#[derive(Clone, Copy)]
pub(crate) struct Span {
    pub(crate) least: u32,
    pub(crate) greatest: u32,
}

/// The span that takes in a contest besides.
fn reaching(span: Span, contest: u32) -> Span
    ensures least { result.least ≤ span.least }
    ensures greatest { span.greatest ≤ result.greatest }
    ensures from { result.least ≤ contest }
    ensures to { contest ≤ result.greatest }
{
    Span {
        least: span.least.min(contest),
        greatest: span.greatest.max(contest),
    }
}

/// The span that takes in the contests of some bubbles besides.
fn widened(span: Span, bubbles: &[Bubble]) -> Span
    ensures within { AreWithin result bubbles.now }
    ensures least { result.least ≤ span.least }
    ensures greatest { span.greatest ≤ result.greatest }
{
    let mut wide = span;
    for bubble in bubbles {
        wide = reaching(wide, bubble.contest);
    }
    wide
}

/// The span of the contests that have a bubble on either page.
fn span_of(plan: &CardPlan, front: &PageReading, back: &PageReading) -> Span
    ensures front { AreWithin result (sheet.bubbles_on plan.now front.now) }
    ensures back { AreWithin result (sheet.bubbles_on plan.now back.now) }
{
    let none = Span {
        least: u32::MAX,
        greatest: 0,
    };
    let one = widened(none, bubbles_on(plan, front));
    widened(one, bubbles_on(plan, back))
}

/// Whether a contest has a bubble on either page, whose contests are of a span; one outside has none.
fn is_there(
    plan: &CardPlan,
    front: &PageReading,
    back: &PageReading,
    span: Span,
    contest: u32,
) -> bool
    requires front { AreWithin span (sheet.bubbles_on plan.now front.now) }
    requires back { AreWithin span (sheet.bubbles_on plan.now back.now) }
    ensures { result ≡ sheet.is_on plan.now front.now back.now contest }
{
    if contest < span.least {
        return false;
    }
    if span.greatest < contest {
        return false;
    }
    is_on(plan, front, back, contest)
}

/// Adds what a contest was read as, if it has a bubble on either page.
fn add_marks(
    alloc: Global,
    list: &mut Vec<ContestMarks>,
    plan: &CardPlan,
    front: &PageReading,
    back: &PageReading,
    span: Span,
    contest: u32,
) -> Result<(), AllocError>
    requires front { AreWithin span (sheet.bubbles_on plan.now front.now) }
    requires back { AreWithin span (sheet.bubbles_on plan.now back.now) }
    ensures { OnOk result (list.new.items ≡ list.old.items ++ sheet.marks_if_on plan.now front.now back.now contest) }
{
    if is_there(plan, front, back, span, contest) {
        list.push(marks_of(alloc, plan, front, back, contest)?)?;
    }
    Ok(())
}

/// Contests have numbers below this one.
const CONTEST_LIMIT: u32 = 500;

/// What the contests with a bubble on either page were read as, in ascending order.
pub(crate) fn marks_on(
    alloc: Global,
    plan: &CardPlan,
    front: &PageReading,
    back: &PageReading,
) -> Result<ContestMarksList, AllocError>
    ensures { IfOk result (λ list. list
        ≡ flat_map (sheet.marks_if_on plan.now front.now back.now) (range_with_len 0 sheet.contest_limit)) }
{
    let mut list = Vec::new(alloc);
    let span = span_of(plan, front, back);
    for contest in 0..CONTEST_LIMIT {
        add_marks(alloc, &mut list, plan, front, back, span, contest)?;
    }
    Ok(ContestMarksList::from_vec(list))
}
