//! Which bubbles of a page are marked.

ghost use Rattle.std.specs.Prelude.{◌≡◌, ◌==◌, ◌&&◌, ◌<◌, ◌++◌, ◌∷◌, [], IfOk, OnOk, length, filter};
ghost use Rattle.std.specs.List.{list_any};
ghost use Rattle.vx_election_model.specs.Valid.{IsValid};
ghost use Rattle.vx_layout.specs.Flow as flow;
ghost use Rattle.vx_simulate.specs.Draws.{draw_all};
ghost use Rattle.vx_simulate.specs.Marks as marks;

use crate::drawing::{draw, draws};
use rand_pcg::Pcg32;
use std::alloc::Global;
use vx_base::{ListOf, OutOfMemory};
use vx_election_model::{Contest, Election};
use vx_layout::{Bubble, PagePlan};

/// For each bubble of a page in order whether it is marked.
pub type Flags = ListOf<bool>;

/// Options that were drawn for a contest, perhaps one of them twice.
#[derive(Drop)]
pub(crate) struct Drawn {
    /// The contest's place in the election's list.
    pub(crate) contest: u32,
    pub(crate) options: ListOf<u32>,
}

/// Whether a contest has a bubble on the page.
fn has_bubble(plan: &PagePlan, contest: u32) -> bool
    ensures { result ≡ marks.has_bubble plan.now contest }
{
    plan.bubbles
        .as_slice()
        .iter()
        .any(|bubble| bubble.contest == contest)
}

/// The contest with a number.
fn contest_at(election: &Election, number: u32) -> &Contest
    requires { number < length election.now.contests }
    ensures { result.now ≡ flow.contest_at election.now.contests number }
{
    &election.contests.as_slice()[number as usize]
}

/// What is drawn for a contest: how many options, up to its seats, and then as many of its options.
fn draw_options(
    rng: &mut Pcg32,
    alloc: Global,
    election: &Election,
    number: u32,
) -> Result<Drawn, OutOfMemory>
    requires valid { IsValid election.now }
    requires there { number < length election.now.contests }
    ensures drawn { IfOk result (λ drawn. drawn ≡ (marks.draw_options election.now number rng.old).0) }
    ensures next { OnOk result (rng.new ≡ (marks.draw_options election.now number rng.old).1) }
{
    let contest = contest_at(election, number);
    let many = draw(rng, contest.seats + 1);
    let options = draws(rng, alloc, many, contest.options())?;
    Ok(Drawn {
        contest: number,
        options: ListOf::from_vec(options),
    })
}

/// Adds what is drawn for a contest, if it has a bubble on the page.
fn add_options(
    drawn: &mut Vec<Drawn>,
    rng: &mut Pcg32,
    alloc: Global,
    election: &Election,
    plan: &PagePlan,
    number: u32,
) -> Result<(), OutOfMemory>
    requires valid { IsValid election.now }
    requires there { number < length election.now.contests }
    ensures drawn { OnOk result (drawn.new.items ≡ drawn.old.items ++ (draw_all
        (marks.draw_options election.now) (filter (marks.has_bubble plan.now) (number ∷ [])) rng.old).0) }
    ensures next { OnOk result (rng.new ≡ (draw_all
        (marks.draw_options election.now) (filter (marks.has_bubble plan.now) (number ∷ [])) rng.old).1) }
{
    if !has_bubble(plan, number) {
        return Ok(());
    }
    let one = draw_options(rng, alloc, election, number)?;
    drawn.push(one)?;
    Ok(())
}

/// What is drawn for all contests of a page.
fn draw_marks(
    rng: &mut Pcg32,
    alloc: Global,
    election: &Election,
    plan: &PagePlan,
) -> Result<Vec<Drawn>, OutOfMemory>
    requires { IsValid election.now }
    ensures drawn { IfOk result (λ drawn. drawn.items ≡ (marks.draw_marks election.now plan.now rng.old).0) }
    ensures next { OnOk result (rng.new ≡ (marks.draw_marks election.now plan.now rng.old).1) }
{
    let mut drawn = Vec::new(alloc);
    for number in 0..election.contests.len() as u32 {
        add_options(&mut drawn, rng, alloc, election, plan, number)?;
    }
    Ok(drawn)
}

/// Whether an option is among those that were drawn.
fn is_among(option: u32, options: &[u32]) -> bool
    ensures { result ≡ list_any (λ one. one == option) options.now }
{
    options.iter().any(|one| *one == option)
}

/// Whether a bubble's option was drawn for its contest here.
fn has_option(one: &Drawn, bubble: Bubble) -> bool
    ensures { result ≡ (one.now.contest == bubble.contest
        && list_any (λ option. option == bubble.option) one.now.options) }
{
    one.contest == bubble.contest && is_among(bubble.option, one.options.as_slice())
}

/// Whether a bubble is marked: its option was drawn.
fn is_marked(drawn: &[Drawn], bubble: Bubble) -> bool
    ensures { result ≡ marks.is_marked drawn.now bubble }
{
    drawn.iter().any(|one| has_option(one, bubble))
}

/// The marks of a page, bubble by bubble.
fn marks_of(alloc: Global, drawn: &[Drawn], plan: &PagePlan) -> Result<Vec<bool>, OutOfMemory>
    ensures { IfOk result (λ marked. marked.items ≡ marks.marks_of drawn.now plan.now) }
{
    let mut marked = Vec::with_capacity(alloc, plan.bubbles.len())?;
    for bubble in plan.bubbles.as_slice() {
        marked.push(is_marked(drawn, *bubble))?;
    }
    Ok(marked)
}

/// The marks of a page are drawn, bubble by bubble.
pub(crate) fn draw_flags(
    rng: &mut Pcg32,
    alloc: Global,
    election: &Election,
    plan: &PagePlan,
) -> Result<Vec<bool>, OutOfMemory>
    requires { IsValid election.now }
    ensures marked { IfOk result (λ marked. marked.items
        ≡ marks.marks_of (marks.draw_marks election.now plan.now rng.old).0 plan.now) }
    ensures next { OnOk result (rng.new ≡ (marks.draw_marks election.now plan.now rng.old).1) }
{
    let drawn = draw_marks(rng, alloc, election, plan)?;
    marks_of(alloc, drawn.as_slice(), plan)
}
