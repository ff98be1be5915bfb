//! The first page of the town, simulated from a few seeds. What is expected was worked out from the
//! rules of simulation by another program.

ghost use Rattle.std.specs.Prelude.{◌≡◌, IfOk, IfSome};
ghost use Rattle.vx_election_model.specs.Valid.{IsValid};
ghost use Rattle.vx_layout.specs.Plans.{ArePlansOf};
ghost use Rattle.vx_layout.specs.Printed.{IsPlanned, code_of};
ghost use Rattle.vx_scan_model.specs.Fits.{FitsUpright};
ghost use Rattle.vx_simulate.specs.Simulated.{IsPrintOf};
ghost use Rattle.vx_trials_pages.specs.First.{first_card};

use rand_core::SeedableRng;
use rand_core::utils::NextWord;
use rand_pcg::Pcg32;
use std::alloc::Global;
use std::test::Fail;
use std::thread::Threads;
use vx_bits::BitPage;
use vx_code::{PageCode, tag_of, version_of};
use vx_election::read_election;
use vx_election_model::Election;
use vx_grid::{Kind, Paper, State};
use vx_layout::{CardPlans, PagePlan, plan_cards, planned_pages_can_be_printed};
use vx_page::read_page;
use vx_raster::paint;
use vx_scan_model::PageReading;
use vx_simulate::{Flags, Simulated, simulate};
use vx_town::{TOWN, on_legal};

/// A first page that is simulated from a seed: which of its two bubbles are marked, and the word that
/// the generator gives next.
#[derive(Clone, Copy)]
struct Trial {
    paper: Paper,
    seed: u64,
    marks: [bool; 2],
    next: u32,
}

const TRIALS: [Trial; 4] = [
    Trial {
        paper: Paper::Letter,
        seed: 7,
        marks: [true, false],
        next: 4177934869,
    },
    Trial {
        paper: Paper::Legal,
        seed: 7,
        marks: [true, false],
        next: 3434396220,
    },
    Trial {
        paper: Paper::Letter,
        seed: 0,
        marks: [false, true],
        next: 4148388023,
    },
    Trial {
        paper: Paper::Legal,
        seed: 18446744073709551615,
        marks: [false, false],
        next: 1021700794,
    },
];

/// The town's election on a paper.
fn town_on(alloc: Global, paper: Paper) -> Result<Election, Fail>
    ensures { IfOk result (λ election. IsValid election) }
{
    match paper {
        Paper::Letter => Ok(read_election(alloc, TOWN.as_bytes())?),
        Paper::Legal => Ok(read_election(alloc, on_legal(alloc, TOWN)?.as_bytes())?),
    }
}

/// The first page of card 0.
fn first_page<'a>(election: &Election, plans: &'a CardPlans) -> Option<&'a PagePlan>
    requires valid { IsValid election.now }
    requires plans { ArePlansOf election.now plans.now }
    ensures { IfSome result (λ plan. IsPlanned election.now (first_card plan.now) plan.now) }
{
    planned_pages_can_be_printed();
    match plans.as_slice().get(0) {
        Some(card) => card.pages.as_slice().get(0),
        None => None,
    }
}

/// The code of a page of card 0.
fn code_for(election: &Election, plan: &PagePlan) -> PageCode
    ensures { result ≡ code_of election.now (first_card plan.now) }
{
    PageCode {
        version: version_of(election.paper),
        test: false,
        kind: Kind::Precinct,
        card: 0,
        page: plan.page,
        tag: tag_of(&election.digest),
    }
}

/// A page of card 0 as it is printed.
fn print_page(alloc: Global, election: &Election, plan: &PagePlan) -> Result<BitPage, Fail>
    requires valid { IsValid election.now }
    requires planned { IsPlanned election.now (first_card plan.now) plan.now }
    ensures { IfOk result (λ page. IsPrintOf election.now plan.now page (first_card plan.now)) }
{
    planned_pages_can_be_printed();
    let code = code_for(election, plan);
    Ok(paint(alloc, election, plan, &code)?)
}

/// A page of card 0, simulated.
fn simulate_page<R: Threads + Sync>(
    rt: &R,
    alloc: Global,
    rng: &mut Pcg32,
    election: &Election,
    plan: &PagePlan,
) -> Result<Simulated, Fail>
    requires valid { IsValid election.now }
    requires planned { IsPlanned election.now (first_card plan.now) plan.now }
    ensures { IfOk result (λ it. FitsUpright election.now it.scan (first_card plan.now) plan.now it.marked) }
{
    let page = print_page(alloc, election, plan)?;
    Ok(simulate(rt, alloc, rng, election, plan, &page)?)
}

/// The state that a bubble is to have.
fn state_of(is_marked: bool) -> State {
    if is_marked {
        State::Marked
    } else {
        State::Clear
    }
}

/// What a seed came to: the marks that were drawn, the word that the generator gives next, and what the
/// scan was read as.
#[derive(Drop)]
struct Tried {
    marked: Flags,
    next: u32,
    reading: PageReading,
}

/// The first page of card 0, simulated from a seed and read.
fn try_page<R: Threads + Sync>(
    rt: &R,
    alloc: Global,
    election: &Election,
    plans: &CardPlans,
    seed: u64,
) -> Result<Tried, Fail>
    requires valid { IsValid election.now }
    requires plans { ArePlansOf election.now plans.now }
{
    let plan = first_page(election, plans).ok_or("no page")?;
    let mut rng = Pcg32::seed_from_u64(seed);
    let simulated = simulate_page(rt, alloc, &mut rng, election, plan)?;
    let next = rng.next_word();
    let reading = read_page(alloc, election, plans, &simulated.scan.view()).map_err(|_| "a fault")?;
    Ok(Tried {
        marked: simulated.marked,
        next,
        reading,
    })
}

/// The town's first page on a paper, simulated from a seed and read.
fn try_seed<R: Threads + Sync>(
    rt: &R,
    alloc: Global,
    paper: Paper,
    seed: u64,
) -> Result<Tried, Fail> {
    let election = town_on(alloc, paper)?;
    let plans = plan_cards(alloc, &election).map_err(|_| "no plans")?;
    try_page(rt, alloc, &election, &plans, seed)
}

#[test]
fn pages_are_read_as_they_were_marked(rt: HostRuntime) -> Result<(), Fail> {
    for trial in TRIALS {
        let tried = try_seed(&rt, rt.alloc(), trial.paper, trial.seed)?;
        assert!(rt; tried.marked.as_slice() == trial.marks.as_slice());
        assert_eq!(rt; tried.next, trial.next);
        for (state, is_marked) in tried.reading.states.as_slice().iter().zip(trial.marks) {
            assert_eq!(rt; *state, state_of(is_marked));
        }
    }
    Ok(())
}
