//! The sheets of a demo, one after another.

ghost use Rattle.std.specs.Prelude.{◌≡◌, ◌≤◌, ◌∷◌, [], IfOk, MatchOption, OnOk, slice_get};
ghost use Rattle.vx_election_model.specs.Valid.{IsValid};
ghost use Rattle.vx_layout.specs.Plans.{ArePlansOf};
ghost use Rattle.vx_layout.specs.Printed.{IsPlanned};
ghost use Rattle.vx_simulate.specs.Draws.{draw_all};
ghost use Rattle.vx_command_demo.specs.Adding as adding;
ghost use Rattle.vx_command_demo.specs.Trials as spec;

use crate::counted::{Counted, both, nothing};
use crate::pages::try_page;
use crate::reasons::sums_of_pages;
use crate::sums::both_pages;
use rand_core::SeedableRng;
use rand_pcg::Pcg32;
use std::alloc::Global;
use std::thread::Threads;
use vx_base::OutOfMemory;
use vx_count::CounterMemory;
use vx_election_model::Election;
use vx_layout::{CardPlans, PagePlan, planned_pages_can_be_printed, plans_are_numbered};

/// The two pages of a sheet of a card are simulated, read and checked.
fn try_pages<R: Threads + Sync>(
    rt: &R,
    alloc: Global,
    memory: &mut CounterMemory,
    rng: &mut Pcg32,
    election: &Election,
    plans: &CardPlans,
    card: u32,
    front: &PagePlan,
    back: &PagePlan,
) -> Result<Counted, OutOfMemory>
    requires election { IsValid election.now }
    requires plans { ArePlansOf election.now plans.now }
    requires front { IsPlanned election.now (spec.printed_page card front.now) front.now }
    requires back { IsPlanned election.now (spec.printed_page card back.now) back.now }
    ensures counted { IfOk result (λ counted. counted ≡ adding.counted_of election.now
        ((draw_all (spec.try_page election.now card) (front.now ∷ back.now ∷ []) rng.old).0 ∷ [])) }
    ensures within { IfOk result adding.IsCounted }
    ensures two { IfOk result (λ counted. counted.pages.pages ≡ 2) }
    ensures next { OnOk result (rng.new
        ≡ (draw_all (spec.try_page election.now card) (front.now ∷ back.now ∷ []) rng.old).1) }
{
    let front = try_page(rt, alloc, memory, rng, election, plans, card, front)?;
    let back = try_page(rt, alloc, memory, rng, election, plans, card, back)?;
    let reasons = sums_of_pages(alloc, election, plans, &front.read, &back.read)?;
    Ok(Counted {
        pages: both_pages(&front.sums, &back.sums),
        reasons,
    })
}

/// The first two pages of a card, if there is one.
fn first_pages<'a>(
    election: &Election,
    plans: &'a CardPlans,
    card: u32,
) -> Option<(&'a PagePlan, &'a PagePlan)>
    requires election { IsValid election.now }
    requires plans { ArePlansOf election.now plans.now }
    ensures { MatchOption result
        (spec.first_sheet (slice_get plans.now card) ≡ [])
        (λ pages. spec.IsFirstSheet election.now plans.now card pages.0.now pages.1.now) }
{
    let _ = election;
    plans_are_numbered();
    planned_pages_can_be_printed();
    let Some(plan) = plans.as_slice().get(card as usize) else {
        return None;
    };
    let pages = plan.pages.as_slice();
    Some((&pages[0], &pages[1]))
}

/// The first sheet of a card is simulated, read and checked.
fn try_card<R: Threads + Sync>(
    rt: &R,
    alloc: Global,
    memory: &mut CounterMemory,
    rng: &mut Pcg32,
    election: &Election,
    plans: &CardPlans,
    card: u32,
) -> Result<Counted, OutOfMemory>
    requires election { IsValid election.now }
    requires plans { ArePlansOf election.now plans.now }
    ensures counted { IfOk result (λ counted. counted ≡ adding.counted_of election.now
        ((spec.try_card election.now plans.now card rng.old).0 ∷ [])) }
    ensures within { IfOk result adding.IsCounted }
    ensures few { IfOk result (λ counted. counted.pages.pages ≤ 2) }
    ensures next { OnOk result (rng.new ≡ (spec.try_card election.now plans.now card rng.old).1) }
{
    match first_pages(election, plans, card) {
        Some((front, back)) => try_pages(
            rt, alloc, memory, rng, election, plans, card, front, back,
        ),
        None => Ok(nothing()),
    }
}

/// So many sheets from a seed are simulated, read and checked. One page is in memory at a time.
pub(crate) fn try_sheets<R: Threads + Sync>(
    rt: &R,
    alloc: Global,
    election: &Election,
    plans: &CardPlans,
    seed: u64,
    sheets: u32,
) -> Result<Counted, OutOfMemory>
    requires election { IsValid election.now }
    requires plans { ArePlansOf election.now plans.now }
    requires sheets { sheets ≤ 1000 }
    ensures { IfOk result (λ counted. counted
        ≡ adding.counted_of election.now (spec.sheets_of election.now plans.now seed sheets)) }
{
    let mut memory = CounterMemory::new(alloc);
    let mut rng = Pcg32::seed_from_u64(seed);
    let mut counted = nothing();
    for before in 0..sheets {
        let more = try_card(
            rt,
            alloc,
            &mut memory,
            &mut rng,
            election,
            plans,
            before % 3,
        )?;
        counted = both(&counted, &more);
    }
    Ok(counted)
}
