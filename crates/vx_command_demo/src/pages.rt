//! One page: painted, simulated, read and checked.

ghost use Rattle.std.specs.Prelude.{◌≡◌, ◌∷◌, [], IfOk, OnOk};
ghost use Rattle.vx_election_model.specs.Valid.{IsValid};
ghost use Rattle.vx_layout.specs.Plans.{ArePlansOf};
ghost use Rattle.vx_layout.specs.Printed.{IsPlanned};
ghost use Rattle.vx_scan_model.specs.Reading.{reading_of};
ghost use Rattle.vx_sheet.specs.Shows.{IsOfPage};
ghost use Rattle.vx_command_demo.specs.Adding as adding;
ghost use Rattle.vx_command_demo.specs.Sums.{page_sums, read_as};
ghost use Rattle.vx_command_demo.specs.Trials as spec;

use crate::judging::sums_read;
use crate::sums::{PageSums, unread};
use rand_pcg::Pcg32;
use std::alloc::Global;
use std::thread::Threads;
use vx_base::OutOfMemory;
use vx_code::{PageCode, tag_of, version_of};
use vx_count::CounterMemory;
use vx_election_model::Election;
use vx_grid::Kind;
use vx_layout::{CardPlans, PagePlan, planned_pages_can_be_printed};
use vx_page::read_planned;
use vx_raster::paint;
use vx_scan_model::{PageFault, named_pages_stand_on_the_grid};
use vx_sheet::PageRead;
use vx_simulate::{Simulated, simulate};

/// The code of a page of a card.
fn code_for(election: &Election, card: u32, plan: &PagePlan) -> PageCode
    ensures { result ≡ spec.code_for election.now card plan.now }
{
    PageCode {
        version: version_of(election.paper),
        test: false,
        kind: Kind::Precinct,
        card,
        page: plan.page,
        tag: tag_of(&election.digest),
    }
}

/// A page of a card is painted and simulated.
fn simulate_page<R: Threads + Sync>(
    rt: &R,
    alloc: Global,
    rng: &mut Pcg32,
    election: &Election,
    card: u32,
    plan: &PagePlan,
) -> Result<Simulated, OutOfMemory>
    requires election { IsValid election.now }
    requires planned { IsPlanned election.now (spec.printed_page card plan.now) plan.now }
    ensures scan { IfOk result (λ it. it.scan ≡ (spec.try_page election.now card plan.now rng.old).0.scan) }
    ensures marks { IfOk result (λ it. it.marked ≡ (spec.try_page election.now card plan.now rng.old).0.marks) }
    ensures next { OnOk result (rng.new ≡ (spec.try_page election.now card plan.now rng.old).1) }
{
    planned_pages_can_be_printed();
    let page = paint(alloc, election, plan, &code_for(election, card, plan))?;
    simulate(rt, alloc, rng, election, plan, &page)
}

/// What a page was read as, and what is counted of it.
#[derive(Drop)]
pub(crate) struct Judged {
    pub(crate) read: PageRead,
    pub(crate) sums: PageSums,
}

/// A simulated page of a card is read and checked.
fn judge(
    alloc: Global,
    memory: &mut CounterMemory,
    election: &Election,
    plans: &CardPlans,
    card: u32,
    plan: &PagePlan,
    simulated: &Simulated,
) -> Result<Judged, OutOfMemory>
    requires election { IsValid election.now }
    requires plans { ArePlansOf election.now plans.now }
    ensures read { IfOk result (λ judged. judged.read ≡ reading_of election.now simulated.now.scan) }
    ensures of_page { IfOk result (λ judged. IfOk judged.read (IsOfPage election.now)) }
    ensures sums { IfOk result (λ judged. judged.sums
        ≡ adding.sums_of_read election.now (spec.printed_page card plan.now) simulated.now.marked
        simulated.now.scan (reading_of election.now simulated.now.scan)) }
    ensures within { IfOk result (λ judged. adding.ArePageSums judged.sums) }
{
    named_pages_stand_on_the_grid();
    let scan = &simulated.scan;
    match read_planned(alloc, memory, election, plans, &scan.view()) {
        Ok((reading, _plan)) => {
            let marks = simulated.marked.as_slice();
            let sums = sums_read(
                alloc, memory, election, plans, card, plan, marks, scan, &reading,
            )?;
            let read = Ok(reading);
            Ok(Judged { read, sums })
        }
        Err(PageFault::OutOfMemory) => Err(OutOfMemory),
        Err(fault) => Ok(Judged {
            read: Err(fault),
            sums: unread(),
        }),
    }
}

/// A page of a card is simulated, read and checked. `memory` is that of the last counter, and gets this
/// page's.
pub(crate) fn try_page<R: Threads + Sync>(
    rt: &R,
    alloc: Global,
    memory: &mut CounterMemory,
    rng: &mut Pcg32,
    election: &Election,
    plans: &CardPlans,
    card: u32,
    plan: &PagePlan,
) -> Result<Judged, OutOfMemory>
    requires election { IsValid election.now }
    requires plans { ArePlansOf election.now plans.now }
    requires planned { IsPlanned election.now (spec.printed_page card plan.now) plan.now }
    ensures read { IfOk result (λ judged. judged.read
        ≡ read_as election.now (spec.try_page election.now card plan.now rng.old).0) }
    ensures of_page { IfOk result (λ judged. IfOk judged.read (IsOfPage election.now)) }
    ensures sums { IfOk result (λ judged. judged.sums
        ≡ page_sums election.now ((spec.try_page election.now card plan.now rng.old).0 ∷ [])) }
    ensures within { IfOk result (λ judged. adding.ArePageSums judged.sums) }
    ensures next { OnOk result (rng.new ≡ (spec.try_page election.now card plan.now rng.old).1) }
{
    let simulated = simulate_page(rt, alloc, rng, election, card, plan)?;
    judge(alloc, memory, election, plans, card, plan, &simulated)
}
