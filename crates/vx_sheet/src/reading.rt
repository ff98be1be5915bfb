ghost use Rattle.std.specs.Prelude.{◌≡◌, ◌<◌, ◌+◌, ◌^◌, IfErr, IfOk, IsOk, Ok};
ghost use Rattle.vx_election_model.specs.Valid.{IsValid};
ghost use Rattle.vx_layout.specs.Plan.{plan_of};
ghost use Rattle.vx_layout.specs.Plans.{ArePlansOf};
ghost use Rattle.vx_sheet.specs.Came.{sheet_read};
ghost use Rattle.vx_sheet.specs.Reads.{IsReadOf};
ghost use Rattle.vx_sheet.specs.Shows.{CanBeAdded, IsOfPage, IsReadAll, PlansShowOptions};

use crate::came::Came;
use crate::fault::SheetFault;
use crate::laws::sheets_fit;
use crate::pairing::pair;
use std::alloc::Global;
use vx_base::OutOfMemory;
use vx_bits::BitView;
use vx_count::CounterMemory;
use vx_election_model::Election;
use vx_layout::{CardPlan, CardPlans};
use vx_page::read_planned;
use vx_rules::SheetMarks;
use vx_scan_model::{PageFault, PageReading, named_pages_stand_on_the_grid};

/// What an image is read as, or its first fault.
pub type PageRead = Result<PageReading, PageFault>;

/// What an image is read as, or its first fault, in the memory of an earlier counter.
pub fn read_image(
    alloc: Global,
    memory: &mut CounterMemory,
    election: &Election,
    plans: &CardPlans,
    image: &BitView<'_>,
) -> Result<PageRead, OutOfMemory>
    requires election { IsValid election.now }
    requires plans { ArePlansOf election.now plans.now }
    ensures { IfOk result (IsReadOf election.now image.now) }
{
    match read_planned(alloc, memory, election, plans, image) {
        Ok((reading, _plan)) => Ok(Ok(reading)),
        Err(PageFault::OutOfMemory) => Err(OutOfMemory),
        Err(fault) => Ok(Err(fault)),
    }
}

/// The plan of a card that is planned.
fn card_plan<'p>(election: &Election, plans: &'p CardPlans, card: u32) -> &'p CardPlan
    requires plans { ArePlansOf election.now plans.now }
    requires there { IsOk (plan_of election.now card) }
    ensures { plan_of election.now card ≡ Ok result.now }
{
    let _ = election;
    &plans.as_slice()[card as usize]
}

/// The sheet of two readings, or that they don't pair.
fn pair_readings(
    alloc: Global,
    election: &Election,
    plans: &CardPlans,
    image: u64,
    first: &PageReading,
    second: &PageReading,
) -> Result<Result<SheetMarks, Came>, OutOfMemory>
    requires election { IsValid election.now }
    requires plans { ArePlansOf election.now plans.now }
    requires shown { PlansShowOptions election.now }
    requires first { IsOfPage election.now first.now }
    requires second { IsOfPage election.now second.now }
    ensures exact { IfOk result (λ read. read ≡ sheet_read election.now image (Ok first.now) (Ok second.now)) }
    ensures added { IfOk result (λ read. IfOk read (CanBeAdded election.now)) }
    ensures told { IfOk result (λ read. IfErr read (IsReadAll election.now)) }
{
    sheets_fit();
    named_pages_stand_on_the_grid();
    let _ = image;
    let plan = card_plan(election, plans, first.code.card);
    match pair(alloc, plan, first, second) {
        Ok(sheet) => Ok(Ok(sheet)),
        Err(SheetFault::OutOfMemory) => Err(OutOfMemory),
        Err(fault) => Ok(Err(Came::Unpaired(fault))),
    }
}

/// The sheet of two images that were read, the first of which has a number, or what they come to in its
/// place: the first of them that has a fault can't be read, two readings pair or don't. A sheet fits the
/// election and can be kept in a journal.
pub fn read_sheet(
    alloc: Global,
    election: &Election,
    plans: &CardPlans,
    image: u64,
    first: &PageRead,
    second: &PageRead,
) -> Result<Result<SheetMarks, Came>, OutOfMemory>
    requires election { IsValid election.now }
    requires plans { ArePlansOf election.now plans.now }
    requires shown { PlansShowOptions election.now }
    requires first { IfOk first.now (IsOfPage election.now) }
    requires second { IfOk second.now (IsOfPage election.now) }
    requires room { image + 1 < 2 ^ 64 }
    ensures exact { IfOk result (λ read. read ≡ sheet_read election.now image first.now second.now) }
    ensures added { IfOk result (λ read. IfOk read (CanBeAdded election.now)) }
    ensures told { IfOk result (λ read. IfErr read (IsReadAll election.now)) }
{
    match (first, second) {
        (Err(fault), _) => Ok(Err(Came::Unread(image, *fault))),
        (Ok(_), Err(fault)) => Ok(Err(Came::Unread(image + 1, *fault))),
        (Ok(first), Ok(second)) => pair_readings(alloc, election, plans, image, first, second),
    }
}
