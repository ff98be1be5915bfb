ghost use Rattle.std.specs.Prelude.{◌≡◌, ◌↔◌, ℕ, true, false, Err, IfOk};
ghost use Rattle.vx_base.specs.Refusals.{Gives};
ghost use Rattle.vx_election_model.specs.Valid.{IsValid};
ghost use Rattle.vx_grid.specs.Places.{AreWithin};
ghost use Rattle.vx_layout.specs.Plans.{ArePlansOf};
ghost use Rattle.vx_scan_model.specs.Faults.{is_no_memory as is_want_of_memory};
ghost use Rattle.vx_scan_model.specs.Reading as reading;
ghost use Rattle.vx_scan_model.specs.Reading.{code_read, either_way, reading_of_code, upright_reading_of};
ghost use Rattle.vx_page.specs.Named.{IsOfAPlan, GivesOnPlan, GivesWithPlan};
ghost use Rattle.vx_page.specs.Margin.{ReadsWhatFits};

use crate::bubbles::{scores_of, states_of};
use crate::code::read_code;
use std::alloc::Global;
use std::mem::replace;
use vx_bits::BitView;
use vx_border::trace;
use vx_count::{Counter, CounterMemory};
use vx_election_model::Election;
use vx_grid::{Border, Paper};
use vx_layout::{CardPlans, PagePlan};
use vx_scan_model::{
    PageFault, PageReading, a_border_is_the_border, allowed_heights, find_plan,
    fitting_scans_are_read, named_pages_stand_on_the_grid,
};

/// Whether a scan has a number of columns and of rows that is read on this paper.
fn is_allowed(paper: Paper, page: &BitView<'_>) -> bool
    ensures { result ≡ reading.is_allowed paper page.now }
{
    let (width, height) = (page.width(), page.height());
    let (least, most) = allowed_heights(paper);
    (1600..=2000).contains(&width) && (least..=most).contains(&height)
}

/// Whether a fault is want of memory.
fn is_no_memory(fault: PageFault) -> bool
    ensures { result ≡ is_want_of_memory fault }
{
    matches!(fault, PageFault::OutOfMemory)
}

/// The reading of a page whose timing marks were found, with the plan of the page.
fn read_marked<'a>(
    alloc: Global,
    election: &Election,
    plans: &'a CardPlans,
    counter: &Counter,
    border: Border,
) -> Result<(PageReading, &'a PagePlan), PageFault>
    requires election { IsValid election.now }
    requires plans { ArePlansOf election.now plans.now }
    requires paper { border.paper ≡ election.now.paper }
    requires border { AreWithin 9000 border.places }
    ensures { GivesOnPlan election.now
        (reading_of_code election.now counter.now border (code_read counter.now border)) result }
{
    named_pages_stand_on_the_grid();
    let code = match read_code(counter, &border) {
        Ok(code) => code,
        Err(fault) => return Err(PageFault::Code(fault)),
    };
    let plan = find_plan(election, plans, code)?;
    let scores = scores_of(alloc, counter, &border, plan.bubbles.as_slice())?;
    let states = states_of(alloc, scores.as_slice(), election.thresholds)?;
    let reading = PageReading {
        code,
        border,
        scores,
        states,
        turned: false,
    };
    Ok((reading, plan))
}

/// The reading of a counter's page as it lies, with the plan of the page. Its frame is allowed.
fn read_upright<'a>(
    alloc: Global,
    election: &Election,
    plans: &'a CardPlans,
    counter: &Counter,
) -> Result<(PageReading, &'a PagePlan), PageFault>
    requires election { IsValid election.now }
    requires plans { ArePlansOf election.now plans.now }
    requires allowed { reading.is_allowed election.now.paper counter.now ≡ true }
    ensures { GivesOnPlan election.now (upright_reading_of election.now counter.now) result }
{
    a_border_is_the_border();
    match trace(counter, election.paper) {
        Ok(border) => read_marked(alloc, election, plans, counter, border),
        Err(fault) => Err(PageFault::Border(fault)),
    }
}

/// The reading of the turned page that a counter has, told as one, with the plan of the page; or the
/// fault of the page as it lay, which is given.
fn read_turned<'a>(
    alloc: Global,
    election: &Election,
    plans: &'a CardPlans,
    counter: &Counter,
    first: PageFault,
) -> Result<(PageReading, &'a PagePlan), PageFault>
    requires election { IsValid election.now }
    requires plans { ArePlansOf election.now plans.now }
    requires allowed { reading.is_allowed election.now.paper counter.now ≡ true }
    ensures { GivesOnPlan election.now
        (either_way (Err first) (upright_reading_of election.now counter.now)) result }
{
    match read_upright(alloc, election, plans, counter) {
        Ok((reading, plan)) => {
            let over = PageReading {
                turned: true,
                ..reading
            };
            Ok((over, plan))
        }
        Err(other) => {
            if is_no_memory(other) {
                return Err(other);
            }
            Err(first)
        }
    }
}

/// The reading of a counter's page, a scan whose frame is allowed, with the plan of the page. Where
/// the scan as it lies isn't read, its counter is turned and reads on, without a second copy.
fn read_counted<'a>(
    alloc: Global,
    election: &Election,
    plans: &'a CardPlans,
    counter: &mut Counter,
) -> Result<(PageReading, &'a PagePlan), PageFault>
    requires election { IsValid election.now }
    requires plans { ArePlansOf election.now plans.now }
    requires allowed { reading.is_allowed election.now.paper counter.old ≡ true }
    ensures { GivesWithPlan election.now counter.old result }
{
    match read_upright(alloc, election, plans, counter) {
        Ok(given) => Ok(given),
        Err(fault) => {
            if is_no_memory(fault) {
                return Err(fault);
            }
            counter.turn();
            read_turned(alloc, election, plans, counter, fault)
        }
    }
}

/// The reading of a scan whose frame is allowed, with the plan of its page. The counter takes the
/// memory of the last one and leaves its own, unless it can't be made.
fn read_framed<'a>(
    alloc: Global,
    memory: &mut CounterMemory,
    election: &Election,
    plans: &'a CardPlans,
    page: &BitView<'_>,
) -> Result<(PageReading, &'a PagePlan), PageFault>
    requires election { IsValid election.now }
    requires plans { ArePlansOf election.now plans.now }
    requires allowed { reading.is_allowed election.now.paper page.now ≡ true }
    ensures { GivesWithPlan election.now page.now result }
{
    let last = replace(memory, CounterMemory::new(alloc));
    let mut counter = Counter::reusing(last, page)?;
    let read = read_counted(alloc, election, plans, &mut counter);
    *memory = counter.into_memory();
    read
}

/// Reads the scan of a page of the election, whose cards are planned so, and answers the plan of the
/// page besides, which lives as long as the plans. The scan may be the page turned by 180 degrees: it
/// is read as it lies, and where it has a fault so, it is read turned; where it has one so too, the
/// first is told.
///
/// The first fault is the answer, in this order: `FrameSize` where there aren't 1600 to 2000 columns
/// and 2100 to 2400 rows, or 2700 to 3000 on legal paper, `Border` where the timing marks can't be
/// followed, `Code` where the boxes show no code of the paper's version, `OtherElection` where the
/// code has another election's tag, `NoCard` and `NoPage` where it names a card or a page that isn't
/// planned.
///
/// `memory` is that of the last scan's counter and gets this one's, so that all scans of a file are
/// read in the memory of the greatest.
pub fn read_planned<'a>(
    alloc: Global,
    memory: &mut CounterMemory,
    election: &Election,
    plans: &'a CardPlans,
    page: &BitView<'_>,
) -> Result<(PageReading, &'a PagePlan), PageFault>
    requires election { IsValid election.now }
    requires plans { ArePlansOf election.now plans.now }
    ensures { GivesWithPlan election.now page.now result }
{
    if is_allowed(election.paper, page) {
        read_framed(alloc, memory, election, plans, page)
    } else {
        Err(PageFault::FrameSize(page.width(), page.height()))
    }
}

/// Reads the scan of a page of the election, whose cards are planned so, with the faults of
/// `read_planned`.
pub fn read_page(
    alloc: Global,
    election: &Election,
    plans: &CardPlans,
    page: &BitView<'_>,
) -> Result<PageReading, PageFault>
    requires election { IsValid election.now }
    requires plans { ArePlansOf election.now plans.now }
    ensures exact { Gives is_want_of_memory result (reading.reading_of election.now page.now) }
    // The frame is tested before any memory is taken.
    ensures frame { (width height : ℕ) → (result ≡ Err (PageFault.FrameSize width height))
        ↔ ((reading.is_allowed election.now.paper page.now ≡ false)
        × (width ≡ page.now.width) × (height ≡ page.now.height)) }
    // The code names a planned page, and each of its bubbles has a score and a state.
    ensures planned { IfOk result (IsOfAPlan election.now) }
    // A scan that fits a printed page with its marks, as it lies or turned, is read as that page with
    // those marks.
    ensures margin { ReadsWhatFits election.now page.now result }
{
    fitting_scans_are_read();
    let (width, height) = (page.width(), page.height());
    if !is_allowed(election.paper, page) {
        return Err(PageFault::FrameSize(width, height));
    }
    let mut memory = CounterMemory::new(alloc);
    match read_framed(alloc, &mut memory, election, plans, page) {
        Ok((reading, _)) => Ok(reading),
        Err(fault) => Err(fault),
    }
}
