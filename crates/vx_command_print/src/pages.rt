ghost use Rattle.std.specs.Prelude.{◌≡◌, ◌<◌, false, All, Bool, Ok};
ghost use Rattle.vx_base.specs.Refusals.{Gives};
ghost use Rattle.vx_code.specs.Code.{IsInRange};
ghost use Rattle.vx_election_model.specs.Valid.{IsValid};
ghost use Rattle.vx_layout.specs.Printed.{code_of};
ghost use Rattle.vx_command.specs.Acts.{writing};
ghost use Rattle.vx_command.specs.Devices.{TouchesSink, writes_nothing};
ghost use Rattle.vx_command.specs.Done.{IsWritten};
ghost use Rattle.vx_command.specs.Steps.{is_no_memory};
ghost use Rattle.vx_command_print.specs.Outcome.{page_text as page_text_of, pages_outcome};

use crate::ballot::Ballot;
use std::alloc::Global;
use vx_base::Bytes;
use vx_code::{PageCode, tag_of, version_of};
use vx_command::{Halt, acts_in_order, steps_in_order, write_text};
use vx_election_model::Election;
use vx_grid::page_height;
use vx_io::Sink;
use vx_layout::PagePlan;
use vx_pbm::write_p4;
use vx_raster::paint;

/// How many bytes a printed page's raw bitmap has before its rows, and for each row.
const HEADER_BYTES: usize = 13;

const ROW_BYTES: usize = 213;

/// The code of a ballot's page with a number.
fn code_for(election: &Election, ballot: Ballot, page: u32) -> PageCode
    requires card { ballot.card < 1024 }
    requires page { page < 64 }
    ensures exact { result ≡ code_of election.now
        (record { card = ballot.card; page = page; kind = ballot.kind; test = ballot.test }) }
    ensures in_range { IsInRange result }
{
    PageCode {
        version: version_of(election.paper),
        test: ballot.test,
        kind: ballot.kind,
        card: ballot.card,
        page,
        tag: tag_of(&election.digest),
    }
}

/// A page of a ballot as a raw bitmap.
fn page_text(
    alloc: Global,
    election: &Election,
    ballot: Ballot,
    plan: &PagePlan,
) -> Result<Bytes, Halt>
    requires election { IsValid election.now }
    requires card { ballot.card < 1024 }
    requires page { plan.now.page < 64 }
    ensures { Gives is_no_memory result (Ok (page_text_of election.now ballot plan.now)) }
{
    let code = code_for(election, ballot, plan.page);
    let page = paint(alloc, election, plan, &code)?;
    let rows = page_height(plan.paper) as usize;
    let mut text = Bytes::with_capacity(alloc, HEADER_BYTES + ROW_BYTES * rows)?;
    write_p4(&page.view(), &mut text)?;
    Ok(text)
}

/// Prints a page of a ballot.
fn print_page<S: Sink>(
    alloc: Global,
    election: &Election,
    ballot: Ballot,
    plan: &PagePlan,
    out: &mut S,
) -> Result<(), Halt>
    requires election { IsValid election.now }
    requires card { ballot.card < 1024 }
    requires page { plan.now.page < 64 }
    ensures done { IsWritten (writing (page_text_of election.now ballot plan.now))
        (S.taken out.old) (S.taken out.new) result }
    ensures sink { TouchesSink S.Sink out.old out.new result }
    ensures late { (first : Bool) → writes_nothing first result ≡ false }
{
    steps_in_order::<Bytes>();
    let text = page_text(alloc, election, ballot, plan)?;
    write_text(out, text.as_slice())
}

/// Prints pages of a ballot in order. One page and its text are in memory at a time.
pub fn print_pages<S: Sink>(
    alloc: Global,
    election: &Election,
    ballot: Ballot,
    plans: &[PagePlan],
    out: &mut S,
) -> Result<(), Halt>
    requires election { IsValid election.now }
    requires card { ballot.card < 1024 }
    requires pages { All (λ plan. plan.page < 64) plans.now }
    ensures done { IsWritten (pages_outcome election.now ballot plans.now)
        (S.taken out.old) (S.taken out.new) result }
    ensures sink { TouchesSink S.Sink out.old out.new result }
    ensures late { (first : Bool) → writes_nothing first result ≡ false }
{
    acts_in_order();
    for plan in plans {
        print_page(alloc, election, ballot, plan, out)?;
    }
    Ok(())
}
