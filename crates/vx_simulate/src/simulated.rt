//! Simulated scans.

ghost use Rattle.std.specs.Prelude.{◌≡◌, All, length, IfOk, OnOk};
ghost use Rattle.vx_plane.specs.Plane.{page_of, dark_at};
ghost use Rattle.vx_grid.specs.Paper.{page_width, page_height};
ghost use Rattle.vx_election_model.specs.Valid.{IsValid};
ghost use Rattle.vx_layout.specs.Pages.{IsOnGrid};
ghost use Rattle.vx_layout.specs.Printed.{PrintedPage, print_of_page};
ghost use Rattle.vx_scan_model.specs.Fits.{FitsUpright};
ghost use Rattle.vx_simulate.specs.Flips.{AreFlipsOf};
ghost use Rattle.vx_simulate.specs.Lie.{IsShort};
ghost use Rattle.vx_simulate.specs.Simulated as simulated;
ghost use Rattle.vx_simulate.specs.Simulated.{IsPrintOf, scan_of};

use crate::laws::simulated_scans_fit;
use crate::marks::Flags;
use crate::painting::inked_paper;
use crate::scan_flips::flipped;
use crate::sheared::sheared_rows;
use crate::simulation::{Simulation, draw_page};
use rand_pcg::Pcg32;
use std::alloc::Global;
use std::thread::Threads;
use vx_base::OutOfMemory;
use vx_bits::BitPage;
use vx_election_model::Election;
use vx_layout::{PagePlan, printed_pages_keep_clear};
use vx_margin::timing_marks_are_marks;

/// A simulated scan of a page, and for each of its bubbles in order whether it is marked.
#[derive(Drop)]
pub struct Simulated {
    /// 1800 by 2240 pixels, or 2840 on legal paper.
    pub scan: BitPage,
    pub marked: Flags,
}

/// The scan of a page for which all is drawn.
fn scan_page<R: Threads + Sync>(
    rt: &R,
    alloc: Global,
    plan: &PagePlan,
    page: &BitPage,
    drawn: &Simulation,
) -> Result<BitPage, OutOfMemory>
    requires grid { All (IsOnGrid plan.now.paper) plan.now.bubbles }
    requires whole { page.now ≡ page_of page_width (page_height plan.now.paper) (dark_at page.now) }
    requires short { IsShort drawn.now.shear }
    requires inks { length drawn.now.inks ≡ length plan.now.bubbles }
    requires in_zones { AreFlipsOf plan.now drawn.now.flips }
    ensures { IfOk result (λ scan. scan ≡ scan_of plan.now (dark_at page.now) drawn.now) }
{
    let paper = inked_paper(alloc, plan, drawn.inks.as_slice(), page)?;
    let flips = flipped(alloc, plan, drawn.shear, &drawn.flips)?;
    sheared_rows(rt, alloc, drawn.shear, &paper, &flips)
}

/// Makes a scan of a printed page: marks, ink and wrong pixels are drawn from the generator. The scan
/// is the same for every number of threads.
pub fn simulate<R: Threads + Sync>(
    rt: &R,
    alloc: Global,
    rng: &mut Pcg32,
    election: &Election,
    plan: &PagePlan,
    page: &BitPage,
) -> Result<Simulated, OutOfMemory>
    requires valid { IsValid election.now }
    requires printed { (printed : PrintedPage) × IsPrintOf election.now plan.now page.now printed }
    ensures scan { (printed : PrintedPage) → IsPrintOf election.now plan.now page.now printed →
        IfOk result (λ it. it.scan ≡ scan_of plan.now (print_of_page election.now plan.now printed)
        (simulated.draw_page election.now plan.now rng.old).0) }
    ensures marked { IfOk result (λ it.
        it.marked ≡ (simulated.draw_page election.now plan.now rng.old).0.marks) }
    ensures next { OnOk result (rng.new ≡ (simulated.draw_page election.now plan.now rng.old).1) }
    // Whatever the state of the generator.
    ensures fits { (printed : PrintedPage) → IsPrintOf election.now plan.now page.now printed →
        IfOk result (λ it. FitsUpright election.now it.scan printed plan.now it.marked) }
{
    simulated_scans_fit();
    printed_pages_keep_clear();
    timing_marks_are_marks();
    let drawn = draw_page(rng, alloc, election, plan)?;
    let scan = scan_page(rt, alloc, plan, page, &drawn)?;
    Ok(Simulated {
        scan,
        marked: drawn.marks,
    })
}
