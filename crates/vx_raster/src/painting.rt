ghost use Rattle.std.specs.Prelude.{◌≡◌, IfOk};
ghost use Rattle.vx_plane.specs.Plane.{page_of};
ghost use Rattle.vx_grid.specs.Paper.{page_width, page_height as page_height_of};
ghost use Rattle.vx_code.specs.Code.{IsInRange, boxes_of};
ghost use Rattle.vx_layout.specs.Print.{print_of};
ghost use Rattle.vx_election_model.specs.Valid.{IsValid};

use crate::boxes::paint_boxes;
use crate::marks::paint_marks;
use crate::outline::paint_bubbles;
use crate::text::paint_texts;
use std::alloc::Global;
use vx_bits::{BitPage, OutOfMemory};
use vx_code::{PageCode, boxes_of};
use vx_election_model::Election;
use vx_grid::{PAGE_WIDTH, page_height};
use vx_layout::PagePlan;

/// The printed page of a plan with the boxes of its code: 1700 by 2200 pixels, or 2800 on legal paper.
/// What the plan puts off the page is left out.
pub fn paint(
    alloc: Global,
    _election: &Election,
    plan: &PagePlan,
    code: &PageCode,
) -> Result<BitPage, OutOfMemory>
    requires election { IsValid _election.now }
    requires code { IsInRange code.now }
    ensures { IfOk result (λ page. page ≡
        page_of page_width (page_height_of plan.now.paper) (print_of plan.now (boxes_of code.now))) }
{
    let mut page = BitPage::new(alloc, PAGE_WIDTH, page_height(plan.paper))?;
    paint_marks(&mut page, plan.paper);
    paint_boxes(&mut page, plan.paper, &boxes_of(code));
    paint_bubbles(&mut page, plan.paper, plan.bubbles.as_slice());
    paint_texts(&mut page, plan.texts.as_slice());
    Ok(page)
}
