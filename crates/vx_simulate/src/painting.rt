//! The printed page with the ink that a simulated voter leaves in its bubbles.

ghost use Rattle.std.specs.Prelude.{◌≡◌, ◌<◌, ◌≤◌, ◌+◌, ◌-◌, ◌^◌, IfOk, All, length, min, pos};
ghost use Rattle.vx_plane.specs.Plane.{page_of, dark_at, painted, placed, rectangle, in_any};
ghost use Rattle.vx_layout.specs.Pages.{IsOnGrid};
ghost use Rattle.vx_simulate.specs.Ink.{ink_pixels, inked_bubble, inked};
ghost use Rattle.vx_simulate.specs.Inside.{stretch_of};

use crate::ink::Ink;
use std::alloc::Global;
use vx_base::OutOfMemory;
use vx_bits::BitPage;
use vx_grid::{BUBBLE, centre_x, centre_y};
use vx_layout::PagePlan;

/// The pixels of a row that lie inside a bubble's outline, from the left of the bubble's box.
#[derive(Clone, Copy)]
pub(crate) struct Stretch {
    pub(crate) first: u32,
    pub(crate) width: u32,
}

/// What lies inside a bubble's outline, by the rows of its box: 624 pixels.
#[rattlefmt::skip]
pub(crate) static INSIDE: [Stretch; 26] = [
    Stretch { first: 0, width: 0 },
    Stretch { first: 0, width: 0 },
    Stretch { first: 15, width: 10 },
    Stretch { first: 11, width: 18 },
    Stretch { first: 9, width: 22 },
    Stretch { first: 7, width: 26 },
    Stretch { first: 5, width: 30 },
    Stretch { first: 4, width: 32 },
    Stretch { first: 4, width: 32 },
    Stretch { first: 3, width: 34 },
    Stretch { first: 2, width: 36 },
    Stretch { first: 2, width: 36 },
    Stretch { first: 2, width: 36 },
    Stretch { first: 2, width: 36 },
    Stretch { first: 2, width: 36 },
    Stretch { first: 2, width: 36 },
    Stretch { first: 3, width: 34 },
    Stretch { first: 4, width: 32 },
    Stretch { first: 4, width: 32 },
    Stretch { first: 5, width: 30 },
    Stretch { first: 7, width: 26 },
    Stretch { first: 9, width: 22 },
    Stretch { first: 11, width: 18 },
    Stretch { first: 15, width: 10 },
    Stretch { first: 0, width: 0 },
    Stretch { first: 0, width: 0 },
];

/// Makes the first pixels dark of those that lie in a row inside an outline, so many at most; says how
/// many.
fn paint_row(page: &mut BitPage, left: u64, top: u64, row: u32, many: u32) -> u32
    requires row { row < 26 }
    requires left { left < 2 ^ 40 }
    requires top { top < 2 ^ 40 }
    ensures painted { page.new ≡ painted page.old (rectangle
        (pos (left + (stretch_of row).first)) (pos (top + row)) (min many (stretch_of row).width) 1) }
    ensures many { result ≡ min many (stretch_of row).width }
{
    let Stretch { first, width } = INSIDE[row as usize];
    let here = many.min(width);
    page.darken(left + u64::from(first), top + u64::from(row), here, 1);
    here
}

/// Makes the first `n` pixels inside the outline of a bubble dark, row by row from the left.
fn paint_first(page: &mut BitPage, x: u64, y: u64, n: u32)
    requires across { (20 ≤ x) × (x < 2 ^ 40) }
    requires down { (13 ≤ y) × (y < 2 ^ 40) }
    ensures { page.new ≡ painted page.old (placed (pos x) (pos y) (ink_pixels (Ink.FirstPixels n))) }
{
    // For the proof alone: what this call's clause says of the page.
    let _columns = page.width();
    let left = x - u64::from(BUBBLE.across);
    let top = y - u64::from(BUBBLE.down);
    let mut many = n;
    for row in 0..26 {
        many -= paint_row(page, left, top, row, many);
    }
}

/// Makes the box of a bubble dark.
fn paint_box(page: &mut BitPage, x: u64, y: u64)
    requires across { (20 ≤ x) × (x < 2 ^ 40) }
    requires down { (13 ≤ y) × (y < 2 ^ 40) }
    ensures { page.new ≡ painted page.old (placed (pos x) (pos y) (ink_pixels Ink.WholeBox)) }
{
    let left = x - u64::from(BUBBLE.across);
    let top = y - u64::from(BUBBLE.down);
    page.darken(left, top, 2 * BUBBLE.across, 2 * BUBBLE.down);
}

/// Puts ink into the bubble round a place.
fn paint_ink(page: &mut BitPage, x: u64, y: u64, ink: Ink)
    requires across { (20 ≤ x) × (x < 2 ^ 40) }
    requires down { (13 ≤ y) × (y < 2 ^ 40) }
    ensures { page.new ≡ painted page.old (placed (pos x) (pos y) (ink_pixels ink)) }
{
    match ink {
        Ink::FirstPixels(n) => paint_first(page, x, y, n),
        Ink::WholeBox => paint_box(page, x, y),
    }
}

/// Puts ink into the bubbles of a page, to each its own.
fn paint_inks(page: &mut BitPage, plan: &PagePlan, inks: &[Ink])
    requires { length inks.now ≡ length plan.now.bubbles }
    ensures { page.new ≡ painted page.old (in_any (length plan.now.bubbles) (inked_bubble plan.now inks.now)) }
{
    // For the proof alone: what this call's clause says of the page.
    let _columns = page.width();
    let bubbles = plan.bubbles.as_slice();
    for n in 0..bubbles.len() {
        let bubble = bubbles[n];
        paint_ink(
            page,
            centre_x(bubble.col),
            centre_y(plan.paper, bubble.row),
            inks[n],
        );
    }
}

/// A copy of the printed page with the ink of each bubble added.
pub(crate) fn inked_paper(
    alloc: Global,
    plan: &PagePlan,
    inks: &[Ink],
    page: &BitPage,
) -> Result<BitPage, OutOfMemory>
    requires { length inks.now ≡ length plan.now.bubbles }
    ensures { IfOk result (λ paper. paper
        ≡ page_of page.now.width page.now.height (inked plan.now inks.now (dark_at page.now))) }
{
    let mut paper = page.copy(alloc)?;
    paint_inks(&mut paper, plan, inks);
    Ok(paper)
}
