ghost use Rattle.std.specs.Prelude.{◌≡◌};
ghost use Rattle.vx_plane.specs.Plane.{painted, any_of};
ghost use Rattle.vx_layout.specs.Print.{bubble_pixels};

use crate::stamp::{Patch, stamp};
use vx_bits::BitPage;
use vx_grid::{BUBBLE, Paper, centre_x, centre_y};
use vx_layout::Bubble;

/// The outline of a bubble in its box of 40 by 26 pixels: what lies between two ellipses, row by row.
#[rattlefmt::skip]
static OUTLINE: [Patch; 38] = [
    Patch { left: 15, top: 0, width: 10, height: 1 },
    Patch { left: 11, top: 1, width: 18, height: 1 },
    Patch { left: 8, top: 2, width: 7, height: 1 },
    Patch { left: 25, top: 2, width: 7, height: 1 },
    Patch { left: 6, top: 3, width: 5, height: 1 },
    Patch { left: 29, top: 3, width: 5, height: 1 },
    Patch { left: 5, top: 4, width: 4, height: 1 },
    Patch { left: 31, top: 4, width: 4, height: 1 },
    Patch { left: 4, top: 5, width: 3, height: 1 },
    Patch { left: 33, top: 5, width: 3, height: 1 },
    Patch { left: 3, top: 6, width: 2, height: 1 },
    Patch { left: 35, top: 6, width: 2, height: 1 },
    Patch { left: 2, top: 7, width: 2, height: 1 },
    Patch { left: 36, top: 7, width: 2, height: 1 },
    Patch { left: 1, top: 8, width: 3, height: 1 },
    Patch { left: 36, top: 8, width: 3, height: 1 },
    Patch { left: 1, top: 9, width: 2, height: 1 },
    Patch { left: 37, top: 9, width: 2, height: 1 },
    Patch { left: 0, top: 10, width: 2, height: 6 },
    Patch { left: 38, top: 10, width: 2, height: 6 },
    Patch { left: 1, top: 16, width: 2, height: 1 },
    Patch { left: 37, top: 16, width: 2, height: 1 },
    Patch { left: 1, top: 17, width: 3, height: 1 },
    Patch { left: 36, top: 17, width: 3, height: 1 },
    Patch { left: 2, top: 18, width: 2, height: 1 },
    Patch { left: 36, top: 18, width: 2, height: 1 },
    Patch { left: 3, top: 19, width: 2, height: 1 },
    Patch { left: 35, top: 19, width: 2, height: 1 },
    Patch { left: 4, top: 20, width: 3, height: 1 },
    Patch { left: 33, top: 20, width: 3, height: 1 },
    Patch { left: 5, top: 21, width: 4, height: 1 },
    Patch { left: 31, top: 21, width: 4, height: 1 },
    Patch { left: 6, top: 22, width: 5, height: 1 },
    Patch { left: 29, top: 22, width: 5, height: 1 },
    Patch { left: 8, top: 23, width: 7, height: 1 },
    Patch { left: 25, top: 23, width: 7, height: 1 },
    Patch { left: 11, top: 24, width: 18, height: 1 },
    Patch { left: 15, top: 25, width: 10, height: 1 },
];

/// Paints the outline of a bubble.
fn paint_bubble(page: &mut BitPage, paper: Paper, bubble: &Bubble)
    ensures { page.new ≡ painted page.old (bubble_pixels paper bubble.now) }
{
    let left = centre_x(bubble.col) - u64::from(BUBBLE.across);
    let top = centre_y(paper, bubble.row) - u64::from(BUBBLE.down);
    stamp(page, left, top, &OUTLINE);
}

/// Paints the outlines of bubbles.
pub(crate) fn paint_bubbles(page: &mut BitPage, paper: Paper, bubbles: &[Bubble])
    ensures { page.new ≡ painted page.old (any_of bubbles.now (bubble_pixels paper)) }
{
    // For the proof alone: what this call's clause says of the page.
    let _columns = page.width();
    for bubble in bubbles {
        paint_bubble(page, paper, bubble);
    }
}
