ghost use Rattle.std.specs.Prelude.{◌≡◌, ◌<◌};
ghost use Rattle.vx_plane.specs.Plane.{painted};
ghost use Rattle.vx_grid.specs.Marks as numbers;
ghost use Rattle.vx_grid.specs.Marks.{mark_pixels, timing_marks};

use crate::round::paint_round;
use vx_bits::BitPage;
use vx_grid::{MARK, Paper, centre_x, centre_y, mark_of, marks};

/// Paints timing mark `k`.
fn paint_mark(page: &mut BitPage, paper: Paper, k: u32)
    requires { k < numbers.marks paper }
    ensures { page.new ≡ painted page.old (mark_pixels paper k) }
{
    let (column, row) = mark_of(paper, k);
    paint_round(page, MARK, centre_x(column), centre_y(paper, row));
}

/// Paints all timing marks of a paper.
pub(crate) fn paint_marks(page: &mut BitPage, paper: Paper)
    ensures { page.new ≡ painted page.old (timing_marks paper) }
{
    // For the proof alone: what this call's clause says of the page.
    let _columns = page.width();
    for k in 0..marks(paper) {
        paint_mark(page, paper, k);
    }
}
