ghost use Rattle.std.specs.Prelude.{◌≡◌, ◌<◌};
ghost use Rattle.vx_plane.specs.Plane.{painted};
ghost use Rattle.vx_layout.specs.Print.{box_pixels, code_pixels};

use crate::round::paint_round;
use vx_bits::BitPage;
use vx_code::place_of_box;
use vx_grid::{CODE_BOX, Paper, centre_x, centre_y};

/// Paints box `n` of the page code.
fn paint_box(page: &mut BitPage, paper: Paper, n: u32)
    requires { n < 84 }
    ensures { page.new ≡ painted page.old (box_pixels paper n) }
{
    let (column, row) = place_of_box(paper, n);
    paint_round(page, CODE_BOX, centre_x(column), centre_y(paper, row));
}

/// Paints those of the 84 boxes that are printed.
pub(crate) fn paint_boxes(page: &mut BitPage, paper: Paper, printed: &[bool; 84])
    ensures { page.new ≡ painted page.old (code_pixels paper printed.now) }
{
    // For the proof alone: what this call's clause says of the page.
    let _columns = page.width();
    for n in 0..84 {
        if printed[n as usize] {
            paint_box(page, paper, n);
        }
    }
}
