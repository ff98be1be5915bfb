ghost use Rattle.std.specs.Prelude.{◌≡◌};
ghost use Rattle.vx_grid.specs.Places.{AreWithin};
ghost use Rattle.vx_scan_model.specs.Reading.{code_read};

use vx_code::{CodeFault, PageCode, read_boxes};
use vx_count::Counter;
use vx_grid::Border;
use vx_scan_model::box_counts;

/// The code that the boxes of a page with this border show, or why they show none of its paper.
pub(crate) fn read_code(counter: &Counter, border: &Border) -> Result<PageCode, CodeFault>
    requires { AreWithin 9000 border.now.places }
    ensures { result ≡ code_read counter.now border.now }
{
    read_boxes(&box_counts(counter, border), border.paper())
}
