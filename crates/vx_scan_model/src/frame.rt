ghost use Rattle.std.specs.Prelude.{◌≡◌};
ghost use Rattle.vx_scan_model.specs.Reading as reading;

use vx_grid::Paper;

/// The least and the greatest number of rows of a scan of this paper.
pub fn allowed_heights(paper: Paper) -> (u32, u32)
    ensures { result ≡ reading.allowed_heights paper }
{
    match paper {
        Paper::Letter => (2100, 2400),
        Paper::Legal => (2700, 3000),
    }
}
