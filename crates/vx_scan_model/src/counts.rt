ghost use Rattle.std.specs.Prelude.{◌≡◌, ◌<◌, map};
ghost use Rattle.std.specs.List.{range_with_len};
ghost use Rattle.vx_grid.specs.Places.{AreWithin};
ghost use Rattle.vx_layout.specs.Pages.{IsOnGrid};
ghost use Rattle.vx_scan_model.specs.Reading as reading;
ghost use Rattle.vx_scan_model.specs.Reading.{box_count_of};

use vx_code::place_of_box;
use vx_count::Counter;
use vx_fit::place;
use vx_grid::Border;
use vx_layout::Bubble;
use vx_score::{code_count, score};

/// The dark pixels of the window of a code box, at its grid place.
fn box_count(counter: &Counter, border: &Border, n: u32) -> u32
    requires border { AreWithin 9000 border.now.places }
    requires n { n < 84 }
    ensures { result ≡ box_count_of counter.now border.now n }
{
    let (column, row) = place_of_box(border.paper(), n);
    code_count(counter, place(border, column, row))
}

/// The dark pixels of the windows of the 84 code boxes, the left box of a pair first.
pub fn box_counts(counter: &Counter, border: &Border) -> [u32; 84]
    requires { AreWithin 9000 border.now.places }
    ensures { result ≡ map (box_count_of counter.now border.now) (range_with_len 0 84) }
{
    let mut counts = [0; 84];
    for n in 0..84 {
        counts[n] = box_count(counter, border, n as u32);
    }
    counts
}

/// The score of a bubble, at its grid place.
pub fn bubble_score(counter: &Counter, border: &Border, bubble: Bubble) -> u32
    requires border { AreWithin 9000 border.now.places }
    requires bubble { IsOnGrid border.now.paper bubble }
    ensures { result ≡ reading.bubble_score counter.now border.now bubble }
{
    score(counter, place(border, bubble.col, bubble.row))
}
