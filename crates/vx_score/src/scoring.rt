ghost use Rattle.std.specs.Prelude.{◌≡◌, ◌≤◌};
ghost use Rattle.vx_grid.specs.Places.{IsPointWithin};
ghost use Rattle.vx_score.specs.Score.{score_of, code_count_of, state_of};

use vx_count::Counter;
use vx_grid::{OUTLINE_PIXELS, Point, State, Thresholds, bubble_window, code_window};

/// The score of the bubble at a grid place: how many pixels of its window are dark besides its
/// printed outline.
pub fn score(counter: &Counter, place: Point) -> u32
    requires { IsPointWithin 9000 place }
    ensures { result ≡ score_of counter.now place }
{
    counter
        .dark_in(bubble_window(place))
        .saturating_sub(OUTLINE_PIXELS)
}

/// How many pixels of the window of the code box at a grid place are dark.
pub fn code_count(counter: &Counter, place: Point) -> u32
    requires { IsPointWithin 9000 place }
    ensures { result ≡ code_count_of counter.now place }
{
    counter.dark_in(code_window(place))
}

/// What a bubble of this score is read as.
pub fn state(score: u32, thresholds: Thresholds) -> State
    ensures { result ≡ state_of score thresholds }
{
    if score >= thresholds.def {
        State::Marked
    } else if score < thresholds.marg {
        State::Clear
    } else {
        State::Marginal
    }
}
