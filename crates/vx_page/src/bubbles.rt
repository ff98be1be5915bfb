ghost use Rattle.std.specs.Prelude.{◌≡◌, All, IfOk};
ghost use Rattle.vx_grid.specs.Places.{AreWithin};
ghost use Rattle.vx_scan_model.specs.Reading as reading;
ghost use Rattle.vx_layout.specs.Pages.{IsOnGrid};

use std::alloc::{AllocError, Global};
use vx_count::Counter;
use vx_grid::{Border, States, Thresholds};
use vx_layout::Bubble;
use vx_scan_model::{Scores, bubble_score};
use vx_score::state;

/// The scores of a page's bubbles, in their order.
pub(crate) fn scores_of(
    alloc: Global,
    counter: &Counter,
    border: &Border,
    bubbles: &[Bubble],
) -> Result<Scores, AllocError>
    requires border { AreWithin 9000 border.now.places }
    requires bubbles { All (IsOnGrid border.now.paper) bubbles.now }
    ensures { IfOk result (λ scores. scores ≡ reading.scores_of counter.now border.now bubbles.now) }
{
    let mut scores = Vec::with_capacity(alloc, bubbles.len())?;
    for bubble in bubbles {
        scores.push(bubble_score(counter, border, *bubble))?;
    }
    Ok(Scores::from_vec(scores))
}

/// What bubbles of these scores are read as.
pub(crate) fn states_of(
    alloc: Global,
    scores: &[u32],
    thresholds: Thresholds,
) -> Result<States, AllocError>
    ensures { IfOk result (λ states. states ≡ reading.states_of thresholds scores.now) }
{
    let mut states = Vec::with_capacity(alloc, scores.len())?;
    for score in scores {
        states.push(state(*score, thresholds))?;
    }
    Ok(States::from_vec(states))
}
