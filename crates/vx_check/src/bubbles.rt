ghost use Rattle.std.specs.Prelude.{◌≡◌, ◌<◌, All, length, slice_get, option_map};
ghost use Rattle.vx_grid.specs.Places.{AreWithin};
ghost use Rattle.vx_layout.specs.Pages.{IsOnGrid};
ghost use Rattle.vx_scan_model.specs.Reading as reading;
ghost use Rattle.vx_check.specs.Tests as tests;

use crate::passing::passes;
use vx_count::Counter;
use vx_grid::{Border, State, Thresholds};
use vx_layout::Bubble;
use vx_refusals::CheckFault;
use vx_scan_model::bubble_score;
use vx_score::state;

/// The score of bubble `j`, where the page has it.
fn counted_score(counter: &Counter, border: &Border, bubbles: &[Bubble], j: u32) -> Option<u32>
    requires border { AreWithin 9000 border.now.places }
    requires bubbles { All (IsOnGrid border.now.paper) bubbles.now }
    ensures { result
        ≡ option_map (reading.bubble_score counter.now border.now) (slice_get bubbles.now j) }
{
    match bubbles.get(j as usize) {
        Some(bubble) => Some(bubble_score(counter, border, *bubble)),
        None => None,
    }
}

/// The score that is said of bubble `j`, where one is.
fn said_score(said: &[u32], j: u32) -> Option<u32>
    ensures { result ≡ slice_get said.now j }
{
    match said.get(j as usize) {
        Some(score) => Some(*score),
        None => None,
    }
}

/// Whether a said score is the counted one.
fn check_score(j: u32, said: Option<u32>, counted: Option<u32>) -> Result<(), CheckFault>
    ensures { result ≡ tests.score_tested j said counted }
{
    match (said, counted) {
        (Some(said), Some(counted)) => passes(
            said == counted,
            CheckFault::ScoreAt(j, Some(said), Some(counted)),
        ),
        (None, None) => Ok(()),
        (said, counted) => Err(CheckFault::ScoreAt(j, said, counted)),
    }
}

/// Whether the said scores are the counted ones, one for each bubble of a page that has fewer than 1,000.
pub(crate) fn check_scores(
    counter: &Counter,
    border: &Border,
    bubbles: &[Bubble],
    said: &[u32],
) -> Result<(), CheckFault>
    requires border { AreWithin 9000 border.now.places }
    requires bubbles { All (IsOnGrid border.now.paper) bubbles.now }
    requires few { length bubbles.now < 1000 }
    ensures { result ≡ tests.scores_tested counter.now border.now bubbles.now said.now }
{
    for j in 0..bubbles.len() as u32 + 1 {
        let counted = counted_score(counter, border, bubbles, j);
        check_score(j, said_score(said, j), counted)?;
    }
    Ok(())
}

/// The state that is said of bubble `j`, where one is.
fn said_state(said: &[State], j: u32) -> Option<State>
    ensures { result ≡ slice_get said.now j }
{
    match said.get(j as usize) {
        Some(state) => Some(*state),
        None => None,
    }
}

/// Whether two states are the same.
fn is_same(first: State, second: State) -> bool
    ensures { result ≡ tests.is_same first second }
{
    match (first, second) {
        (State::Marked, State::Marked) => true,
        (State::Marginal, State::Marginal) => true,
        (State::Clear, State::Clear) => true,
        _ => false,
    }
}

/// Whether a said state is that of a score.
fn check_state(
    thresholds: Thresholds,
    j: u32,
    said: Option<State>,
    score: Option<u32>,
) -> Result<(), CheckFault>
    ensures { result ≡ tests.state_tested thresholds j said score }
{
    match (said, score) {
        (Some(said), Some(score)) => passes(
            is_same(said, state(score, thresholds)),
            CheckFault::StateAt(j),
        ),
        (None, None) => Ok(()),
        _ => Err(CheckFault::StateAt(j)),
    }
}

/// Whether the said states are those of the said scores, of which there are so many, one for each bubble.
pub(crate) fn check_states(
    thresholds: Thresholds,
    bubbles: u32,
    scores: &[u32],
    said: &[State],
) -> Result<(), CheckFault>
    requires { bubbles < 1000 }
    ensures { result ≡ tests.states_tested thresholds bubbles scores.now said.now }
{
    for j in 0..bubbles + 1 {
        check_state(thresholds, j, said_state(said, j), said_score(scores, j))?;
    }
    Ok(())
}
