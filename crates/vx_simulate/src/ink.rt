//! The ink that a simulated voter leaves in the bubbles.

ghost use Rattle.std.specs.Prelude.{◌≡◌, IfOk, OnOk, true, false};
ghost use Rattle.vx_election_model.specs.Valid.{AreThresholds};
ghost use Rattle.vx_simulate.specs.Ink as ink;

use crate::drawing::draw;
use rand_pcg::Pcg32;
use std::alloc::Global;
use vx_base::{ListOf, OutOfMemory};
use vx_grid::{INNER_PIXELS, Thresholds};

/// Ink in a bubble.
#[derive(Clone, Copy, Drop)]
pub(crate) enum Ink {
    /// The first so many pixels inside its outline, row by row from the left.
    FirstPixels(u32),
    /// Its whole box.
    WholeBox,
}

/// The ink of several bubbles.
pub(crate) type Inks = ListOf<Ink>;

/// The ink of a mark: at least 12 pixels more than the definite threshold. Where there isn't room for
/// them inside the outline, the whole box is dark and nothing is drawn.
fn draw_mark(rng: &mut Pcg32, thresholds: Thresholds) -> Ink
    requires { AreThresholds thresholds }
    ensures ink { result ≡ (ink.draw_ink thresholds true rng.old).0 }
    ensures next { rng.new ≡ (ink.draw_ink thresholds true rng.old).1 }
{
    if 612 < thresholds.def {
        return Ink::WholeBox;
    }
    let more = draw(rng, INNER_PIXELS - thresholds.def - 11);
    Ink::FirstPixels(thresholds.def + 12 + more)
}

/// The ink of a slip of the pen: at least 13 pixels fewer than the marginal threshold.
fn draw_slip(rng: &mut Pcg32, thresholds: Thresholds) -> Ink
    requires { AreThresholds thresholds }
    ensures ink { result ≡ (ink.draw_ink thresholds false rng.old).0 }
    ensures next { rng.new ≡ (ink.draw_ink thresholds false rng.old).1 }
{
    let some = draw(rng, thresholds.marg - 12);
    Ink::FirstPixels(INNER_PIXELS.min(some))
}

/// The ink of a bubble that is marked or not.
fn draw_ink(rng: &mut Pcg32, thresholds: Thresholds, marked: bool) -> Ink
    requires { AreThresholds thresholds }
    ensures ink { result ≡ (ink.draw_ink thresholds marked rng.old).0 }
    ensures next { rng.new ≡ (ink.draw_ink thresholds marked rng.old).1 }
{
    if marked {
        draw_mark(rng, thresholds)
    } else {
        draw_slip(rng, thresholds)
    }
}

/// The ink of all bubbles of a page, by their marks.
pub(crate) fn draw_inks(
    rng: &mut Pcg32,
    alloc: Global,
    thresholds: Thresholds,
    marks: &[bool],
) -> Result<Vec<Ink>, OutOfMemory>
    requires { AreThresholds thresholds }
    ensures inks { IfOk result (λ inks. inks.items ≡ (ink.draw_inks thresholds marks.now rng.old).0) }
    ensures next { OnOk result (rng.new ≡ (ink.draw_inks thresholds marks.now rng.old).1) }
{
    let mut inks = Vec::with_capacity(alloc, marks.len())?;
    for marked in marks {
        inks.push(draw_ink(rng, thresholds, *marked))?;
    }
    Ok(inks)
}
