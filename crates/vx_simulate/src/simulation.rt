//! All that is drawn of a simulated page.

ghost use Rattle.std.specs.Prelude.{◌≡◌, IfOk, OnOk, length};
ghost use Rattle.vx_election_model.specs.Valid.{IsValid};
ghost use Rattle.vx_simulate.specs.Flips.{AreFlipsOf};
ghost use Rattle.vx_simulate.specs.Lie.{IsShort};
ghost use Rattle.vx_simulate.specs.Simulated as simulated;

use crate::flips::{Flips, draw_flips};
use crate::ink::{Inks, draw_inks};
use crate::lie::draw_shear;
use crate::marks::{Flags, draw_flags};
use rand_pcg::Pcg32;
use std::alloc::Global;
use vx_base::{ListOf, OutOfMemory};
use vx_election_model::Election;
use vx_geom::Shear;
use vx_layout::PagePlan;

/// What is drawn of a page: which bubbles are marked, how the page lies in its scan, the ink of each
/// bubble, and the pixels that the scanner gets wrong.
#[derive(Drop)]
pub(crate) struct Simulation {
    pub(crate) marks: Flags,
    pub(crate) shear: Shear,
    pub(crate) inks: Inks,
    pub(crate) flips: Flips,
}

/// All of a page is drawn, in that order.
pub(crate) fn draw_page(
    rng: &mut Pcg32,
    alloc: Global,
    election: &Election,
    plan: &PagePlan,
) -> Result<Simulation, OutOfMemory>
    requires { IsValid election.now }
    ensures drawn { IfOk result (λ it. it ≡ (simulated.draw_page election.now plan.now rng.old).0) }
    ensures next { OnOk result (rng.new ≡ (simulated.draw_page election.now plan.now rng.old).1) }
    ensures short { IfOk result (λ it. IsShort it.shear) }
    ensures inks { IfOk result (λ it. length it.inks ≡ length plan.now.bubbles) }
    ensures in_zones { IfOk result (λ it. AreFlipsOf plan.now it.flips) }
{
    let marks = draw_flags(rng, alloc, election, plan)?;
    let shear = draw_shear(rng, plan.paper);
    let inks = draw_inks(rng, alloc, election.thresholds, marks.as_slice())?;
    let flips = draw_flips(rng, alloc, plan)?;
    Ok(Simulation {
        marks: ListOf::from_vec(marks),
        shear,
        inks: ListOf::from_vec(inks),
        flips,
    })
}
