//! Numbers and places that are drawn from a generator.

ghost use Rattle.std.specs.Prelude.{◌≡◌, ◌<◌, IfOk, OnOk};
ghost use Rattle.vx_simulate.specs.Draws as draws_of;

use rand_core::utils::NextWord;
use rand_pcg::Pcg32;
use std::alloc::Global;
use vx_base::OutOfMemory;

/// A number below a bound, or the generator's word itself for a bound of 0.
pub(crate) fn draw(rng: &mut Pcg32, bound: u32) -> u32
    ensures number { result ≡ (draws_of.draw bound rng.old).0 }
    ensures next { rng.new ≡ (draws_of.draw bound rng.old).1 }
    ensures below { 0 < bound → result < bound }
{
    let word = rng.next_word();
    if bound == 0 { word } else { word % bound }
}

/// So many numbers below a bound.
pub(crate) fn draws(
    rng: &mut Pcg32,
    alloc: Global,
    many: u32,
    bound: u32,
) -> Result<Vec<u32>, OutOfMemory>
    ensures numbers { IfOk result (λ numbers. numbers.items ≡ (draws_of.draws many bound rng.old).0) }
    ensures next { OnOk result (rng.new ≡ (draws_of.draws many bound rng.old).1) }
{
    let mut numbers = Vec::with_capacity(alloc, many as usize)?;
    for n in 0..many {
        numbers.push(draw(rng, bound))?;
    }
    Ok(numbers)
}

/// A place in a rectangle, by its offsets from the upper left: column and row.
pub(crate) fn draw_place(rng: &mut Pcg32, width: u32, height: u32) -> (u32, u32)
    ensures place { result ≡ (draws_of.draw_place width height rng.old).0 }
    ensures next { rng.new ≡ (draws_of.draw_place width height rng.old).1 }
    ensures column { 0 < width → result.0 < width }
    ensures row { 0 < height → result.1 < height }
{
    let column = draw(rng, width);
    let row = draw(rng, height);
    (column, row)
}

/// So many of them.
pub(crate) fn draw_places(
    rng: &mut Pcg32,
    alloc: Global,
    many: u32,
    width: u32,
    height: u32,
) -> Result<Vec<(u32, u32)>, OutOfMemory>
    ensures places { IfOk result (λ places. places.items ≡ (draws_of.draw_places many width height rng.old).0) }
    ensures next { OnOk result (rng.new ≡ (draws_of.draw_places many width height rng.old).1) }
{
    let mut places = Vec::with_capacity(alloc, many as usize)?;
    for n in 0..many {
        places.push(draw_place(rng, width, height))?;
    }
    Ok(places)
}
