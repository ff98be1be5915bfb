//! The sample of an audit, drawn by a generator.

ghost use Rattle.std.specs.Prelude.{◌≡◌, ◌<◌, ◌≤◌, ◌%◌, ℕ, All, false, length, map, slice_index_or, IfOk};
ghost use Rattle.std.specs.List.{range_with_len};
ghost use Rattle.vx_audit.specs.Sample.{draws_of, is_drawn, sample_of, where_held, word_of};
ghost use Rattle.vx_audit.specs.Walk.{by_place};

use crate::drawing::{draw, generator};
use std::alloc::Global;
use vx_base::{ListOf, OutOfMemory};

/// Places in a list.
pub type Places = ListOf<u32>;

/// Which of so many records are drawn.
fn drawn_of(
    alloc: Global,
    seed: [u8; 32],
    size: u32,
    count: usize,
) -> Result<Vec<bool>, OutOfMemory>
    requires { 0 < count }
    ensures sized { IfOk result (λ drawn. length drawn.items ≡ count) }
    ensures value { IfOk result (λ drawn. (place : ℕ) → place < count →
        slice_index_or drawn.items place false ≡ is_drawn seed size count place) }
{
    let mut drawn = vec![in alloc; false; count]?;
    let mut words = generator(seed);
    for index in 0..size {
        let word = draw(&mut words, &seed, index);
        drawn[word as usize % count] = true;
    }
    Ok(drawn)
}

/// The places that are told, in ascending order.
fn places_of(alloc: Global, drawn: &[bool]) -> Result<Places, OutOfMemory>
    requires { length drawn.now ≤ 1000000 }
    ensures { IfOk result (λ places. places ≡ by_place where_held 0 drawn.now) }
{
    let mut places = Places::new(alloc);
    for (place, is) in drawn.iter().enumerate() {
        if *is {
            places.push(place as u32)?;
        }
    }
    Ok(places)
}

/// The places of the records, of so many, that the first `size` words draw of the generator whose key is the
/// seed: each once and ascending.
#[tactic(auto, unfolding(crate::specs::Sample::sample_of))]
pub fn draw_sample(
    alloc: Global,
    seed: [u8; 32],
    size: u32,
    count: usize,
) -> Result<Places, OutOfMemory>
    requires { count ≤ 1000000 }
    ensures value { IfOk result (λ places. places ≡ sample_of seed size count) }
    ensures within { IfOk result (λ places. All (λ place. place < count) places) }
{
    if count == 0 {
        return Ok(Places::new(alloc));
    }
    let drawn = drawn_of(alloc, seed, size, count)?;
    let places = places_of(alloc, drawn.as_slice())?;
    Ok(places)
}

/// What each of the first `size` words draws of so many records, in their order.
fn drawn_places(
    alloc: Global,
    seed: [u8; 32],
    size: u32,
    count: usize,
) -> Result<Places, OutOfMemory>
    requires some { 0 < count }
    requires few { count ≤ 1000000 }
    ensures { IfOk result (λ places. places ≡ map (λ word. word_of seed word % count) (range_with_len 0 size)) }
{
    let mut places = Places::new(alloc);
    let mut words = generator(seed);
    for index in 0..size {
        let word = draw(&mut words, &seed, index);
        places.push((word as usize % count) as u32)?;
    }
    Ok(places)
}

/// The places of the records, of so many, that the first `size` words draw of the generator whose key is the
/// seed: one for each word, in their order, so that a record may be drawn more than once; none where there is
/// no record.
#[tactic(auto, unfolding(crate::specs::Sample::draws_of))]
pub fn draw_places(
    alloc: Global,
    seed: [u8; 32],
    size: u32,
    count: usize,
) -> Result<Places, OutOfMemory>
    requires { count ≤ 1000000 }
    ensures value { IfOk result (λ places. places ≡ draws_of seed size count) }
    ensures within { IfOk result (λ places. All (λ place. place < count) places) }
{
    if count == 0 {
        return Ok(Places::new(alloc));
    }
    let places = drawn_places(alloc, seed, size, count)?;
    Ok(places)
}
