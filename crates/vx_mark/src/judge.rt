ghost use Rattle.std.specs.Prelude.{◌≡◌, ◌≤◌, ◌<◌, ℕ, ◌*◌, ◌+◌, ◌-◌, ◌↔◌, ◌+ℤ◌, ◌-ℤ◌, ◌≤ℤ◌, pos, IsTrue, MatchOption};
ghost use Rattle.vx_plane.specs.Plane.{dark_at};
ghost use Rattle.vx_plane.specs.Count.{count_in};
ghost use Rattle.vx_grid.specs.Places.{IsWithin};
ghost use Rattle.vx_mark_model.specs.Mark.{footprint, core_light, flanks_dark, deficit_of, IsInFrame, IsAccepted};
ghost use Rattle.vx_mark.specs.Search.{place_in, row_light, HasFootprint, IsUpTo, AreFew, IsOut};

use crate::pixels::{Span, unsigned};
use vx_count::Counter;
use vx_grid::{HalfSides, Point, Rect};

/// The footprint of a place.
pub(crate) const FOOTPRINT: HalfSides = HalfSides {
    across: 23,
    down: 11,
};

/// The most pixels that may be wrong at an accepted place.
pub(crate) const MOST: u32 = 20;

/// The number of dark pixels of the rectangle that begins `left` columns and `top` rows off a
/// place.
fn dark_around(counter: &Counter, place: Point, left: i32, top: i32, width: u32, height: u32) -> u32
    requires u { IsWithin 9900 place.u }
    requires v { IsWithin 9900 place.v }
    requires left { IsWithin 100 left }
    requires top { IsWithin 100 top }
    requires width { width ≤ 100 }
    requires height { height ≤ 100 }
    ensures value { result ≡ count_in (place.u +ℤ left) (place.v +ℤ top) width height (dark_at counter.now) }
    ensures bound { result ≤ height * width }
{
    counter.dark_in(Rect::around(place, left, top, width, height))
}

/// The number of light pixels of a place's core.
fn light_in_core(counter: &Counter, place: Point) -> u32
    requires u { IsWithin 9900 place.u }
    requires v { IsWithin 9900 place.v }
    ensures value { result ≡ core_light counter.now place }
    ensures bound { result ≤ 340 }
{
    34 * 10 - dark_around(counter, place, -17, -5, 34, 10)
}

/// The number of dark pixels of a place's four flanks.
fn dark_in_flanks(counter: &Counter, place: Point) -> u32
    requires u { IsWithin 9900 place.u }
    requires v { IsWithin 9900 place.v }
    ensures value { result ≡ flanks_dark counter.now place }
    ensures bound { result ≤ 352 }
{
    let left = dark_around(counter, place, -23, -5, 4, 10);
    let right = dark_around(counter, place, 19, -5, 4, 10);
    let top = dark_around(counter, place, -17, -11, 34, 4);
    let bottom = dark_around(counter, place, -17, 7, 34, 4);
    left + right + top + bottom
}

/// How many pixels are wrong at a place, if it is the centre of a timing mark: the light ones of
/// the core and the dark ones of the flanks.
pub fn deficit(counter: &Counter, place: Point) -> u32
    requires u { IsWithin 9000 place.u }
    requires v { IsWithin 9000 place.v }
    ensures { result ≡ deficit_of counter.now place }
{
    light_in_core(counter, place) + dark_in_flanks(counter, place)
}

/// The number of light pixels of a row of a core round column `u`.
#[inline(always)]
fn light_in_row(counter: &Counter, u: u32, row: u32) -> u32
    requires left { footprint.across ≤ u }
    requires right { u + footprint.across ≤ counter.now.width }
    requires row { row < counter.now.height }
    ensures value { result ≡ row_light counter.now u row }
    ensures bound { result ≤ 34 }
{
    34 - counter.run(u - 17, row, 34)
}

/// The number of light pixels of a core, or of so many of its rows as show that it reaches a bound;
/// its first row has `first` of them.
fn light_up_to(counter: &Counter, u: u32, v: u32, below: u32, first: u32) -> u32
    requires here { HasFootprint counter.now u v }
    requires below { below ≤ 21 }
    requires first { first ≡ row_light counter.now u (v - 5) }
    requires less { first < below }
    ensures value { IsUpTo below (core_light counter.now (place_in u v)) result }
    ensures bound { result < 21 + 34 }
{
    // For the proof alone: what this call's clause says of the page.
    let _height = counter.height();
    let mut light = first;
    for j in 1..10 {
        light += light_in_row(counter, u, v - 5 + j);
        if light >= below {
            return light;
        }
    }
    light
}

/// The number of dark pixels of a part of a place's flanks, up to 136 of them.
fn dark_in_flank(counter: &Counter, left: u32, top: u32, width: u32, height: u32) -> u32
    requires columns { left + width ≤ counter.now.width }
    requires rows { top + height ≤ counter.now.height }
    requires width { width ≤ 34 }
    requires height { height ≤ 10 }
    ensures value { result ≡ count_in (pos left) (pos top) width height (dark_at counter.now) }
    ensures bound { result ≤ 340 }
{
    counter.dark_in_frame(left, top, width, height)
}

/// The number of dark pixels of the flanks, or of so many of them as show with `core` wrong pixels
/// that a bound is reached, and `core` with it.
fn with_flanks(counter: &Counter, u: u32, v: u32, below: u32, core: u32) -> u32
    requires here { HasFootprint counter.now u v }
    requires below { below ≤ 21 }
    requires core { core ≡ core_light counter.now (place_in u v) }
    requires less { core < below }
    ensures { IsUpTo below (deficit_of counter.now (place_in u v)) result }
{
    // For the proof alone: what this call's clause says of the page.
    let _width = counter.width();
    let _height = counter.height();
    let upper = core + dark_in_flank(counter, u - 17, v - 11, 34, 4);
    if upper >= below {
        return upper;
    }
    let lower = upper + dark_in_flank(counter, u - 17, v + 7, 34, 4);
    if lower >= below {
        return lower;
    }
    let left = dark_in_flank(counter, u - 23, v - 5, 4, 10);
    lower + left + dark_in_flank(counter, u + 19, v - 5, 4, 10)
}

/// The deficit of a place, or so much of it as shows that it reaches a bound; the first row of the
/// core has `first` light pixels.
#[inline(never)]
fn deficit_from_row(counter: &Counter, u: u32, v: u32, below: u32, first: u32) -> u32
    requires here { HasFootprint counter.now u v }
    requires below { below ≤ 21 }
    requires first { first ≡ row_light counter.now u (v - 5) }
    requires less { first < below }
    ensures { IsUpTo below (deficit_of counter.now (place_in u v)) result }
{
    let core = light_up_to(counter, u, v, below, first);
    if core >= below {
        return core;
    }
    with_flanks(counter, u, v, below, core)
}

/// The deficit of a place, or so much of it as shows that it reaches a bound.
#[inline(always)]
pub(crate) fn deficit_up_to(counter: &Counter, u: u32, v: u32, below: u32) -> u32
    requires here { HasFootprint counter.now u v }
    requires below { below ≤ 21 }
    ensures { IsUpTo below (deficit_of counter.now (place_in u v)) result }
{
    let first = light_in_row(counter, u, v - 5);
    if first >= below {
        return first;
    }
    deficit_from_row(counter, u, v, below, first)
}

/// Whether a row of the cores of all places of some columns shows that none of their deficits is
/// below a bound: it has too few dark pixels in all.
#[inline(always)]
fn is_run_light(counter: &Counter, columns: Span, row: u32, below: u32) -> bool
    requires some { columns.first < columns.past }
    requires columns { AreFew counter.now.width columns }
    requires row { row < counter.now.height }
    requires below { below ≤ 21 }
    ensures { IsTrue result
        → (u : ℕ) → columns.first ≤ u → u < columns.past → below ≤ row_light counter.now u row }
{
    let dark = counter.run(columns.first - 17, row, columns.past - columns.first + 33);
    dark <= 34 - below
}

/// Whether the first or the last row of the cores of all places of some columns in a row shows that
/// none of their deficits is below a bound.
pub(crate) fn is_row_out(counter: &Counter, columns: Span, v: u32, below: u32) -> bool
    requires columns { AreFew counter.now.width columns }
    requires top { footprint.down ≤ v }
    requires bottom { v + footprint.down ≤ counter.now.height }
    requires below { below ≤ 21 }
    ensures { IsTrue result → IsOut counter.now columns v below }
{
    // For the proof alone: what this call's clause says of the page.
    let _height = counter.height();
    if columns.first >= columns.past {
        return true;
    }
    is_run_light(counter, columns, v - 5, below) || is_run_light(counter, columns, v + 4, below)
}

/// Whether a place in a line of `size` pixels has `reach` pixels before it and as many from it on.
fn has_room(at: i32, reach: i32, size: u32) -> bool
    requires at { IsWithin 9900 at }
    requires reach { IsWithin 100 reach }
    requires size { size ≤ 4096 }
    ensures { IsTrue result ↔ ((reach ≤ℤ at) × (at ≤ℤ (pos size -ℤ reach))) }
{
    reach <= at && at <= size as i32 - reach
}

/// Whether the footprint of a place lies in the frame.
fn in_frame(counter: &Counter, place: Point) -> bool
    requires u { IsWithin 9900 place.u }
    requires v { IsWithin 9900 place.v }
    ensures { IsTrue result ↔ IsInFrame counter.now place }
{
    has_room(place.u, FOOTPRINT.across as i32, counter.width())
        && has_room(place.v, FOOTPRINT.down as i32, counter.height())
}

/// The deficit of a place that is accepted.
pub(crate) fn accepted_deficit(counter: &Counter, place: Point) -> Option<u32>
    requires u { IsWithin 9000 place.u }
    requires v { IsWithin 9000 place.v }
    ensures { MatchOption result
        (IsAccepted counter.now place → ⊥)
        (λ n. IsAccepted counter.now place × (n ≡ deficit_of counter.now place)) }
{
    if !in_frame(counter, place) {
        return None;
    }
    let wrong = deficit_up_to(counter, unsigned(place.u), unsigned(place.v), MOST + 1);
    if wrong <= MOST { Some(wrong) } else { None }
}

/// Whether a place is accepted as the centre of a timing mark: its footprint lies in the frame, and
/// at most 20 pixels are wrong.
pub fn accepted(counter: &Counter, place: Point) -> bool
    requires u { IsWithin 9000 place.u }
    requires v { IsWithin 9000 place.v }
    ensures { IsTrue result ↔ IsAccepted counter.now place }
{
    accepted_deficit(counter, place).is_some()
}
