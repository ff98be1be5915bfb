ghost use Rattle.std.specs.Prelude.{◌≡◌, ◌≤◌, ◌<◌, ◌+◌, ◌+ℤ◌, ◌-ℤ◌, pos, MatchOption};
ghost use Rattle.vx_grid.specs.declared.places.Point.{Point};
ghost use Rattle.vx_grid.specs.Places.{IsWithin};
ghost use Rattle.vx_mark_model.specs.Mark.{IsAccepted};
ghost use Rattle.vx_mark_model.specs.Best.{IsNear, IsBest};
ghost use Rattle.vx_mark.specs.Search.{place_in, HasFootprint, AreColumns, AreRows, IsRow, IsCap, IsBestSeen, bound_of};

use crate::judge::{FOOTPRINT, MOST, accepted_deficit, deficit_up_to, is_row_out};
use crate::pixels::{Pixel, Span, first_of, past_of, point};
use vx_count::Counter;
use vx_grid::Point;

/// An accepted place and its deficit.
#[derive(Clone, Copy)]
pub(crate) struct Found {
    pub(crate) pixel: Pixel,
    pub(crate) deficit: u32,
}

/// The columns within 10 of a predicted place at which a footprint lies in the frame.
fn columns_near(counter: &Counter, predicted: Point) -> Span
    requires { IsWithin 9000 predicted.u }
    ensures { AreColumns counter.now predicted result }
{
    Span {
        first: first_of(predicted.u - 10, FOOTPRINT.across),
        past: past_of(predicted.u + 10, FOOTPRINT.across, counter.width()),
    }
}

/// The rows within 6 of a predicted place at which a footprint lies in the frame.
fn rows_near(counter: &Counter, predicted: Point) -> Span
    requires { IsWithin 9000 predicted.v }
    ensures { AreRows counter.now predicted result }
{
    Span {
        first: first_of(predicted.v - 6, FOOTPRINT.down),
        past: past_of(predicted.v + 6, FOOTPRINT.down, counter.height()),
    }
}

/// A bound that the best place near a predicted one stays below: one above the deficit of the
/// predicted place where that is accepted.
fn first_bound(counter: &Counter, predicted: Point) -> u32
    requires u { IsWithin 9000 predicted.u }
    requires v { IsWithin 9000 predicted.v }
    ensures cap { IsCap counter.now predicted result }
    ensures most { result ≤ 21 }
{
    match accepted_deficit(counter, predicted) {
        Some(deficit) => deficit + 1,
        None => MOST + 1,
    }
}

/// The deficit that a place has to stay below to be better than the best before it.
#[inline(always)]
fn bound_after(cap: u32, best: Option<Found>) -> u32
    ensures { result ≡ bound_of cap best }
{
    match best {
        Some(found) => found.deficit,
        None => cap,
    }
}

/// The best place up to the one in column `u` and row `v`, from the best before it. A place as good
/// as the best before stands behind it in the order.
#[inline(always)]
fn better(
    counter: &Counter,
    predicted: Point,
    cap: u32,
    u: u32,
    v: u32,
    best: Option<Found>,
) -> Option<Found>
    requires cap { cap ≤ 21 }
    requires near { IsNear predicted (place_in u v) }
    requires here { HasFootprint counter.now u v }
    requires before { IsBestSeen counter.now predicted cap u v best }
    ensures { IsBestSeen counter.now predicted cap (u + 1) v result }
{
    let below = bound_after(cap, best);
    let deficit = deficit_up_to(counter, u, v, below);
    if deficit < below {
        Some(Found {
            pixel: Pixel { u, v },
            deficit,
        })
    } else {
        best
    }
}

/// The best place up to the end of row `v`, from the best before that row.
fn best_with_row(
    counter: &Counter,
    predicted: Point,
    cap: u32,
    columns: Span,
    v: u32,
    before: Option<Found>,
) -> Option<Found>
    requires cap { cap ≤ 21 }
    requires columns { AreColumns counter.now predicted columns }
    requires row { IsRow counter.now predicted v }
    requires before { IsBestSeen counter.now predicted cap 0 v before }
    ensures { IsBestSeen counter.now predicted cap 0 (v + 1) result }
{
    if is_row_out(counter, columns, v, bound_after(cap, before)) {
        return before;
    }
    let mut best = before;
    for u in columns.first..columns.past {
        best = better(counter, predicted, cap, u, v, best);
    }
    best
}

/// The best place for a timing mark near a predicted one: of the accepted places within 10 columns
/// and 6 rows of it the one with the least deficit, then with the least row, then with the least
/// column.
pub fn best_near(counter: &Counter, predicted: Point) -> Option<Point>
    requires u { IsWithin 9000 predicted.u }
    requires v { IsWithin 9000 predicted.v }
    ensures { MatchOption result
        ((q : Point) → IsAccepted counter.now q → IsNear predicted q → ⊥)
        (λ p. IsBest counter.now predicted p) }
{
    // For the proof alone: what this call's clause says of the page.
    let _width = counter.width();
    let _height = counter.height();
    let columns = columns_near(counter, predicted);
    let rows = rows_near(counter, predicted);
    let cap = first_bound(counter, predicted);
    let mut best = None;
    for v in rows.first..rows.past {
        best = best_with_row(counter, predicted, cap, columns, v, best);
    }
    match best {
        Some(found) => Some(point(found.pixel)),
        None => None,
    }
}
