ghost use Rattle.std.specs.Prelude.{◌≡◌, ◌≤◌, ◌<◌, ◌+◌, ◌↔◌, ℕ, MatchOption};
ghost use Rattle.vx_grid.specs.declared.places.Point.{Point};
ghost use Rattle.vx_mark_model.specs.Mark.{footprint, IsAccepted};
ghost use Rattle.vx_mark_model.specs.Corner.{corner_region, IsInCornerRegion, IsCorner};
ghost use Rattle.vx_mark.specs.Search.{AreFew, IsFirstOf, IsFirstAbove, IsPast, comes_first};

use crate::judge::{FOOTPRINT, MOST, deficit_up_to, is_row_out};
use crate::pixels::{Pixel, Span, past_of, point};
use vx_count::Counter;
use vx_grid::Point;

/// The first of at most 24 columns whose place in a row is accepted.
fn first_in_group(counter: &Counter, columns: Span, v: u32) -> Option<u32>
    requires columns { AreFew counter.now.width columns }
    requires top { footprint.down ≤ v }
    requires bottom { v + footprint.down ≤ counter.now.height }
    ensures { IsFirstOf counter.now columns v result }
{
    if is_row_out(counter, columns, v, MOST + 1) {
        return None;
    }
    for u in columns.first..columns.past {
        if deficit_up_to(counter, u, v, MOST + 1) <= MOST {
            return Some(u);
        }
    }
    None
}

/// The first of the columns from 26 on and before `past` whose place in a row is accepted.
fn first_in_row(counter: &Counter, past: u32, v: u32) -> Option<u32>
    requires most { past ≤ 117 }
    requires right { 0 < past → past + footprint.across ≤ counter.now.width + 1 }
    requires top { footprint.down ≤ v }
    requires bottom { v + footprint.down ≤ counter.now.height }
    ensures { IsFirstOf counter.now (record { first = 26; past = past }) v result }
{
    for group in 0..4 {
        let first = 26 + 23 * group;
        let columns = Span {
            first,
            past: past.min(first + 23),
        };
        let found = first_in_group(counter, columns, v);
        if found.is_some() {
            return found;
        }
    }
    None
}

/// The end of the columns whose places in row `v` come before the corner of the rows above, up to
/// `past`: those with a smaller sum of column and row.
fn past_before(above: Option<Pixel>, past: u32, v: u32) -> u32
    requires { MatchOption above (Unit {0}) (λ pixel. (pixel.u ≤ 4096) × (pixel.v ≤ 4096)) }
    ensures most { result ≤ past }
    ensures first { (u : ℕ) → (u < result) ↔ ((u < past) × comes_first above u v) }
{
    match above {
        Some(pixel) => past.min((pixel.u + pixel.v).saturating_sub(v)),
        None => past,
    }
}

/// The corner of the rows up to row `v`, from that of the rows above it.
fn corner_with_row(counter: &Counter, past: u32, v: u32, above: Option<Pixel>) -> Option<Pixel>
    requires past { IsPast corner_region.right footprint.across counter.now.width past }
    requires first { 14 ≤ v }
    requires last { v ≤ 104 }
    requires bottom { v + footprint.down ≤ counter.now.height }
    requires above { IsFirstAbove counter.now v above }
    ensures { IsFirstAbove counter.now (v + 1) result }
{
    match first_in_row(counter, past_before(above, past, v), v) {
        Some(u) => Some(Pixel { u, v }),
        None => above,
    }
}

/// The corner of a scan: of the accepted places in columns 26 to 116 and rows 14 to 104, the one
/// with the least sum of column and row, then with the least row.
pub fn first_corner(counter: &Counter) -> Option<Point>
    ensures { MatchOption result
        ((q : Point) → IsAccepted counter.now q → IsInCornerRegion q → ⊥)
        (λ p. IsCorner counter.now p) }
{
    let past = past_of(116, FOOTPRINT.across, counter.width());
    let mut corner = None;
    for v in 14..past_of(104, FOOTPRINT.down, counter.height()) {
        corner = corner_with_row(counter, past, v, corner);
    }
    match corner {
        Some(pixel) => Some(point(pixel)),
        None => None,
    }
}
