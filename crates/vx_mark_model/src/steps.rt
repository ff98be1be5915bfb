ghost use Rattle.std.specs.Prelude.{◌≡◌, ◌<◌, ◌↔◌, ◌+ℤ◌, ◌-ℤ◌, ◌≤ℤ◌, IsTrue};
ghost use Rattle.vx_grid.specs.Paper.{last_row as last_row_of};
ghost use Rattle.vx_grid.specs.Marks.{first_left as first_left_of, first_bottom as first_bottom_of, marks as marks_of};
ghost use Rattle.vx_grid.specs.Places.{IsWithin, IsPointWithin};
ghost use Rattle.vx_mark_model.specs.Best.{IsNear};
ghost use Rattle.vx_mark_model.specs.Border.{side_of as side_is, index_of as index_is};
ghost use Rattle.vx_mark_model.specs.Following.{is_in_row, leader_of as leader_is, expected_from, right_of as right_is};

use vx_grid::{Paper, Point, Side, last_row, mark_of};

/// The number of the first mark of the left column.
pub fn first_left(paper: Paper) -> u32
    ensures { result ≡ first_left_of (last_row_of paper) }
{
    34 + last_row(paper)
}

/// The number of the first mark of the bottom row.
fn first_bottom(paper: Paper) -> u32
    ensures { result ≡ first_bottom_of (last_row_of paper) }
{
    34 + 2 * last_row(paper)
}

/// The side that mark `k` stands on.
pub fn side_of(paper: Paper, k: u32) -> Side
    ensures { result ≡ side_is (last_row_of paper) k }
{
    if k < 34 {
        Side::Top
    } else if k < first_left(paper) {
        Side::Right
    } else if k < first_bottom(paper) {
        Side::Left
    } else {
        Side::Bottom
    }
}

/// Whether mark `k` stands in the top row or the bottom row.
fn in_row(paper: Paper, k: u32) -> bool
    ensures { result ≡ is_in_row (last_row_of paper) k }
{
    k < 34 || k >= first_bottom(paper)
}

/// The column of a mark in a row, the row of a mark in a column.
pub fn index_of(paper: Paper, k: u32) -> u32
    requires { k < marks_of paper }
    ensures { result ≡ index_is (last_row_of paper) k }
{
    let (column, row) = mark_of(paper, k);
    if in_row(paper, k) { column } else { row }
}

/// The mark that leads to mark `k`.
pub fn leader_of(paper: Paper, k: u32) -> u32
    requires { 0 < k }
    ensures exact { result ≡ leader_is (last_row_of paper) k }
    ensures before { result < k }
{
    if k == first_left(paper) { 0 } else { k - 1 }
}

/// Where the next mark of a row is expected.
pub fn right_of(p: Point) -> Point
    requires { IsPointWithin 8900 p }
    ensures exact { result ≡ right_is p }
    ensures within { IsPointWithin 9000 result }
{
    Point {
        u: p.u + 48,
        v: p.v,
    }
}

/// Where mark `k` is expected from the mark that leads to it.
pub fn expected(paper: Paper, k: u32, leader: Point) -> Point
    requires { IsPointWithin 8900 leader }
    ensures exact { result ≡ expected_from (last_row_of paper) k leader }
    ensures within { IsPointWithin 9000 result }
{
    if in_row(paper, k) {
        right_of(leader)
    } else {
        Point {
            u: leader.u,
            v: leader.v + 52,
        }
    }
}

/// Whether a number lies so close to another.
fn is_close(expected: i32, found: i32, reach: i32) -> bool
    requires expected { IsWithin 9000 expected }
    requires found { IsWithin 9000 found }
    requires reach { IsWithin 100 reach }
    ensures { IsTrue result ↔ (((expected -ℤ reach) ≤ℤ found) × (found ≤ℤ (expected +ℤ reach))) }
{
    expected - reach <= found && found <= expected + reach
}

/// Whether a place is near where it is expected: within 10 columns and 6 rows.
pub fn is_near(predicted: Point, place: Point) -> bool
    requires predicted { IsPointWithin 9000 predicted }
    requires place { IsPointWithin 9000 place }
    ensures { IsTrue result ↔ IsNear predicted place }
{
    is_close(predicted.u, place.u, 10) && is_close(predicted.v, place.v, 6)
}
