//! How a simulated page lies in its scan.

ghost use Rattle.std.specs.Prelude.{◌≡◌, ◌<◌, ◌≤◌, ◌+◌, pos, ◌-ℤ◌, ◌≤ℤ◌};
ghost use Rattle.vx_grid.specs.Paper.{first_y};
ghost use Rattle.vx_grid.specs.Places.{IsWithin};
ghost use Rattle.vx_simulate.specs.Draws.{draw as draw_of};
ghost use Rattle.vx_simulate.specs.Lie as lie;

use crate::drawing::draw;
use rand_pcg::Pcg32;
use vx_geom::{Shear, rise};
use vx_grid::Paper;

/// The number of columns of a simulated scan.
pub(crate) const FRAME_WIDTH: u32 = 1800;

/// The number of its rows.
pub(crate) fn frame_height(paper: Paper) -> u32
    ensures { result ≡ lie.frame_height paper }
{
    match paper {
        Paper::Letter => 2240,
        Paper::Legal => 2840,
    }
}

/// The column of the centre of the first mark.
const FIRST_COLUMN: i32 = 58;

/// The row of the centre of the first mark.
fn first_row(paper: Paper) -> i32
    ensures row { result ≡ pos (first_y paper) }
    ensures low { pos 60 ≤ℤ result }
    ensures high { result ≤ℤ pos 74 }
{
    match paper {
        Paper::Letter => 60,
        Paper::Legal => 74,
    }
}

/// The way from one coordinate to another, but for a rise.
fn way(from: i32, to: i32, rise: i32) -> i32
    requires from { IsWithin 200 from }
    requires to { IsWithin 200 to }
    requires near { IsWithin 60 (to -ℤ from) }
    requires rise { IsWithin 5 rise }
    ensures value { result ≡ (to -ℤ from) -ℤ rise }
    ensures bound { IsWithin 100 result }
{
    to - from - rise
}

/// The shear of two slopes that takes the first mark to a column and a row of the scan.
fn shear_to(paper: Paper, a: i32, b: i32, u: u32, v: u32) -> Shear
    requires a { IsWithin 64 a }
    requires b { IsWithin 64 b }
    requires left { 60 ≤ u }
    requires right { u ≤ 112 }
    requires top { 40 ≤ v }
    requires bottom { v ≤ 100 }
    ensures shear { result ≡ lie.shear_to paper a b (pos u) (pos v) }
    ensures short { lie.IsShort result }
{
    let (column, row) = (u as i32, v as i32);
    let right = rise(a, row);
    let down = rise(b, FIRST_COLUMN);
    Shear {
        sx: way(FIRST_COLUMN, column, right),
        sy: way(first_row(paper), row, down),
        a,
        b,
    }
}

/// A slope in parts of 4096, from -64 to 64.
fn draw_slope(rng: &mut Pcg32) -> i32
    ensures slope { result ≡ pos (draw_of 129 rng.old).0 -ℤ pos 64 }
    ensures next { rng.new ≡ (draw_of 129 rng.old).1 }
    ensures within { IsWithin 64 result }
{
    draw(rng, 129) as i32 - 64
}

/// The columns where the first mark may come to lie: the first of them, and how many there are.
fn start_columns(paper: Paper) -> (u32, u32)
    ensures first { result.0 ≡ lie.start_column paper }
    ensures many { result.1 ≡ lie.start_columns paper }
    ensures low { 60 ≤ result.0 }
    ensures some { 0 < result.1 }
    ensures few { result.0 + result.1 ≤ 113 }
{
    match paper {
        Paper::Letter => (60, 53),
        Paper::Legal => (70, 43),
    }
}

/// The shear of a page: the slope of its rows, that of its columns, then the column and the row where
/// the first mark lies.
pub(crate) fn draw_shear(rng: &mut Pcg32, paper: Paper) -> Shear
    ensures shear { result ≡ (lie.draw_shear paper rng.old).0 }
    ensures next { rng.new ≡ (lie.draw_shear paper rng.old).1 }
    ensures short { lie.IsShort result }
{
    let a = draw_slope(rng);
    let b = draw_slope(rng);
    let (first, many) = start_columns(paper);
    let u = first + draw(rng, many);
    let v = 40 + draw(rng, 61);
    shear_to(paper, a, b, u, v)
}
