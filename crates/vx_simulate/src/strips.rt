//! The columns of the paper as a scan shows them: moved down, each by as much as the slope makes it.

ghost use Rattle.std.specs.Prelude.{◌≡◌, ◌<◌, ◌+◌, ◌*◌, ◌-◌, ◌==◌, ℕ, IfOk, pos, ◌-ℤ◌};
ghost use Rattle.std.specs.Int.{bit_at};
ghost use Rattle.vx_plane.specs.Count.{one_if};
ghost use Rattle.vx_geom.specs.Slants.{slant_of, right_by};
ghost use Rattle.vx_simulate.specs.Lie.{IsShort};
ghost use Rattle.vx_simulate.specs.Rows.{AreStrips, IsGreatest, row_of, shown};

use std::alloc::Global;
use vx_base::OutOfMemory;
use vx_geom::Shear;
use vx_grid::Point;

/// The columns to the left of the paper in its margins.
pub(crate) const LEFT: i32 = 160;

/// The rows above the paper in its margins.
pub(crate) const ABOVE: i32 = 136;

/// The bytes of a packed row of the paper in its margins.
pub(crate) const STRIDE: usize = 264;

/// Eight columns of the paper in its margins, as a scan shows them.
#[derive(Clone, Copy)]
pub(crate) struct Strip {
    /// The row that row 0 of the scan shows in some of the eight columns.
    pub(crate) row: u32,
    /// The columns where it shows the next row, the first of them the highest bit.
    pub(crate) bits: u8,
}

/// The row of the paper in its margins that row 0 of a scan shows in a column.
fn shown_row(shear: Shear, x: u32) -> u32
    requires short { IsShort shear }
    requires column { x < 2112 }
    ensures row { pos result ≡ shown (slant_of shear) x }
    ensures above { 0 < result }
    ensures below { result < 272 }
{
    let top = Point {
        u: x as i32 - LEFT,
        v: 0,
    };
    (ABOVE - shear.to_scan(top).v) as u32
}

/// The column of the paper in its margins that column 0 of a row of a scan shows.
pub(crate) fn first_column(shear: Shear, v: u32) -> u32
    requires short { IsShort shear }
    requires row { v < 2840 }
    ensures column { pos result ≡ pos 160 -ℤ right_by (slant_of shear) (pos v) }
    ensures below { result < 312 }
{
    let left = Point { u: 0, v: v as i32 };
    (LEFT + shear.to_paper(left).u) as u32
}

/// The greatest of the rows that are shown in eight columns.
fn greatest_row(shear: Shear, k: u32) -> u32
    requires short { IsShort shear }
    requires strip { k < 264 }
    ensures greatest { IsGreatest (slant_of shear) k result }
    ensures above { 0 < result }
    ensures below { result < 272 }
{
    let mut greatest = shown_row(shear, 8 * k);
    for i in 1..8 {
        let row = shown_row(shear, 8 * k + i);
        greatest = greatest.max(row);
    }
    greatest
}

/// The columns of eight that show a row.
fn columns_that_show(shear: Shear, k: u32, row: u32) -> u8
    requires short { IsShort shear }
    requires strip { k < 264 }
    ensures { (i shown_there : ℕ) → i < 8 → pos shown_there ≡ shown (slant_of shear) (8 * k + i)
        → bit_at result (7 - i) ≡ one_if (shown_there == row) }
{
    let mut bits = 0;
    for i in 0..8 {
        let here = shown_row(shear, 8 * k + i);
        bits = 2 * bits + u32::from(here == row);
    }
    bits as u8
}

/// Eight columns as a scan shows them: they show one row, or two that follow one another.
fn strip_at(shear: Shear, k: u32) -> Strip
    requires short { IsShort shear }
    requires strip { k < 264 }
    ensures rows { (i : ℕ) → i < 8 → pos (row_of result i) ≡ shown (slant_of shear) (8 * k + i) }
    ensures few { (i : ℕ) → i < 8 → row_of result i < 272 }
{
    let greatest = greatest_row(shear, k);
    Strip {
        row: greatest - 1,
        bits: columns_that_show(shear, k, greatest),
    }
}

/// All columns of the paper in its margins as a scan shows them.
pub(crate) fn strips_of(alloc: Global, shear: Shear) -> Result<Vec<Strip>, OutOfMemory>
    requires { IsShort shear }
    ensures { IfOk result (λ strips. AreStrips (slant_of shear) strips.items) }
{
    let mut strips = Vec::new(alloc);
    for k in 0..264 {
        strips.push(strip_at(shear, k))?;
    }
    Ok(strips)
}
