ghost use Rattle.std.specs.Prelude.{◌≡◌, ◌≤◌, ◌<◌, ◌^◌, pos};
ghost use Rattle.vx_grid.specs.Paper.{last_row as last_row_of};
ghost use Rattle.vx_grid.specs.Grid as grid;

use crate::paper::{Paper, first_y, last_row};

/// The pixel column of the centre of a grid column, whatever it is.
pub fn centre_x(column: u32) -> u64
    ensures exact { result ≡ grid.x_of column }
    ensures bound { (58 ≤ result) × (result < 2 ^ 40) }
{
    58 + 48 * u64::from(column)
}

/// The pixel row of the centre of a grid row, whatever it is.
pub fn centre_y(paper: Paper, row: u32) -> u64
    ensures exact { result ≡ grid.y_of paper row }
    ensures bound { (60 ≤ result) × (result < 2 ^ 40) }
{
    u64::from(first_y(paper)) + 52 * u64::from(row)
}

/// The pixel column of the centre of grid column `c`, 0 to 33.
pub fn x_of(c: u32) -> i32
    requires { c ≤ grid.last_column }
    ensures { result ≡ pos (grid.x_of c) }
{
    centre_x(c) as i32
}

/// The pixel row of the centre of grid row `r`, 0 to the paper's last row.
pub fn y_of(paper: Paper, r: u32) -> i32
    requires { r ≤ last_row_of paper }
    ensures { result ≡ pos (grid.y_of paper r) }
{
    centre_y(paper, r) as i32
}

/// The first of the three grid rows of the page code.
pub fn first_code_row(paper: Paper) -> u32
    ensures { result ≡ grid.first_code_row paper }
{
    last_row(paper) - 5
}

/// The first grid row of contests.
pub const FIRST_CONTEST_ROW: u32 = 6;

/// How many grid rows of contests there are.
pub fn contest_rows(paper: Paper) -> u32
    ensures { result ≡ grid.contest_rows paper }
{
    last_row(paper) - 12
}

/// The grid row of the foot line.
pub fn foot_row(paper: Paper) -> u32
    ensures { result ≡ grid.foot_row paper }
{
    last_row(paper) - 6
}
