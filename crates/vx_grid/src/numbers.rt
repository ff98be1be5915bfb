ghost use Rattle.std.specs.Prelude.{◌≡◌, ◌<◌, ◌≤◌};
ghost use Rattle.vx_grid.specs.Paper.{last_row as last_row_of};
ghost use Rattle.vx_grid.specs.Marks as numbers;

use crate::paper::{Paper, last_row};

/// The greatest number of timing marks that a page has.
pub const MOST_MARKS: usize = 168;

/// The number of timing marks of a page: 146, or 168 on legal paper.
pub fn marks(paper: Paper) -> u32
    ensures exact { result ≡ numbers.marks paper }
    ensures bound { (146 ≤ result) × (result ≤ 168) }
{
    66 + 2 * last_row(paper)
}

/// The grid column and row of timing mark `k`: the top row, the right column, the left column and
/// the bottom row.
pub fn mark_of(paper: Paper, k: u32) -> (u32, u32)
    requires { k < numbers.marks paper }
    ensures { result ≡ numbers.mark_of (last_row_of paper) k }
{
    let last = last_row(paper);
    if k < 34 {
        (k, 0)
    } else if k < 34 + last {
        (33, k - 33)
    } else if k < 34 + 2 * last {
        (0, k - (33 + last))
    } else {
        (k - (33 + 2 * last), last)
    }
}
