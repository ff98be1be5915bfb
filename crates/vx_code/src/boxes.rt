ghost use Rattle.std.specs.Prelude.{◌<◌, ◌≡◌, ◌≤◌, ◌+◌, ◌*◌, ◌-◌, ℕ};
ghost use Rattle.vx_grid.specs.Grid.{first_code_row as first_row_of};
ghost use Rattle.vx_code.specs.Code as page_code;
ghost use Rattle.vx_code.specs.Code.{IsInRange};
ghost use Rattle.vx_code.specs.declared.code.PageCode.{PageCode};

use crate::code::{PageCode, number_of};
use vx_grid::{Paper, first_code_row};

/// Which boxes are printed for a code: index `2 * n` is the left box of pair `n`, printed where bit
/// `n` is 0, and the next index its right box.
pub fn boxes_of(code: &PageCode) -> [bool; 84]
    requires { IsInRange code.now }
    ensures exact { result ≡ page_code.boxes_of code.now }
    // Two codes with the same boxes are one.
    ensures distinct { (other : PageCode) → IsInRange other → page_code.boxes_of other ≡ result
        → other ≡ code.now }
{
    let number = number_of(code);
    let mut boxes = [false; 84];
    for n in 0..42 {
        let bit = (number >> (41 - n)) % 2 == 1;
        boxes[2 * n] = !bit;
        boxes[2 * n + 1] = bit;
    }
    boxes
}

/// The grid column and row of a box, 0 to 83.
pub fn place_of_box(paper: Paper, index: u32) -> (u32, u32)
    requires { index < 84 }
    ensures exact { result ≡ page_code.place_of_box paper index }
    ensures columns { (3 ≤ result.0) × (result.0 ≤ 30) }
    ensures rows { (first_row_of paper ≤ result.1) × (result.1 ≤ first_row_of paper + 2) }
    // Each box has a place of its own.
    ensures distinct { index ≡ 28 * (result.1 - first_row_of paper) + (result.0 - 3) }
{
    let pair = index / 2;
    let row = pair / 14;
    (3 + 2 * (pair % 14) + index % 2, first_code_row(paper) + row)
}
