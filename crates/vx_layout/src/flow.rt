ghost use Rattle.std.specs.Prelude.{◌≡◌, ◌≤◌, ◌<◌, ◌+◌, ◌^◌, All, IfOk, length};
ghost use Rattle.vx_layout.specs.Blocks.{HasSizes};
ghost use Rattle.vx_layout.specs.Flow.{top, blocks_from, end_from, CanStand, IsPlaced};

use crate::block::height_of;
use std::alloc::Global;
use vx_base::OutOfMemory;
use vx_election_model::Contest;
use vx_grid::{FIRST_CONTEST_ROW, Paper, contest_rows};

/// A place in the text columns, before any page is made.
#[derive(Clone, Copy, Debug, PartialEq, Eq)]
pub struct Spot {
    /// The text column, counted over all pages, three a page.
    pub column: u32,
    /// How many rows stand above it in its column.
    pub row: u32,
}

/// Where the block of a contest begins.
#[derive(Clone, Copy, Debug, PartialEq, Eq)]
pub struct Block {
    /// The contest's place in the election's list.
    pub contest: u32,
    pub spot: Spot,
}

impl Spot {
    ghost use Rattle.vx_grid.specs.Grid as grid;
    ghost use Rattle.vx_layout.specs.Flow as flow;

    /// Where a block of some rows begins, if what is before it ends here.
    fn start(self, paper: Paper, rows: u32) -> Spot
        requires column { self.column < 2000 }
        requires row { self.row ≤ grid.contest_rows paper }
        requires rows { rows ≤ grid.contest_rows paper }
        ensures { result ≡ flow.start_of paper self rows }
    {
        if self.row + rows <= contest_rows(paper) {
            self
        } else {
            Spot {
                column: self.column + 1,
                row: 0,
            }
        }
    }

    /// So many rows below.
    fn below(self, rows: u32) -> Spot
        requires { self.row + rows < 2 ^ 32 }
        ensures { result ≡ flow.below self rows }
    {
        Spot {
            column: self.column,
            row: self.row + rows,
        }
    }

    /// The page, from 1.
    pub(crate) fn page(self) -> u32
        ensures { result ≡ flow.page_of self }
    {
        self.column / 3 + 1
    }

    /// The grid column of the bubbles.
    pub(crate) fn col(self) -> u32
        ensures { result ≡ flow.column_of self }
    {
        4 + 9 * (self.column % 3)
    }

    /// The grid row.
    pub(crate) fn grid_row(self) -> u32
        requires { self.row < 2 ^ 31 }
        ensures { result ≡ flow.row_of self }
    {
        FIRST_CONTEST_ROW + self.row
    }
}

/// The blocks of a card's contests, and where the last one ends.
#[derive(Drop)]
pub(crate) struct Flow {
    pub(crate) blocks: Vec<Block>,
    pub(crate) end: Spot,
}

/// Lets the blocks of contests flow through the columns. Each of them fits a column.
pub(crate) fn flow_of(
    alloc: Global,
    paper: Paper,
    contests: &[Contest],
    numbers: &[u32],
) -> Result<Flow, OutOfMemory>
    requires sizes { All HasSizes contests.now }
    requires stand { All (CanStand paper contests.now) numbers.now }
    requires few { length numbers.now ≤ 500 }
    ensures blocks { IfOk result (λ flow. flow.blocks.items ≡ blocks_from paper contests.now top numbers.now) }
    ensures end { IfOk result (λ flow. flow.end ≡ end_from paper contests.now top numbers.now) }
    ensures few { IfOk result (λ flow. flow.end.column ≤ 500) }
{
    let mut blocks = Vec::with_capacity(alloc, numbers.len())?;
    let mut spot = Spot { column: 0, row: 0 };
    for number in numbers {
        let rows = height_of(&contests[*number as usize]);
        spot = spot.start(paper, rows);
        blocks.push(Block {
            contest: *number,
            spot,
        })?;
        spot = spot.below(rows);
    }
    Ok(Flow { blocks, end: spot })
}
