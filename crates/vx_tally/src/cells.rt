//! The units, contests and selections of which there are votes.

ghost use Rattle.std.specs.Prelude.{◌≡◌, ◌++◌, IfOk, OnOk};
ghost use Rattle.std.specs.List.{flat_map};
ghost use Rattle.vx_tally.specs.declared.sums.Counted.TheVariants.{VotesIn};
ghost use Rattle.vx_tally.specs.Cells.{HaveVotes};
ghost use Rattle.vx_tally.specs.Running.{cell_by, cell_of, sum_in};

use crate::sums::{Counted, Sums};
use std::alloc::Global;
use vx_base::OutOfMemory;

/// The places of a unit, of a contest, and of a selection of it.
pub type Cell = (u32, u32, u32);

/// Puts the cell of a sum behind others, where it is one of votes in a unit, and above 0.
fn push_cell(cells: &mut Vec<Cell>, counted: Counted, votes: u64) -> Result<(), OutOfMemory>
    ensures { OnOk result (cells.new.items ≡ cells.old.items ++ cell_by counted votes) }
{
    match counted {
        Counted::VotesIn(unit, contest, selection) => {
            if votes != 0 {
                cells.push((unit, contest, selection))?;
            }
            Ok(())
        }
        Counted::Votes(..) | Counted::Over(_) | Counted::Under(_) => Ok(()),
    }
}

/// Puts the cells of sums behind others.
fn push_cells(cells: &mut Vec<Cell>, sums: &Sums) -> Result<(), OutOfMemory>
    ensures { OnOk result (cells.new.items ≡ cells.old.items ++ flat_map cell_of sums.now.entries) }
{
    for place in 0..sums.len() {
        let (counted, votes) = sums.get_index(place).unwrap();
        push_cell(cells, *counted, *votes)?;
    }
    Ok(())
}

/// The cells of which there are votes, in order.
pub(crate) fn cells_of(alloc: Global, sums: &Sums) -> Result<Vec<Cell>, OutOfMemory>
    ensures { IfOk result (λ cells.
        HaveVotes (λ unit contest selection. sum_in sums.now.entries (VotesIn unit contest selection)) cells.items) }
{
    let _count = sums.len();
    let mut cells = Vec::new(alloc);
    push_cells(&mut cells, sums)?;
    cells.sort_unstable();
    cells.dedup();
    Ok(cells)
}
