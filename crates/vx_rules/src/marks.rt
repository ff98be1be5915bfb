ghost use Rattle.std.specs.Prelude.{◌≡◌, IfOk};

use std::alloc::Global;
use vx_base::{ListOf, OutOfMemory};
use vx_grid::{Kind, States};

/// What the options of one contest were read as.
#[derive(Debug, Drop)]
pub struct ContestMarks {
    /// The contest's place in the election's list.
    pub contest: u32,
    /// One state for each option, in their order: the choices, then the write-in slots.
    pub states: States,
}

impl ContestMarks {
    /// An equal value.
    pub fn copy(&self, alloc: Global) -> Result<ContestMarks, OutOfMemory>
        ensures { IfOk result (λ copy. copy ≡ self.now) }
    {
        let states = Vec::from_slice(alloc, self.states.as_slice())?;
        Ok(ContestMarks {
            contest: self.contest,
            states: States::from_vec(states),
        })
    }
}

/// What the contests of a sheet were read as, each contest once, in ascending order.
pub type ContestMarksList = ListOf<ContestMarks>;

/// What a sheet was read as: the front and the back of a card.
#[derive(Debug, Drop)]
pub struct SheetMarks {
    /// The card's number in the election.
    pub card: u32,
    /// The number of the front page, which is odd.
    pub front: u32,
    /// How the ballot was cast.
    pub kind: Kind,
    /// Whether it is a test ballot.
    pub test: bool,
    pub contests: ContestMarksList,
}

impl SheetMarks {
    /// An equal value.
    pub fn copy(&self, alloc: Global) -> Result<SheetMarks, OutOfMemory>
        ensures { IfOk result (λ copy. copy ≡ self.now) }
    {
        let contests = copy_contests(alloc, self.contests.as_slice())?;
        Ok(SheetMarks {
            card: self.card,
            front: self.front,
            kind: self.kind,
            test: self.test,
            contests: ContestMarksList::from_vec(contests),
        })
    }
}

fn copy_contests(alloc: Global, list: &[ContestMarks]) -> Result<Vec<ContestMarks>, OutOfMemory>
    ensures { IfOk result (λ copy. copy.items ≡ list.now) }
{
    let mut copy = Vec::with_capacity(alloc, list.len())?;
    for marks in list {
        copy.push(marks.copy(alloc)?)?;
    }
    Ok(copy)
}

/// Lets what a sheet was read as go. That this is safe is proved here; a crate that calls it needn't
/// prove it again.
pub fn drop_marks(_sheet: SheetMarks) {}
