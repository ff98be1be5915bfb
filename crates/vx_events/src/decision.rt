ghost use Rattle.std.specs.Prelude.{◌≡◌, IfOk};

use crate::options::Options;
use std::alloc::Global;
use vx_base::OutOfMemory;
use vx_json::Text;

/// Whom a voter wrote in.
#[derive(Debug, Drop)]
pub enum WriteInName {
    /// The words that were written.
    Words(Text),
    /// One of the contest's candidates, by its number from 0.
    Candidate(u32),
}

impl WriteInName {
    /// An equal value.
    pub fn copy(&self, alloc: Global) -> Result<WriteInName, OutOfMemory>
        ensures { IfOk result (λ copy. copy ≡ self.now) }
    {
        match self {
            WriteInName::Words(words) => Ok(WriteInName::Words(words.copy(alloc)?)),
            WriteInName::Candidate(number) => Ok(WriteInName::Candidate(*number)),
        }
    }
}

/// What a station decides of a contest of a sheet.
#[derive(Debug, Drop)]
pub enum Decision {
    /// These options are selected.
    Selections(Options),
    /// The contest is overvoted.
    RuledOvervote,
    /// The contest counts as it was read.
    AcceptRead,
    /// A write-in slot, by its number from 0, names someone.
    NameWriteIn { slot: u32, name: WriteInName },
}

impl Decision {
    /// An equal value.
    pub fn copy(&self, alloc: Global) -> Result<Decision, OutOfMemory>
        ensures { IfOk result (λ copy. copy ≡ self.now) }
    {
        match self {
            Decision::Selections(options) => Ok(Decision::Selections(options.copy(alloc)?)),
            Decision::RuledOvervote => Ok(Decision::RuledOvervote),
            Decision::AcceptRead => Ok(Decision::AcceptRead),
            Decision::NameWriteIn { slot, name } => Ok(Decision::NameWriteIn {
                slot: *slot,
                name: name.copy(alloc)?,
            }),
        }
    }
}
