//! The town's election, with one contest on one card.

ghost use Rattle.std.specs.Prelude.{IfOk};
ghost use Rattle.vx_election_model.specs.Valid.{IsValid};

use std::alloc::Global;
use std::test::Fail;
use vx_election::{Election, read_election};
use vx_grid::Paper;
use vx_town::{TOWN, on_legal};

/// The town's definition on a paper.
pub(crate) fn definition_on(alloc: Global, paper: Paper) -> Result<String, Fail> {
    match paper {
        Paper::Letter => Ok(String::from_str(alloc, TOWN)?),
        Paper::Legal => Ok(on_legal(alloc, TOWN)?),
    }
}

/// The town's election on a paper, read.
pub(crate) fn town_on(alloc: Global, paper: Paper) -> Result<Election, Fail>
    ensures { IfOk result (λ election. IsValid election) }
{
    let definition = definition_on(alloc, paper)?;
    Ok(read_election(alloc, definition.as_bytes())?)
}
