//! The paper of an election.

ghost use Rattle.std.specs.Prelude.{◌≡◌};
ghost use Rattle.serde_json.specs.View.{view};
ghost use Rattle.vx_base.specs.Refusals.{Gives};
ghost use Rattle.vx_election.specs.Faults.{is_no_memory};
ghost use Rattle.vx_election.specs.Papers.{paper_named, stated_paper_in, paper_in};

use crate::fault::ElectionFault;
use crate::names::is_word;
use serde_json::Value;
use std::alloc::Global;
use vx_grid::Paper;
use vx_json::{Path, string_of};

/// The paper of that name.
fn paper_named(text: &str) -> Option<Paper>
    ensures { result ≡ paper_named text.now }
{
    if is_word(text, "letter") {
        Some(Paper::Letter)
    } else if is_word(text, "legal") {
        Some(Paper::Legal)
    } else {
        None
    }
}

#[tactic(auto, unfolding(crate::specs::Papers::stated_paper_in))]
fn stated_paper_of(alloc: Global, value: &Value, path: &Path) -> Result<Paper, ElectionFault>
    ensures { Gives is_no_memory result (stated_paper_in (view value.now) path.now) }
{
    let text = string_of(alloc, value, path)?;
    match paper_named(text) {
        Some(paper) => Ok(paper),
        None => Err(ElectionFault::OutOfRange(path.copy(alloc)?)),
    }
}

/// The paper of an election: letter where it names none.
#[tactic(auto, unfolding(crate::specs::Papers::paper_in))]
pub(crate) fn paper_of(alloc: Global, value: &Value) -> Result<Paper, ElectionFault>
    ensures { Gives is_no_memory result (paper_in (view value.now)) }
{
    match value.get("vxPaper") {
        None => Ok(Paper::Letter),
        Some(member) => {
            let at = Path::root(alloc).member(alloc, "vxPaper")?;
            stated_paper_of(alloc, member, &at)
        }
    }
}
