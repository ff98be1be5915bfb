//! The day of an election among the members of its definition.

ghost use Rattle.serde_json.specs.View.{view};
ghost use Rattle.vx_base.specs.Refusals.{Gives};
ghost use Rattle.vx_election.specs.Faults.{is_no_memory};
ghost use Rattle.vx_election.specs.Dates.{date_in};

use crate::fault::ElectionFault;
use serde_json::Value;
use std::alloc::Global;
use vx_election_model::is_date;
use vx_json::{Path, Text, string_of};

/// The text that the value is, where it is a day.
#[tactic(auto, unfolding(crate::specs::Dates::date_in))]
pub(crate) fn date_of(alloc: Global, value: &Value, path: &Path) -> Result<Text, ElectionFault>
    ensures { Gives is_no_memory result (date_in (view value.now) path.now) }
{
    let text = string_of(alloc, value, path)?;
    if !is_date(text.as_bytes()) {
        return Err(ElectionFault::OutOfRange(path.copy(alloc)?));
    }
    Ok(Text::from_str(alloc, text)?)
}
