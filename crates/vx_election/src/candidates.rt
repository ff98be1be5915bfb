//! The candidates of a contest.

ghost use Rattle.std.specs.Prelude.{◌≡◌, ◌≤◌, None, map, length, IfOk};
ghost use Rattle.serde_json.specs.View.{view};
ghost use Rattle.vx_base.specs.Refusals.{Gives, GivesAs};
ghost use Rattle.vx_election.specs.Faults.{is_no_memory};
ghost use Rattle.vx_election.specs.Ids.{place_in};
ghost use Rattle.vx_election.specs.Contests.{name_at, with_parties, label_of, affiliations_in, candidate_at, candidate_list_in, candidates_in};

use crate::directory::Directory;
use crate::fault::ElectionFault;
use crate::ids::Ids;
use crate::members::{id_member, list_member, optional_list, text_member};
use crate::references::references_of;
use serde_json::Value;
use std::alloc::Global;
use vx_base::OutOfMemory;
use vx_election_model::{Choice, Choices, Named};
use vx_json::{Path, Text};

/// How many characters a label may have.
const LABEL_LIMIT: usize = 58;

fn name_at(parties: &[Named], place: u32) -> &str
    ensures { result.now ≡ name_at parties.now place }
{
    match parties.get(place as usize) {
        Some(party) => party.name.as_str(),
        None => "",
    }
}

/// A name with its parties.
fn with_parties(
    alloc: Global,
    parties: &[Named],
    name: &str,
    places: &[u32],
) -> Result<Text, OutOfMemory>
    ensures { IfOk result (λ text. text ≡ with_parties parties.now name.now places.now) }
{
    let mut text = Text::from_str(alloc, name)?;
    for place in places {
        text.push_str(", ")?;
        text.push_str(name_at(parties, *place))?;
    }
    Ok(text)
}

/// A candidate's label: with its parties where they fit.
#[tactic(auto, unfolding(crate::specs::Contests::label_of))]
fn label_of(
    alloc: Global,
    parties: &[Named],
    name: &Text,
    places: &[u32],
) -> Result<Text, OutOfMemory>
    ensures { IfOk result (λ label. label ≡ label_of parties.now name.now places.now) }
{
    let label = with_parties(alloc, parties, name.as_str(), places)?;
    if label.characters() <= LABEL_LIMIT {
        return Ok(label);
    }
    name.copy(alloc)
}

/// The places of a candidate's parties.
#[tactic(auto, unfolding(crate::specs::Contests::affiliations_in))]
fn affiliations_of(
    alloc: Global,
    parties: &Directory,
    value: &Value,
    path: &Path,
) -> Result<Vec<u32>, ElectionFault>
    ensures { GivesAs (λ places. places.items) is_no_memory result
        (affiliations_in parties.now (view value.now) path.now) }
{
    let list = optional_list(alloc, value, path, "partyIds", 10)?;
    let at = path.member(alloc, "partyIds")?;
    references_of(alloc, list, &at, parties.ids())
}

/// A candidate with an id that none of those has.
#[tactic(auto, unfolding(crate::specs::Contests::candidate_at))]
fn candidate_of(
    alloc: Global,
    parties: &Directory,
    value: &Value,
    path: &Path,
    ids: &Ids,
) -> Result<Choice, ElectionFault>
    ensures exact { Gives is_no_memory result
        (candidate_at parties.now path.now ids.now (view value.now)) }
    ensures is_new { IfOk result (λ choice. place_in choice.id ids.now ≡ None) }
{
    let id = id_member(alloc, value, path, ids)?;
    let name = text_member(alloc, value, path, "name", 1, 256)?;
    let places = affiliations_of(alloc, parties, value, path)?;
    let label = label_of(alloc, parties.as_slice(), &name, &places)?;
    let id = Text::from_str(alloc, id)?;
    Ok(Choice { id, label, name })
}

/// The elements of a list of candidates.
#[tactic(auto, unfolding(crate::specs::Contests::candidate_list_in))]
fn candidate_list_of(
    alloc: Global,
    parties: &Directory,
    values: &[Value],
    path: &Path,
) -> Result<Choices, ElectionFault>
    requires { length values.now ≤ 100 }
    ensures { Gives is_no_memory result
        (candidate_list_in parties.now path.now (map view values.now)) }
{
    let mut choices = Vec::new(alloc);
    let mut ids = Ids::new(alloc);
    for value in values {
        let at = path.element(alloc, choices.len())?;
        let choice = candidate_of(alloc, parties, value, &at, &ids)?;
        ids.push(alloc, choice.id.as_str())?;
        choices.push(choice)?;
    }
    Ok(Choices::from_vec(choices))
}

/// The candidates of a contest.
#[tactic(auto, unfolding(crate::specs::Contests::candidates_in))]
pub(crate) fn candidates_of(
    alloc: Global,
    parties: &Directory,
    value: &Value,
    path: &Path,
) -> Result<Choices, ElectionFault>
    ensures { Gives is_no_memory result (candidates_in parties.now (view value.now) path.now) }
{
    let list = list_member(alloc, value, path, "candidates", 100)?;
    let at = path.member(alloc, "candidates")?;
    candidate_list_of(alloc, parties, list, &at)
}
