//! Lists of references to parties, districts or precincts.

ghost use Rattle.std.specs.Prelude.{◌≡◌, ◌++◌, ◌∷◌, [], map, length, is_ok, false, IfOk, if◌then◌else◌};
ghost use Rattle.serde_json.specs.View.{view};
ghost use Rattle.vx_base.specs.Refusals.{Gives, GivesAs};
ghost use Rattle.vx_election.specs.Faults.{is_no_memory};
ghost use Rattle.vx_election.specs.Ids.{is_among, new_reference_in};
ghost use Rattle.vx_election.specs.Parts.{references_in, new_references_in};

use crate::fault::ElectionFault;
use crate::ids::{Ids, id_of, reference_of};
use serde_json::Value;
use std::alloc::Global;
use std::collections::BTreeSet;
use std::marker::Model;
use vx_base::OutOfMemory;
use vx_election_model::Indexes;
use vx_json::{Path, Text};

/// Places of a list in order, each once, with the set of them.
#[derive(Drop)]
struct Places {
    places: Vec<u32>,
    seen: BTreeSet<u32>,
}

impl Model for Places {
    ghost use Rattle.std.specs.Prelude.{◌≡◌, List, ℕ};
    ghost use Rattle.std.specs.Ordering.{nat_cmp};
    ghost use Rattle.std.specs.BTreeSet.{contains};
    ghost use Rattle.vx_election.specs.Ids.{is_among};

    ghost Value = { List ℕ };

    ghost view = { λ self. self.places.items };

    ghost invariant = { λ self. (place : ℕ) →
        contains nat_cmp self.seen place ≡ is_among place self.places.items };
}

impl Places {
    fn new(alloc: Global) -> Self
        ensures { result ≡ [] }
    {
        Places {
            places: Vec::new(alloc),
            seen: BTreeSet::new(alloc),
        }
    }

    fn len(&self) -> usize
        ensures { result ≡ length self.now }
    {
        self.places.len()
    }

    fn has(&self, place: u32) -> bool
        ensures { result ≡ is_among place self.now }
    {
        self.seen.contains(&place)
    }

    fn push(&mut self, place: u32) -> Result<(), OutOfMemory>
        requires { is_among place self.old ≡ false }
        ensures { self.new ≡ (if is_ok result then self.old ++ place ∷ [] else self.old) }
    {
        self.places.reserve(1)?;
        self.seen.insert(place)?;
        self.places.push(place).unwrap();
        Ok(())
    }

    fn into_indexes(self) -> Indexes
        ensures { result ≡ self }
    {
        let Places {
            places,
            seen: _seen,
        } = self;
        Indexes::from_vec(places)
    }
}

/// The place of the id that is referred to, which is none of those before it.
#[tactic(auto, unfolding(crate::specs::Ids::new_reference_in))]
fn new_reference_of(
    alloc: Global,
    value: &Value,
    path: &Path,
    ids: &Ids,
    found: &Places,
) -> Result<u32, ElectionFault>
    ensures exact { Gives is_no_memory result
        (new_reference_in (view value.now) path.now ids.now found.now) }
    ensures is_new { IfOk result (λ place. is_among place found.now ≡ false) }
{
    let id = id_of(alloc, value, path)?;
    let Some(place) = ids.find(id) else {
        let text = Text::from_str(alloc, id)?;
        return Err(ElectionFault::UnknownId(path.copy(alloc)?, text));
    };
    if found.has(place) {
        let text = Text::from_str(alloc, id)?;
        return Err(ElectionFault::RepeatedId(path.copy(alloc)?, text));
    }
    Ok(place)
}

/// A list of references, each once.
#[tactic(auto, unfolding(crate::specs::Parts::new_references_in))]
pub(crate) fn new_references_of(
    alloc: Global,
    values: &[Value],
    path: &Path,
    ids: &Ids,
) -> Result<Indexes, ElectionFault>
    ensures exact { Gives is_no_memory result
        (new_references_in path.now ids.now (map view values.now)) }
    ensures count { IfOk result (λ places. length places ≡ length values.now) }
{
    let mut found = Places::new(alloc);
    for value in values {
        let at = path.element(alloc, found.len())?;
        let place = new_reference_of(alloc, value, &at, ids, &found)?;
        found.push(place)?;
    }
    Ok(found.into_indexes())
}

/// A list of references, which may repeat.
#[tactic(auto, unfolding(crate::specs::Parts::references_in))]
pub(crate) fn references_of(
    alloc: Global,
    values: &[Value],
    path: &Path,
    ids: &Ids,
) -> Result<Vec<u32>, ElectionFault>
    ensures { GivesAs (λ places. places.items) is_no_memory result
        (references_in path.now ids.now (map view values.now)) }
{
    let mut found = Vec::new(alloc);
    for value in values {
        let at = path.element(alloc, found.len())?;
        let place = reference_of(alloc, value, &at, ids)?;
        found.push(place)?;
    }
    Ok(found)
}
