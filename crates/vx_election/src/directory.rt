//! Parties, districts and precincts, and references to them.

ghost use Rattle.std.specs.Prelude.{◌≡◌, ◌≤◌, ◌<◌, ◌^◌, ◌++◌, ◌∷◌, [], None, map, length, IfOk, is_ok, if◌then◌else◌};
ghost use Rattle.serde_json.specs.View.{view};
ghost use Rattle.vx_base.specs.Refusals.{Gives};
ghost use Rattle.vx_election.specs.Faults.{is_no_memory};
ghost use Rattle.vx_election.specs.Ids.{place_in};
ghost use Rattle.vx_election.specs.Parts.{named_at, named_list_in};

use crate::fault::ElectionFault;
use crate::ids::Ids;
use crate::members::{id_member, text_member};
use serde_json::Value;
use std::alloc::Global;
use std::marker::Model;
use vx_base::OutOfMemory;
use vx_election_model::{Named, NamedList};
use vx_json::{Path, Text};

/// A list of parties, districts or precincts, with the place of each id.
#[derive(Drop)]
pub(crate) struct Directory {
    list: Vec<Named>,
    ids: Ids,
}

impl Model for Directory {
    ghost use Rattle.std.specs.Prelude.{◌≡◌, List};
    ghost use Rattle.vx_election_model.specs.declared.named.Named.{Named};
    ghost use Rattle.vx_election_model.specs.Lists.{named_ids};

    ghost Value = { List Named };

    ghost view = { λ self. self.list.items };

    ghost invariant = { λ self. self.ids ≡ named_ids self.list.items };
}

impl Directory {
    ghost use Rattle.vx_election_model.specs.Lists.{named_ids};

    /// The empty list; takes no memory.
    fn new(alloc: Global) -> Self
        ensures { result ≡ [] }
    {
        Directory {
            list: Vec::new(alloc),
            ids: Ids::new(alloc),
        }
    }

    fn len(&self) -> usize
        ensures { result ≡ length self.now }
    {
        self.list.len()
    }

    /// Adds an element with an id that isn't there yet at the end.
    fn push(&mut self, alloc: Global, named: Named) -> Result<(), OutOfMemory>
        requires few { length self.old < 2 ^ 32 }
        requires is_new { place_in named.id (named_ids self.old) ≡ None }
        ensures { self.new ≡ (if is_ok result then self.old ++ named ∷ [] else self.old) }
    {
        self.list.reserve(1)?;
        self.ids.push(alloc, named.id.as_str())?;
        self.list.push(named).unwrap();
        Ok(())
    }

    /// The ids of the list.
    pub(crate) fn ids(&self) -> &Ids
        ensures { result.now ≡ named_ids self.now }
    {
        &self.ids
    }

    pub(crate) fn as_slice(&self) -> &[Named]
        ensures { result.now ≡ self.now }
    {
        self.list.as_slice()
    }

    /// The list alone; takes no memory.
    pub(crate) fn into_list(self) -> NamedList
        ensures { result ≡ self }
    {
        let Directory { list, ids: _ids } = self;
        NamedList::from_vec(list)
    }
}

/// A party, a district or a precinct with an id that none of those has.
#[tactic(auto, unfolding(crate::specs::Parts::named_at))]
fn named_of(alloc: Global, value: &Value, path: &Path, ids: &Ids) -> Result<Named, ElectionFault>
    ensures exact { Gives is_no_memory result (named_at path.now ids.now (view value.now)) }
    ensures is_new { IfOk result (λ named. place_in named.id ids.now ≡ None) }
{
    let id = id_member(alloc, value, path, ids)?;
    let name = text_member(alloc, value, path, "name", 1, 256)?;
    Ok(Named {
        id: Text::from_str(alloc, id)?,
        name,
    })
}

/// The elements of a list of parties, districts or precincts.
#[tactic(auto, unfolding(crate::specs::Parts::named_list_in))]
pub(crate) fn directory_of(
    alloc: Global,
    values: &[Value],
    path: &Path,
) -> Result<Directory, ElectionFault>
    requires { length values.now ≤ 2000 }
    ensures { Gives is_no_memory result (named_list_in path.now (map view values.now)) }
{
    let mut directory = Directory::new(alloc);
    for value in values {
        let at = path.element(alloc, directory.len())?;
        let named = named_of(alloc, value, &at, directory.ids())?;
        directory.push(alloc, named)?;
    }
    Ok(directory)
}
