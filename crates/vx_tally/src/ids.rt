//! Ids and references to them, found by maps.

ghost use Rattle.std.specs.Prelude.{◌≡◌, ◌<◌, ◌≤◌, ◌++◌, ◌∷◌, [], length, None, false, IfOk, IfSome, is_ok, if◌then◌else◌};
ghost use Rattle.serde_json.specs.View.{view};
ghost use Rattle.std.specs.List.{list_all};
ghost use Rattle.vx_base.specs.Refusals.{Gives, GivesAs};
ghost use Rattle.vx_tally.specs.Faults.{is_no_memory};
ghost use Rattle.vx_tally.specs.Ids.{is_id_character, is_id, place_in, is_among, id_in, new_id_in, reference_in, new_reference_in};

use crate::fault::ReportFault;
use indexmap::IndexSet;
use serde_json::Value;
use std::alloc::Global;
use std::marker::Model;
use vx_base::OutOfMemory;
use vx_json::{Path, Text, Texts, string_of};

/// Ids in order, each once.
#[derive(Drop)]
pub(crate) struct Ids {
    set: IndexSet<String>,
}

impl Model for Ids {
    ghost use Rattle.std.specs.Prelude.{List, ℕ, map, string_bytes};

    ghost Value = { List (List ℕ) };

    ghost view = { λ self. map string_bytes self.set.keys };
}

impl Ids {
    /// No ids; takes no memory.
    pub(crate) fn new(alloc: Global) -> Self
        ensures { result ≡ [] }
    {
        Ids {
            set: IndexSet::new(alloc),
        }
    }

    pub(crate) fn len(&self) -> usize
        ensures { result ≡ length self.now }
    {
        self.set.len()
    }

    /// The place of an id.
    pub(crate) fn find(&self, id: &str) -> Option<usize>
        ensures place { result ≡ place_in id.now self.now }
        ensures within { IfSome result (λ place. place < length self.now) }
    {
        self.set.get_index_of(id)
    }

    /// Adds an id that isn't there yet at the end.
    pub(crate) fn push(&mut self, alloc: Global, id: &str) -> Result<(), OutOfMemory>
        requires is_new { place_in id.now self.old ≡ None }
        ensures { self.new ≡ (if is_ok result then self.old ++ id.now ∷ [] else self.old) }
    {
        self.set.insert(String::from_str(alloc, id)?)?;
        Ok(())
    }

    /// A list of the same ids.
    pub(crate) fn to_texts(&self, alloc: Global) -> Result<Texts, OutOfMemory>
        ensures { IfOk result (λ texts. texts ≡ self.now) }
    {
        let mut texts = Texts::new(alloc);
        for id in self.set.as_slice() {
            texts.push(Text::from_str(alloc, id.as_str())?)?;
        }
        Ok(texts)
    }
}

/// Places of a list, each once.
#[derive(Drop)]
pub(crate) struct Places {
    set: IndexSet<u32>,
}

impl Model for Places {
    ghost use Rattle.std.specs.Prelude.{List, ℕ};

    ghost Value = { List ℕ };

    ghost view = { λ self. self.set.keys };
}

impl Places {
    /// No places; takes no memory.
    pub(crate) fn new(alloc: Global) -> Self
        ensures { result ≡ [] }
    {
        Places {
            set: IndexSet::new(alloc),
        }
    }

    pub(crate) fn has(&self, place: u32) -> bool
        ensures { result ≡ is_among place self.now }
    {
        self.set.contains(&place)
    }

    /// Adds a place that isn't there yet at the end.
    pub(crate) fn push(&mut self, place: u32) -> Result<(), OutOfMemory>
        requires { is_among place self.old ≡ false }
        ensures { self.new ≡ (if is_ok result then self.old ++ place ∷ [] else self.old) }
    {
        self.set.insert(place)?;
        Ok(())
    }
}

fn is_id_character(byte: u8) -> bool
    ensures { result ≡ is_id_character byte }
{
    33 <= byte && byte <= 126 && byte != b','
}

fn are_id_characters(bytes: &[u8]) -> bool
    ensures { result ≡ list_all is_id_character bytes.now }
{
    bytes.iter().all(|byte| is_id_character(*byte))
}

#[tactic(auto, unfolding(crate::specs::Ids::is_id))]
fn is_id(text: &str) -> bool
    ensures { result ≡ is_id text.now }
{
    let bytes = text.as_bytes();
    1 <= bytes.len() && bytes.len() <= 256 && are_id_characters(bytes)
}

/// An id, lent.
#[tactic(auto, unfolding(crate::specs::Ids::id_in))]
fn id_of<'v>(alloc: Global, value: &'v Value, path: &Path) -> Result<&'v str, ReportFault>
    ensures { GivesAs (λ id. id.now) is_no_memory result (id_in (view value.now) path.now) }
{
    let text = string_of(alloc, value, path)?;
    if !is_id(text) {
        return Err(ReportFault::OutOfRange(path.copy(alloc)?));
    }
    Ok(text)
}

/// An id, lent, that none of those is.
#[tactic(auto, unfolding(crate::specs::Ids::new_id_in))]
pub(crate) fn new_id_of<'v>(
    alloc: Global,
    value: &'v Value,
    path: &Path,
    ids: &Ids,
) -> Result<&'v str, ReportFault>
    ensures exact { GivesAs (λ id. id.now) is_no_memory result
        (new_id_in (view value.now) path.now ids.now) }
    ensures is_new { IfOk result (λ id. place_in id.now ids.now ≡ None) }
{
    let id = id_of(alloc, value, path)?;
    match ids.find(id) {
        None => Ok(id),
        Some(_) => Err(ReportFault::repeated(alloc, path, id)?),
    }
}

/// The place of the id that is referred to.
#[tactic(auto, unfolding(crate::specs::Ids::reference_in))]
pub(crate) fn reference_of(
    alloc: Global,
    value: &Value,
    path: &Path,
    ids: &Ids,
) -> Result<u32, ReportFault>
    requires { length ids.now ≤ 1000000 }
    ensures { Gives is_no_memory result (reference_in (view value.now) path.now ids.now) }
{
    let id = id_of(alloc, value, path)?;
    match ids.find(id) {
        Some(place) => Ok(place as u32),
        None => Err(ReportFault::unknown(alloc, path, id)?),
    }
}

/// The place of the id that is referred to, which is none of those before it.
#[tactic(auto, unfolding(crate::specs::Ids::new_reference_in))]
pub(crate) fn new_reference_of(
    alloc: Global,
    value: &Value,
    path: &Path,
    ids: &Ids,
    found: &Places,
) -> Result<u32, ReportFault>
    requires { length ids.now ≤ 1000000 }
    ensures exact { Gives is_no_memory result
        (new_reference_in (view value.now) path.now ids.now found.now) }
    ensures is_new { IfOk result (λ place. is_among place found.now ≡ false) }
    ensures within { IfOk result (λ place. place < length ids.now) }
{
    let id = id_of(alloc, value, path)?;
    let Some(place) = ids.find(id) else {
        return Err(ReportFault::unknown(alloc, path, id)?);
    };
    let place = place as u32;
    if found.has(place) {
        return Err(ReportFault::repeated(alloc, path, id)?);
    }
    Ok(place)
}
