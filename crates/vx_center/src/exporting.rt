ghost use Rattle.std.specs.Prelude.{◌≡◌, ◌<◌, ◌^◌, ◌++◌, IfOk, OnOk, length, map, true};
ghost use Rattle.std.specs.List.{list_all, range_with_len};
ghost use Rattle.std.specs.Option.{option_copied};
ghost use Rattle.vx_election_model.specs.Valid.{IsValid};
ghost use Rattle.vx_events.specs.Fits.{is_read};
ghost use Rattle.vx_center.specs.Decisions.{decisions_on};
ghost use Rattle.vx_center.specs.Exports as spec;
ghost use Rattle.vx_center.specs.Exports.{AreExportPlaces, AreExportRows, keyed_at};
ghost use Rattle.vx_center.specs.Sheets.{sheets_in};
ghost use Rattle.vx_center.specs.Finals.{is_overvoted, marked_options, names_of, selected_by};

use crate::center::Center;
use crate::counting::{is_decided, is_marked, name_on, ruling_on, slots};
use crate::decided::Decided;
use crate::rows::{ExportSheet, ExportSheets, Final, Finals, SlotNames};
use crate::waiting::is_exported;
use std::alloc::Global;
use std::cmp::Ordering;
use vx_base::OutOfMemory;
use vx_election_model::{Contest, Election};
use vx_events::{Decision, Key, Options, WriteInName};
use vx_grid::{State, States};
use vx_rules::{ContestMarks, SheetMarks, is_blank};

/// The options that were read as marked.
fn marked(alloc: Global, states: &[State]) -> Result<Options, OutOfMemory>
    requires { length states.now < 2 ^ 32 }
    ensures { IfOk result (λ options. options ≡ marked_options states.now) }
{
    let mut options = Vec::new(alloc);
    let mut number = 0u32;
    for state in states {
        if is_marked(*state) {
            options.push(number)?;
        }
        number += 1;
    }
    Ok(Options::from_ascending(options))
}

/// The options that count as selected.
fn selected(
    alloc: Global,
    states: &[State],
    ruling: Option<&Decision>,
) -> Result<Options, OutOfMemory>
    requires { length states.now < 2 ^ 32 }
    ensures { IfOk result (λ options. options ≡ selected_by states.now (option_copied ruling.entry)) }
{
    match ruling {
        Some(Decision::Selections(options)) => options.copy(alloc),
        _ => marked(alloc, states),
    }
}

fn is_overvoted(ruling: Option<&Decision>) -> bool
    ensures { result ≡ is_overvoted (option_copied ruling.entry) }
{
    matches!(ruling, Some(Decision::RuledOvervote))
}

fn copy_name(alloc: Global, name: Option<&WriteInName>) -> Result<Option<WriteInName>, OutOfMemory>
    ensures { IfOk result (λ copy. copy ≡ option_copied name.entry) }
{
    match name {
        None => Ok(None),
        Some(name) => Ok(Some(name.copy(alloc)?)),
    }
}

/// The name of each slot of a contest that has this number.
fn names(
    alloc: Global,
    contest: &Contest,
    number: u32,
    decided: &[Decided],
) -> Result<SlotNames, OutOfMemory>
    ensures { IfOk result (λ names. names ≡ names_of contest.now (decisions_on number decided.now)) }
{
    let mut names = Vec::new(alloc);
    for slot in 0..slots(contest) {
        names.push(copy_name(alloc, name_on(number, slot, decided))?)?;
    }
    Ok(SlotNames::from_vec(names))
}

/// What a contest counts as.
fn final_of(
    alloc: Global,
    contest: &Contest,
    marks: &ContestMarks,
    decided: &[Decided],
) -> Result<Final, OutOfMemory>
    requires { length marks.now.states < 2 ^ 32 }
    ensures { IfOk result (λ made. made
        ≡ spec.final_of contest.now marks.now (decisions_on marks.now.contest decided.now)) }
{
    let states = marks.states.as_slice();
    let ruling = ruling_on(marks.contest, decided);
    Ok(Final {
        contest: marks.contest,
        selected: selected(alloc, states, ruling)?,
        ruled: is_overvoted(ruling),
        names: names(alloc, contest, marks.contest, decided)?,
        read: States::from_vec(Vec::from_slice(alloc, states)?),
        decided: is_decided(marks.contest, decided),
    })
}

/// Adds what a contest counts as, if it is exported.
fn add_final(
    alloc: Global,
    finals: &mut Vec<Final>,
    election: &Election,
    sheet_blank: bool,
    decided: &[Decided],
    marks: &ContestMarks,
) -> Result<(), OutOfMemory>
    requires valid { IsValid election.now }
    requires read { is_read election.now marks.now ≡ true }
    ensures { OnOk result (finals.new.items
        ≡ finals.old.items ++ spec.final_if_exported election.now sheet_blank decided.now marks.now) }
{
    if !is_exported(election, sheet_blank, decided, marks) {
        return Ok(());
    }
    if let Some(contest) = election.contests.as_slice().get(marks.contest as usize) {
        finals.push(final_of(alloc, contest, marks, decided)?)?;
    }
    Ok(())
}

/// What the exported contests of a sheet count as.
fn finals(
    alloc: Global,
    election: &Election,
    sheet: &SheetMarks,
    decided: &[Decided],
) -> Result<Finals, OutOfMemory>
    requires valid { IsValid election.now }
    requires read { list_all (is_read election.now) sheet.now.contests ≡ true }
    ensures { IfOk result (λ finals. finals ≡ spec.finals_by election.now sheet.now decided.now) }
{
    let sheet_blank = is_blank(sheet);
    let mut finals = Vec::with_capacity(alloc, sheet.contests.len())?;
    for marks in sheet.contests.as_slice() {
        add_final(alloc, &mut finals, election, sheet_blank, decided, marks)?;
    }
    Ok(Finals::from_vec(finals))
}

/// What is exported of a sheet.
fn row(
    alloc: Global,
    election: &Election,
    key: &Key,
    sheet: &SheetMarks,
    decided: &[Decided],
) -> Result<ExportSheet, OutOfMemory>
    requires valid { IsValid election.now }
    requires read { list_all (is_read election.now) sheet.now.contests ≡ true }
    ensures { IfOk result (λ row. row ≡ spec.row_by election.now key.now sheet.now decided.now) }
{
    Ok(ExportSheet {
        key: key.copy(alloc)?,
        card: sheet.card,
        front: sheet.front,
        finals: finals(alloc, election, sheet, decided)?,
    })
}

/// The order of keys: the batch's bytes, then the number.
fn key_order(one: &Key, other: &Key) -> Ordering
    ensures { result ≡ spec.key_order one.now other.now }
{
    let (batch, other_batch) = (
        one.batch.as_str().as_bytes(),
        other.batch.as_str().as_bytes(),
    );
    batch.cmp(&other_batch).then(one.number.cmp(&other.number))
}

/// A place in the order of adding, with the key of the sheet there.
#[derive(Clone, Copy)]
struct KeyedPlace<'a> {
    place: usize,
    key: &'a Key,
}

/// The places alone, in their order.
fn places_of(alloc: Global, keyed: &[KeyedPlace<'_>]) -> Result<Vec<usize>, OutOfMemory>
    ensures { IfOk result (λ places. places.items ≡ map (λ one. one.place) keyed.now) }
{
    let mut places = Vec::with_capacity(alloc, keyed.len())?;
    for one in keyed {
        places.push(one.place)?;
    }
    Ok(places)
}

impl<'e> Center<'e> {
    /// What is exported of the sheet at a place in the order of adding.
    #[tactic(auto, using(crate::proofs::Rowed::row_found))]
    pub fn row_at(&self, alloc: Global, place: usize) -> Result<ExportSheet, OutOfMemory>
        requires { place < length (sheets_in self.now.events) }
        ensures { IfOk result (λ made. made ≡ spec.row_at self.now.election self.now.events place) }
    {
        let found = self.found(place).unwrap();
        let decided = found.entry.decided();
        row(alloc, self.election(), found.key, found.sheet, decided)
    }

    /// A place with the key of the sheet there.
    fn keyed_place(&self, place: usize) -> KeyedPlace<'_>
        requires { place < length (sheets_in self.now.events) }
        ensures { (result.place, result.key.now) ≡ keyed_at self.now.events place }
    {
        let key = self.key_at(place);
        KeyedPlace { place, key }
    }

    /// The places of the sheets with their keys, in the order of adding.
    fn keyed_places(&self, alloc: Global) -> Result<Vec<KeyedPlace<'_>>, OutOfMemory>
        ensures { IfOk result (λ keyed. map (λ one. (one.place, one.key.now)) keyed.items
            ≡ map (keyed_at self.now.events) (range_with_len 0 (length (sheets_in self.now.events)))) }
    {
        let count = self.sheet_count();
        let mut keyed = Vec::with_capacity(alloc, count)?;
        for place in 0..count {
            keyed.push(self.keyed_place(place))?;
        }
        Ok(keyed)
    }

    /// The places of the sheets, in the order of the batches' bytes and then of the numbers: so an export
    /// goes through them one at a time.
    pub fn export_places(&self, alloc: Global) -> Result<Vec<usize>, OutOfMemory>
        ensures { IfOk result (λ places. AreExportPlaces self.now.election self.now.events places.items) }
    {
        let mut keyed = self.keyed_places(alloc)?;
        keyed.sort_by(
            |one: &KeyedPlace<'_>, other: &KeyedPlace<'_>| -> Ordering
                ensures { result ≡ spec.key_order one.now.key.now other.now.key.now }
            { key_order(one.key, other.key) },
        )?;
        let places = places_of(alloc, keyed.as_slice())?;
        Ok(places)
    }

    /// What is exported: a row for each sheet with its exported contests, in the order of the batches'
    /// bytes and then of the numbers.
    pub fn export_rows(&self, alloc: Global) -> Result<ExportSheets, OutOfMemory>
        ensures { IfOk result (λ rows. AreExportRows self.now.election self.now.events rows) }
    {
        let places = self.export_places(alloc)?;
        let mut rows = Vec::with_capacity(alloc, places.len())?;
        for place in places.as_slice() {
            rows.push(self.row_at(alloc, *place)?)?;
        }
        Ok(ExportSheets::from_vec(rows))
    }
}
