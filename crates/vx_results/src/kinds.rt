//! The kinds of ballots by their numbers, and which of them a summary has.

ghost use Rattle.std.specs.Prelude.{◌≡◌, ◌==◌, ◌<◌, ◌++◌, ◌∷◌, [], IfOk, OnOk, if◌then◌else◌, length};
ghost use Rattle.std.specs.List.{list_any};
ghost use Rattle.vx_center.specs.Places.{sheet_at};
ghost use Rattle.vx_center.specs.Sheets.{Added, sheets_in};
ghost use Rattle.vx_results.specs.Kinds as spec;

use std::alloc::Global;
use vx_base::OutOfMemory;
use vx_center::Center;
use vx_grid::{Kind, kind_word};
use vx_rules::SheetMarks;

fn number_of(kind: Kind) -> u32
    ensures exact { result ≡ spec.number_of kind }
    ensures few { result < 4 }
{
    match kind {
        Kind::Precinct => 0,
        Kind::Absentee => 1,
        Kind::Provisional => 2,
        Kind::Other => 3,
    }
}

/// The number of a sheet's kind.
pub(crate) fn kind_of(sheet: &SheetMarks) -> u32
    ensures exact { result ≡ spec.kind_of sheet.now }
    ensures few { result < 8 }
{
    let behind = if sheet.test { 4 } else { 0 };
    number_of(sheet.kind) + behind
}

fn kind_at(number: u32) -> Kind
    ensures { result ≡ spec.kind_at number }
{
    if number == 0 {
        Kind::Precinct
    } else if number == 1 {
        Kind::Absentee
    } else if number == 2 {
        Kind::Provisional
    } else {
        Kind::Other
    }
}

/// The word of a kind's number.
pub(crate) fn word_at(number: u32) -> &'static str
    ensures { result.now ≡ spec.word_at number }
{
    if number < 4 {
        kind_word(kind_at(number), false)
    } else {
        kind_word(kind_at(number - 4), true)
    }
}

/// Whether the sheet at a place is of a kind.
fn is_of(center: &Center<'_>, kind: u32, place: usize) -> bool
    requires { place < length (sheets_in center.now.events) }
    ensures { result ≡ (kind == spec.kind_of (sheet_at center.now.events place).sheet) }
{
    kind == kind_of(center.sheet_at(place))
}

/// Whether a sheet of a kind was added.
#[tactic(auto, using(crate::proofs::Searching::sheet_here, crate::proofs::Searching::sheet_later))]
fn is_added(center: &Center<'_>, kind: u32) -> bool
    ensures { result ≡ list_any (λ (added : Added). kind == spec.kind_of added.sheet) (sheets_in center.now.events) }
{
    for place in 0..center.sheet_count() {
        if is_of(center, kind, place) {
            return true;
        }
    }
    false
}

fn has_lines(center: &Center<'_>, kind: u32) -> bool
    ensures { result ≡ spec.has_lines (sheets_in center.now.events) kind }
{
    kind < 3 || is_added(center, kind)
}

/// Puts a number behind others where it is wanted.
pub(crate) fn push_if(numbers: &mut Vec<u32>, wanted: bool, number: u32) -> Result<(), OutOfMemory>
    ensures { OnOk result (numbers.new.items
        ≡ numbers.old.items ++ (if wanted then number ∷ [] else [])) }
{
    if wanted {
        numbers.push(number)?;
    }
    Ok(())
}

/// The kinds that have lines.
pub(crate) fn kinds_in(alloc: Global, center: &Center<'_>) -> Result<Vec<u32>, OutOfMemory>
    ensures { IfOk result (λ kinds. kinds.items ≡ spec.kinds_in (sheets_in center.now.events)) }
{
    let mut kinds = Vec::new(alloc);
    for kind in 0..8u32 {
        push_if(&mut kinds, has_lines(center, kind), kind)?;
    }
    Ok(kinds)
}
