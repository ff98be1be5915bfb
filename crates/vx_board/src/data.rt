//! The lines of the data.

ghost use Rattle.std.specs.Prelude.{◌≡◌, ◌<◌, ◌≤◌, ◌++◌, All, IfOk, OnOk, length, map};
ghost use Rattle.std.specs.List.{flat_map};
ghost use Rattle.serde_json.specs.View.{view};
ghost use Rattle.vx_election_model.specs.Valid.{IsValid};
ghost use Rattle.vx_markup.specs.Escaped.{data_line};
ghost use Rattle.vx_words.specs.Samples.{seed_bytes};
ghost use Rattle.vx_board.specs.Ballots.{ballot_of, drawn_of};
ghost use Rattle.vx_board.specs.Data as lines;

use crate::cards::cards_value;
use crate::contests::contests_value;
use serde_json::{Value, json};
use std::alloc::Global;
use vx_audit::draw_sample;
use vx_base::{Bytes, OutOfMemory};
use vx_center::ExportSheet;
use vx_cvr::sheet_name;
use vx_election_model::Election;
use vx_markup::push_line;

/// The first line by its lists.
fn first_with(
    alloc: Global,
    election: &Election,
    seed: &str,
    size: u32,
    records: usize,
    cards: Value,
    contests: Value,
) -> Result<Value, OutOfMemory>
    ensures { IfOk result (λ value. view value
        ≡ lines.first_with election.now seed.now size records (view cards) (view contests)) }
{
    json!(in alloc; {
        "cards": cards,
        "contests": contests,
        "election": election.title.as_str(),
        "records": records as u64,
        "seed": seed,
        "size": size
    })
}

/// Adds the first line.
fn push_first(
    alloc: Global,
    text: &mut Bytes,
    election: &Election,
    seed: &str,
    size: u32,
    records: usize,
) -> Result<(), OutOfMemory>
    requires { IsValid election.now }
    ensures { OnOk result (text.new
        ≡ text.old ++ data_line (lines.first_data election.now seed.now size records)) }
{
    let cards = cards_value(alloc, election)?;
    let contests = contests_value(alloc, election.contests.as_slice())?;
    let value = first_with(alloc, election, seed, size, records, cards, contests)?;
    push_line(alloc, text, &value)
}

/// A ballot, by the row of its sheet.
fn ballot_value(alloc: Global, row: &ExportSheet) -> Result<Value, OutOfMemory>
    ensures { IfOk result (λ value. view value ≡ lines.ballot_data (ballot_of row.now)) }
{
    let name = sheet_name(alloc, &row.key)?;
    json!(in alloc; {
        "batch": row.key.batch.as_str(),
        "card": row.card,
        "name": name.as_str(),
        "number": row.key.number
    })
}

/// Adds the line of the ballot at a place.
fn push_ballot(
    alloc: Global,
    text: &mut Bytes,
    rows: &[ExportSheet],
    place: u32,
) -> Result<(), OutOfMemory>
    requires { place < length rows.now }
    ensures { OnOk result (text.new
        ≡ text.old ++ lines.ballot_line (map ballot_of rows.now) place) }
{
    let value = ballot_value(alloc, &rows[place as usize])?;
    push_line(alloc, text, &value)
}

/// Adds the lines of the ballots at places.
fn push_ballots(
    alloc: Global,
    text: &mut Bytes,
    rows: &[ExportSheet],
    places: &[u32],
) -> Result<(), OutOfMemory>
    requires { All (λ place. place < length rows.now) places.now }
    ensures { OnOk result (text.new ≡ text.old
        ++ flat_map (lines.ballot_line (map ballot_of rows.now)) places.now) }
{
    for place in places {
        push_ballot(alloc, text, rows, *place)?;
    }
    Ok(())
}

/// The last line: how many ballots there are.
fn last_value(alloc: Global, count: usize) -> Result<Value, OutOfMemory>
    ensures { IfOk result (λ value. view value ≡ lines.last_data count) }
{
    json!(in alloc; {"ballots": count as u64})
}

/// Adds the last line.
fn push_last(alloc: Global, text: &mut Bytes, count: usize) -> Result<(), OutOfMemory>
    ensures { OnOk result (text.new ≡ text.old ++ data_line (lines.last_data count)) }
{
    let value = last_value(alloc, count)?;
    push_line(alloc, text, &value)
}

/// Adds the lines of the ballots that a seed draws of rows, in the rows' order, and how many they are.
#[tactic(auto, unfolding(crate::specs::Data::drawn_text))]
fn push_drawn(
    alloc: Global,
    text: &mut Bytes,
    rows: &[ExportSheet],
    seed: [u8; 32],
    size: u32,
) -> Result<(), OutOfMemory>
    requires { length rows.now ≤ 1000000 }
    ensures { OnOk result (text.new ≡ text.old ++ lines.drawn_text (map ballot_of rows.now)
        (drawn_of seed size (map ballot_of rows.now))) }
{
    let places = draw_sample(alloc, seed, size, rows.len())?;
    push_ballots(alloc, text, rows, places.as_slice())?;
    push_last(alloc, text, places.len())
}

/// Adds all lines. The seed is given as its word and as its bytes.
pub(crate) fn push_data(
    alloc: Global,
    text: &mut Bytes,
    election: &Election,
    rows: &[ExportSheet],
    word: &str,
    seed: [u8; 32],
    size: u32,
) -> Result<(), OutOfMemory>
    requires valid { IsValid election.now }
    requires few { length rows.now ≤ 1000000 }
    requires seed { seed ≡ seed_bytes word.now }
    ensures { OnOk result (text.new
        ≡ text.old ++ lines.data_text election.now (map ballot_of rows.now) word.now size) }
{
    push_first(alloc, text, election, word, size, rows.len())?;
    push_drawn(alloc, text, rows, seed, size)
}
