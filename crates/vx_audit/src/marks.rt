//! The selections of a contest that are marked, as text.

ghost use Rattle.std.specs.Prelude.{◌≡◌, ◌++◌, IfOk, OnOk, option_copied, slice_get, string_bytes};
ghost use Rattle.vx_audit.specs.Ascending.{ids_at};
ghost use Rattle.vx_audit.specs.Pairs as texts;

use crate::places::put_in_order;
use crate::sample::Places;
use std::alloc::Global;
use vx_base::OutOfMemory;
use vx_json::Text;
use vx_tally::{CvrRecord, RecordContest, VoteRow};

/// Adds a word behind a comma, or without one where it is the first.
fn push_word(text: &mut String, first: bool, word: &str) -> Result<(), OutOfMemory>
    ensures { OnOk result (string_bytes text.new ≡ string_bytes text.old ++ texts.further first word.now) }
{
    if first {
        text.push_str(word)
    } else {
        write!(text, ",{word}")
    }
}

/// The id at a place.
fn id_at(ids: &[Text], place: u32) -> Option<&Text>
    ensures { option_copied result ≡ slice_get ids.now place }
{
    ids.get(place as usize)
}

/// The ids at those places with commas between, or `-`.
fn listed_text(alloc: Global, ids: &[Text], places: &[u32]) -> Result<String, OutOfMemory>
    ensures { IfOk result (λ text. string_bytes text ≡ texts.listed (ids_at ids.now places.now)) }
{
    let mut text = String::new(alloc);
    let mut first = true;
    for place in places {
        if let Some(id) = id_at(ids, *place) {
            push_word(&mut text, first, id.as_str())?;
            first = false;
        }
    }
    if first {
        text.push_str("-")?;
    }
    Ok(text)
}

/// The selections at those places, in the contest's order with commas between, or `-`.
pub(crate) fn marked_text(
    alloc: Global,
    selections: &[Text],
    places: &[u32],
) -> Result<String, OutOfMemory>
    ensures { IfOk result (λ text. string_bytes text ≡ texts.marked_text selections.now places.now) }
{
    let mut sorted = Vec::from_slice(alloc, places)?;
    put_in_order(&mut sorted);
    let text = listed_text(alloc, selections, sorted.as_slice())?;
    Ok(text)
}

/// The places of the selections with a vote.
fn voted(alloc: Global, rows: &[VoteRow]) -> Result<Places, OutOfMemory>
    ensures { IfOk result (λ places. places ≡ texts.voted rows.now) }
{
    let mut places = Places::new(alloc);
    for row in rows {
        if row.votes > 0 {
            places.push(row.selection)?;
        }
    }
    Ok(places)
}

/// What a record says of a contest, or `none` where it hasn't it.
pub(crate) fn record_text(
    alloc: Global,
    selections: &[Text],
    counted: Option<&RecordContest>,
) -> Result<String, OutOfMemory>
    ensures { IfOk result (λ text. string_bytes text
        ≡ texts.record_text selections.now (option_copied counted.entry)) }
{
    match counted {
        None => String::from_str(alloc, "none"),
        Some(counted) => {
            let places = voted(alloc, counted.votes.as_slice())?;
            marked_text(alloc, selections, places.as_slice())
        }
    }
}

/// What a record says of the contest at a place, if it has it.
pub(crate) fn counted_for(one: &CvrRecord, place: u32) -> Option<&RecordContest>
    ensures { option_copied result ≡ texts.counted_for place one.now }
{
    for counted in one.contests.as_slice() {
        if place == counted.contest {
            return Some(counted);
        }
    }
    None
}
