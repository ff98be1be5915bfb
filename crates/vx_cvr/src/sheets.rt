//! The sheets, with their exported contests and what they count as, written straight into a text.

ghost use Rattle.std.specs.Prelude.{◌≡◌, ◌++◌, ◌+◌, ◌/◌, All, IfOk, OnOk, false, map, option_map, slice_index_or};
ghost use Rattle.json.specs.Print.{escape as escaped};
ghost use Rattle.serde_json.specs.Written.{compact_text};
ghost use Rattle.vx_styles.specs.Cards.{cards_of, no_card, no_style};
ghost use Rattle.vx_cvr.specs.Json.{text as text_of};
ghost use Rattle.vx_cvr.specs.Names as names;
ghost use Rattle.vx_cvr.specs.Pieces.{sheet_piece};
ghost use Rattle.vx_cvr.specs.Report as spec;
ghost use Rattle.vx_cvr.specs.Texts.{items, later_members, origin};
ghost use Rattle.vx_cvr.specs.Votes as votes;

use crate::escape::{push_bytes, push_comma, push_digits, push_number, push_numbered, push_text};
use crate::votes::{
    allocable, indication_of, is_overvoted, name_of, overvotes, snapshot_kind, undervotes,
    voted_for, votes_of, write_ins,
};
use std::alloc::Global;
use vx_base::{Bytes, OutOfMemory};
use vx_center::{ExportSheet, Final, WriteInName};
use vx_election_model::{Contest, Election};
use vx_styles::Card;

/// Who a write-in slot is for: the words, or the named candidate's name.
fn written_name<'a>(contest: &'a Contest, name: &'a WriteInName) -> &'a str
    ensures { result.now ≡ spec.written_name contest.now name.now }
{
    match name {
        WriteInName::Words(words) => words.as_str(),
        WriteInName::Candidate(number) => {
            match contest.choices.as_slice().get(*number as usize) {
                None => "",
                Some(choice) => choice.name.as_str(),
            }
        }
    }
}

/// Adds the name of a write-in slot behind other members, where the slot has one.
fn push_write_in(
    text: &mut Bytes,
    contest: &Contest,
    name: Option<&WriteInName>,
) -> Result<(), OutOfMemory>
    ensures { OnOk result (text.new ≡ text.old
        ++ later_members (spec.write_in contest.now (option_map (λ name. name.now) name.entry))) }
{
    match name {
        None => Ok(()),
        Some(name) => {
            push_bytes(
                text,
                b",\"CVRWriteIn\":{\"@type\":\"CVR.CVRWriteIn\",\"Text\":\"",
            )?;
            push_text(text, written_name(contest, name))?;
            push_bytes(text, b"\"}")
        }
    }
}

/// Adds how a selected option counts.
fn push_position(
    text: &mut Bytes,
    contest: &Contest,
    counted: &Final,
    option: u32,
) -> Result<(), OutOfMemory>
    ensures { OnOk result (text.new
        ≡ text.old ++ compact_text (spec.position contest.now counted.now option)) }
{
    push_bytes(text, b"{\"@type\":\"CVR.SelectionPosition\"")?;
    push_write_in(text, contest, name_of(contest, counted, option))?;
    push_bytes(text, b",\"HasIndication\":\"")?;
    push_bytes(text, indication_of(counted, option).as_bytes())?;
    push_bytes(text, b"\",\"IsAllocable\":\"")?;
    push_bytes(text, allocable(contest, counted, option).as_bytes())?;
    push_bytes(text, b"\",\"NumberVotes\":")?;
    push_number(text, u64::from(votes_of(contest, counted, option)))?;
    push_bytes(text, b"}")
}

/// Adds a selected option of an exported contest.
fn push_selected(
    text: &mut Bytes,
    contest: &Contest,
    counted: &Final,
    option: u32,
) -> Result<(), OutOfMemory>
    ensures { OnOk result (text.new
        ≡ text.old ++ compact_text (spec.selected contest.now counted.now option)) }
{
    let selection = voted_for(contest, counted, option);
    push_bytes(
        text,
        b"{\"@type\":\"CVR.CVRContestSelection\",\"ContestSelectionId\":\"selection-",
    )?;
    push_numbered(text, contest.id.as_str(), u64::from(selection))?;
    push_bytes(text, b"\",\"SelectionPosition\":[")?;
    push_position(text, contest, counted, option)?;
    push_bytes(text, b"]}")
}

/// Adds the selected options of an exported contest, and the bracket that closes their list.
fn push_selections(text: &mut Bytes, contest: &Contest, counted: &Final) -> Result<(), OutOfMemory>
    ensures { OnOk result (text.new
        ≡ text.old ++ items (spec.selected contest.now counted.now) counted.now.selected) }
{
    let mut is_later = false;
    for option in counted.selected.as_slice() {
        push_comma(text, is_later)?;
        push_selected(text, contest, counted, *option)?;
        is_later = true;
    }
    push_bytes(text, b"]")
}

/// The words of a contest's status, and the bracket that closes their list.
fn status(contest: &Contest, counted: &Final) -> &'static [u8]
    ensures { result.now ≡ items text_of (votes.status_words contest.now counted.now) }
{
    let count = counted.selected.as_slice().len();
    if is_overvoted(contest, counted) {
        b"\"overvoted\"]"
    } else if count == 0 {
        b"\"not-indicated\"]"
    } else if count < contest.seats as usize {
        b"\"undervoted\"]"
    } else {
        b"]"
    }
}

/// Adds an exported contest of a sheet.
fn push_counted(text: &mut Bytes, contest: &Contest, counted: &Final) -> Result<(), OutOfMemory>
    ensures { OnOk result (text.new ≡ text.old ++ compact_text (spec.counted contest.now counted.now)) }
{
    push_bytes(
        text,
        b"{\"@type\":\"CVR.CVRContest\",\"CVRContestSelection\":[",
    )?;
    push_selections(text, contest, counted)?;
    push_bytes(text, b",\"ContestId\":\"contest-")?;
    push_text(text, contest.id.as_str())?;
    push_bytes(text, b"\",\"Overvotes\":")?;
    push_number(text, u64::from(overvotes(contest, counted)))?;
    push_bytes(text, b",\"Status\":[")?;
    push_bytes(text, status(contest, counted))?;
    push_bytes(text, b",\"Undervotes\":")?;
    push_number(text, u64::from(undervotes(contest, counted)))?;
    push_bytes(text, b",\"WriteIns\":")?;
    push_number(text, write_ins(contest, counted) as u64)?;
    push_bytes(text, b"}")
}

/// Adds an exported contest of a sheet, which the election has.
fn push_counted_in(
    text: &mut Bytes,
    election: &Election,
    counted: &Final,
) -> Result<(), OutOfMemory>
    requires { spec.IsOfElection election.now counted.now }
    ensures { OnOk result (text.new
        ≡ text.old ++ compact_text (spec.counted_in election.now counted.now)) }
{
    let contest = &election.contests.as_slice()[counted.contest as usize];
    push_counted(text, contest, counted)
}

/// Adds the exported contests of a sheet, each of which the election has, and the bracket that closes their list.
fn push_contests(text: &mut Bytes, election: &Election, finals: &[Final]) -> Result<(), OutOfMemory>
    requires { All (spec.IsOfElection election.now) finals.now }
    ensures { OnOk result (text.new ≡ text.old ++ items (spec.counted_in election.now) finals.now) }
{
    let mut is_later = false;
    for counted in finals {
        push_comma(text, is_later)?;
        push_counted_in(text, election, counted)?;
        is_later = true;
    }
    push_bytes(text, b"]")
}

/// Adds the name of a sheet as it stands in a JSON string.
fn push_name(text: &mut Bytes, row: &ExportSheet) -> Result<(), OutOfMemory>
    ensures { OnOk result (text.new ≡ text.old ++ escaped (names.sheet_name row.now.key)) }
{
    push_numbered(text, row.key.batch.as_str(), u64::from(row.key.number))
}

fn push_snapshot(
    text: &mut Bytes,
    election: &Election,
    row: &ExportSheet,
) -> Result<(), OutOfMemory>
    requires { All (spec.IsOfElection election.now) row.now.finals }
    ensures { OnOk result (text.new ≡ text.old ++ compact_text (spec.snapshot election.now row.now)) }
{
    let finals = row.finals.as_slice();
    push_bytes(text, b"{\"@id\":\"snapshot-")?;
    push_name(text, row)?;
    push_bytes(text, b"\",\"@type\":\"CVR.CVRSnapshot\",\"CVRContest\":[")?;
    push_contests(text, election, finals)?;
    push_bytes(text, b",\"Type\":\"")?;
    push_bytes(text, snapshot_kind(finals).as_bytes())?;
    push_bytes(text, b"\"}")
}

/// The id of a style, by its place.
fn style_id(election: &Election, style: u32) -> &str
    ensures { result.now ≡ (slice_index_or election.now.styles style no_style).id }
{
    match election.styles.as_slice().get(style as usize) {
        None => "",
        Some(style) => style.id.as_str(),
    }
}

/// The id of a precinct, by its place.
fn precinct_id(election: &Election, precinct: u32) -> &str
    ensures { result.now ≡ (slice_index_or election.now.precincts precinct spec.no_precinct).id }
{
    match election.precincts.as_slice().get(precinct as usize) {
        None => "",
        Some(precinct) => precinct.id.as_str(),
    }
}

/// The card with a number; one of the first style and precinct where none has it.
pub fn card_at(cards: &[Card], number: u32) -> Card
    ensures { result ≡ slice_index_or cards.now number no_card }
{
    match cards.get(number as usize) {
        None => Card {
            style: 0,
            precinct: 0,
        },
        Some(card) => *card,
    }
}

/// The number of a sheet's leaf in its ballot, from 1.
fn leaf(front: u32) -> u32
    ensures { result ≡ (front + 1) / 2 }
{
    front / 2 + front % 2
}

/// Adds the names of a sheet's leaf, of its card's style and precinct, and of its batch, behind the class of the sheet.
fn push_origin(
    text: &mut Bytes,
    election: &Election,
    card: Card,
    row: &ExportSheet,
) -> Result<(), OutOfMemory>
    ensures { OnOk result (text.new ≡ text.old ++ later_members (origin election.now card row.now)) }
{
    push_bytes(text, b",\"BallotSheetId\":\"")?;
    push_digits(text, u64::from(leaf(row.front)))?;
    push_bytes(text, b"\",\"BallotStyleId\":\"")?;
    push_text(text, style_id(election, card.style))?;
    push_bytes(text, b"\",\"BallotStyleUnitId\":\"precinct-")?;
    push_text(text, precinct_id(election, card.precinct))?;
    push_bytes(text, b"\",\"BatchId\":\"")?;
    push_text(text, row.key.batch.as_str())?;
    push_bytes(text, b"\"")
}

/// Adds a sheet; `cards` are the election's.
fn push_sheet(
    text: &mut Bytes,
    election: &Election,
    cards: &[Card],
    row: &ExportSheet,
) -> Result<(), OutOfMemory>
    requires cards { cards.now ≡ cards_of election.now }
    requires contests { All (spec.IsOfElection election.now) row.now.finals }
    ensures { OnOk result (text.new ≡ text.old ++ compact_text (spec.sheet election.now row.now)) }
{
    let card = card_at(cards, row.card);
    push_bytes(text, b"{\"@type\":\"CVR.CVR\"")?;
    push_origin(text, election, card, row)?;
    push_bytes(text, b",\"CVRSnapshot\":[")?;
    push_snapshot(text, election, row)?;
    push_bytes(text, b"],\"CurrentSnapshotId\":\"snapshot-")?;
    push_name(text, row)?;
    push_bytes(text, b"\",\"ElectionId\":\"election\",\"UniqueId\":\"")?;
    push_name(text, row)?;
    push_bytes(text, b"\"}")
}

/// A sheet's text, with a comma where another stands before it; `cards` are the election's.
pub fn row_piece(
    alloc: Global,
    election: &Election,
    cards: &[Card],
    row: &ExportSheet,
    is_later: bool,
) -> Result<Bytes, OutOfMemory>
    requires cards { cards.now ≡ cards_of election.now }
    requires contests { All (spec.IsOfElection election.now) row.now.finals }
    ensures { IfOk result (λ text. text ≡ sheet_piece election.now is_later row.now) }
{
    let mut text = Bytes::new(alloc);
    push_comma(&mut text, is_later)?;
    push_sheet(&mut text, election, cards, row)?;
    Ok(text)
}
