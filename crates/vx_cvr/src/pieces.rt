//! A report in the pieces in which it is written, for those who hold no more than one sheet's at a time.

ghost use Rattle.std.specs.Prelude.{◌≡◌, ◌++◌, ◌<◌, ◌∷◌, ℕ, List, IfOk, OnOk, false, length, true};
ghost use Rattle.serde_json.specs.Data.{Data, Members, member, object};
ghost use Rattle.serde_json.specs.View.{view};
ghost use Rattle.serde_json.specs.Written.{has_float, members_text};
ghost use Rattle.vx_election_model.specs.Valid.{IsValid};
ghost use Rattle.vx_center.specs.Exports.{row_at};
ghost use Rattle.vx_center.specs.Sheets.{sheets_in};
ghost use Rattle.vx_styles.specs.Cards.{cards_of};
ghost use Rattle.vx_cvr.specs.Json.{described};
ghost use Rattle.vx_cvr.specs.Pieces as spec;
ghost use Rattle.vx_cvr.specs.Pieces.{AreReportPlaces};
ghost use Rattle.vx_cvr.specs.Report.{behind_sheets as behind_sheets_of};

use crate::contests::election as election_object;
use crate::members::{put_list, texts};
use crate::names::device_name;
use crate::places::{device as device_object, places};
use crate::sheets::row_piece;
use serde_json::{Value, put};
use std::alloc::Global;
use vx_base::{Bytes, OutOfMemory};
use vx_center::{Center, sheets_have_own_keys};
use vx_election_model::Election;
use vx_styles::Card;

/// What stands before the sheets of a report.
#[tactic(auto, unfolding(crate::specs::Pieces::front_piece))]
pub fn front_piece() -> &'static [u8]
    ensures { result.now ≡ spec.front_piece }
{
    b"{\"@type\":\"CVR.CastVoteRecordReport\",\"CVR\":["
}

/// The places of the sheets that the center has kept, in the order of adding, one for each sheet of the report and
/// in the report's order.
pub fn report_places(
    alloc: Global,
    election: &Election,
    center: &Center<'_>,
) -> Result<Vec<usize>, OutOfMemory>
    requires { center.now.election ≡ election.now }
    ensures { IfOk result (λ places. AreReportPlaces election.now center.now.events places.items) }
{
    // What the kept events are: no key stands in them twice, so that their rows have one order.
    let _kept = center.events();
    sheets_have_own_keys();
    let places = center.export_places(alloc)?;
    Ok(places)
}

/// The sheet at a place in the order of adding, with a comma where another stands before it; `cards` are the
/// election's.
pub fn sheet_piece(
    alloc: Global,
    election: &Election,
    cards: &[Card],
    center: &Center<'_>,
    place: usize,
    is_later: bool,
) -> Result<Bytes, OutOfMemory>
    requires election { center.now.election ≡ election.now }
    requires cards { cards.now ≡ cards_of election.now }
    requires there { place < length (sheets_in center.now.events) }
    ensures { IfOk result (λ text. text
        ≡ spec.sheet_piece election.now is_later (row_at election.now center.now.events place)) }
{
    let row = center.row_at(alloc, place)?;
    let piece = row_piece(alloc, election, cards, &row, is_later)?;
    Ok(piece)
}

/// The members of a report behind its sheets, as a value.
fn behind_sheets(
    alloc: Global,
    election: &Election,
    moment: &str,
    device: &str,
) -> Result<Value, OutOfMemory>
    requires { IsValid election.now }
    ensures { IfOk result (λ value. view value
        ≡ described (behind_sheets_of election.now moment.now device.now)) }
{
    let mut members = texts(alloc, &[("GeneratedDate", moment), ("Version", "1.0.0")])?;
    let given = election_object(alloc, election)?;
    put_list(&mut members, alloc, "Election", given)?;
    let places = places(alloc, election)?;
    put(&mut members, alloc, "GpUnit", places)?;
    let name = device_name(alloc, device)?;
    put_list(
        &mut members,
        alloc,
        "ReportGeneratingDeviceIds",
        Value::String(name),
    )?;
    let reporting = device_object(alloc, device)?;
    put_list(&mut members, alloc, "ReportingDevice", reporting)?;
    Ok(Value::Object(members))
}

/// Writes the members of an object behind others, and its closing brace.
fn push_members(alloc: Global, text: &mut Bytes, value: &Value) -> Result<(), OutOfMemory>
    requires { has_float (view value.now) ≡ false }
    ensures { OnOk result ((key : List ℕ) (of : Data) (others : Members) →
        view value.now ≡ object (member key of others) →
        text.new ≡ text.old ++ members_text true (member key of others)) }
{
    let whole = value.to_vec(alloc)?;
    text.push(b',')?;
    match whole.as_slice().split_first() {
        Some((_brace, members)) => text.extend_from_slice(members),
        None => Ok(()),
    }
}

/// What stands behind the sheets of a report, at a moment (`YYYY-MM-DDTHH:MM:SSZ`), from a device (its UUID in
/// lower case with hyphens): their closing bracket, the other members, and the end of the line.
pub fn last_piece(
    alloc: Global,
    election: &Election,
    moment: &str,
    device: &str,
) -> Result<Bytes, OutOfMemory>
    requires { IsValid election.now }
    ensures { IfOk result (λ text. text ≡ spec.last_piece election.now moment.now device.now) }
{
    let behind = behind_sheets(alloc, election, moment, device)?;
    let mut text = Bytes::from_slice(alloc, b"]")?;
    push_members(alloc, &mut text, &behind)?;
    text.push(b'\n')?;
    Ok(text)
}
