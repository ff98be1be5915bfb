ghost use Rattle.std.specs.Prelude.{◌≡◌, ◌++◌, ◌<◌, All, IfOk, OnOk, false, length, map};
ghost use Rattle.vx_election_model.specs.Valid.{IsValid};
ghost use Rattle.vx_center.specs.Exports.{row_at};
ghost use Rattle.vx_center.specs.Sheets.{sheets_in};
ghost use Rattle.vx_cvr.specs.Pieces.{joined, sheet_pieces};
ghost use Rattle.vx_cvr.specs.Report as spec;
ghost use Rattle.vx_cvr.specs.Rows.{rows_of};

use crate::laws::pieces_are_the_report;
use crate::pieces::{front_piece, last_piece, report_places, sheet_piece};
use std::alloc::Global;
use vx_base::{Bytes, OutOfMemory};
use vx_center::{Center, ExportSheets, sheets_have_own_keys};
use vx_election_model::Election;
use vx_styles::cards;

/// Writes the sheets at places in the order of adding.
fn push_sheets(
    alloc: Global,
    text: &mut Bytes,
    election: &Election,
    center: &Center<'_>,
    places: &[usize],
) -> Result<(), OutOfMemory>
    requires valid { IsValid election.now }
    requires election { center.now.election ≡ election.now }
    requires there { All (λ place. place < length (sheets_in center.now.events)) places.now }
    ensures { OnOk result (text.new ≡ text.old
        ++ joined (sheet_pieces election.now false (map (row_at election.now center.now.events) places.now))) }
{
    let cards = cards(alloc, election)?;
    let cards = cards.as_slice();
    let mut is_later = false;
    for place in places {
        let piece = sheet_piece(alloc, election, cards, center, *place, is_later)?;
        text.extend_from_slice(piece.as_slice())?;
        is_later = true;
    }
    Ok(())
}

/// Writes all sheets that the center has kept, in the order of their keys.
fn push_kept(
    alloc: Global,
    text: &mut Bytes,
    election: &Election,
    center: &Center<'_>,
) -> Result<(), OutOfMemory>
    requires valid { IsValid election.now }
    requires election { center.now.election ≡ election.now }
    ensures { OnOk result (text.new ≡ text.old
        ++ joined (sheet_pieces election.now false (rows_of election.now center.now.events))) }
{
    let places = report_places(alloc, election, center)?;
    push_sheets(alloc, text, election, center, places.as_slice())?;
    Ok(())
}

/// The rows of a report: what is exported of each sheet that the center has kept, in the order of their keys.
pub fn report_rows(
    alloc: Global,
    election: &Election,
    center: &Center<'_>,
) -> Result<ExportSheets, OutOfMemory>
    requires { center.now.election ≡ election.now }
    ensures exact { IfOk result (λ rows. rows ≡ rows_of election.now center.now.events) }
    ensures contests { IfOk result (All (spec.HasItsContests election.now)) }
{
    // What the kept events are: no key stands in them twice, so that their rows have one order.
    let _kept = center.events();
    sheets_have_own_keys();
    let rows = center.export_rows(alloc)?;
    Ok(rows)
}

/// The report of a count as one line of text: the sheets that the center has kept, with their exported
/// contests, at a moment (`YYYY-MM-DDTHH:MM:SSZ`), from a device (its UUID in lower case with hyphens).
pub fn report(
    alloc: Global,
    election: &Election,
    center: &Center<'_>,
    moment: &str,
    device: &str,
) -> Result<Bytes, OutOfMemory>
    requires valid { IsValid election.now }
    requires election { center.now.election ≡ election.now }
    ensures { IfOk result (λ text. text
        ≡ spec.report_of election.now center.now.events moment.now device.now) }
{
    pieces_are_the_report();
    let mut text = Bytes::from_slice(alloc, front_piece())?;
    push_kept(alloc, &mut text, election, center)?;
    let last = last_piece(alloc, election, moment, device)?;
    text.extend_from_slice(last.as_slice())?;
    Ok(text)
}
