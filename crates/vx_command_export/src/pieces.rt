//! The report, written piece by piece: of the sheets no more than one row and its text are in memory.

ghost use Rattle.std.specs.Prelude.{◌≡◌, ◌<◌, All, Bool, IfErr, IfOk, Ok, false, length, map};
ghost use Rattle.vx_base.specs.Refusals.{Gives};
ghost use Rattle.vx_election_model.specs.Valid.{IsValid};
ghost use Rattle.vx_center.specs.Exports.{row_at};
ghost use Rattle.vx_center.specs.Sheets.{sheets_in};
ghost use Rattle.vx_styles.specs.Cards.{cards_of as cards_of_election};
ghost use Rattle.vx_command.specs.Acts.{writing};
ghost use Rattle.vx_command.specs.Devices.{TouchesNothing, TouchesSink, writes_nothing};
ghost use Rattle.vx_command.specs.Done.{IsWritten};
ghost use Rattle.vx_command.specs.Steps.{is_no_memory};
ghost use Rattle.vx_cvr.specs.Pieces as spec;
ghost use Rattle.vx_cvr.specs.Pieces.{AreReportPlaces, report_pieces, sheet_pieces};
ghost use Rattle.vx_command_export.specs.Outcome.{writing_each};

use std::alloc::Global;
use vx_base::Bytes;
use vx_center::Center;
use vx_command::{Halt, acts_in_order, write_text};
use vx_cvr::{front_piece, last_piece, report_places, sheet_piece};
use vx_election_model::Election;
use vx_io::Sink;
use vx_styles::{Card, CardList, cards};

/// The election's cards.
fn cards_of(alloc: Global, election: &Election) -> Result<CardList, Halt>
    requires { IsValid election.now }
    ensures exact { Gives is_no_memory result (Ok (cards_of_election election.now)) }
    ensures devices { TouchesNothing result }
{
    Ok(cards(alloc, election)?)
}

/// The places of the report's sheets, in its order.
fn places_of(alloc: Global, election: &Election, center: &Center<'_>) -> Result<Vec<usize>, Halt>
    requires { center.now.election ≡ election.now }
    ensures exact { IfOk result (λ places. AreReportPlaces election.now center.now.events places.items) }
    ensures fails { IfErr result (λ cause. cause ≡ Halt.NoMemory) }
{
    Ok(report_places(alloc, election, center)?)
}

/// The piece of a sheet.
fn piece_of(
    alloc: Global,
    election: &Election,
    cards: &[Card],
    center: &Center<'_>,
    place: usize,
    is_later: bool,
) -> Result<Bytes, Halt>
    requires election { center.now.election ≡ election.now }
    requires cards { cards.now ≡ cards_of_election election.now }
    requires there { place < length (sheets_in center.now.events) }
    ensures exact { Gives is_no_memory result
        (Ok (spec.sheet_piece election.now is_later (row_at election.now center.now.events place))) }
    ensures devices { TouchesNothing result }
{
    Ok(sheet_piece(alloc, election, cards, center, place, is_later)?)
}

/// What stands behind the sheets.
fn rest_of(alloc: Global, election: &Election, moment: &str, device: &str) -> Result<Bytes, Halt>
    requires { IsValid election.now }
    ensures exact { Gives is_no_memory result (Ok (spec.last_piece election.now moment.now device.now)) }
    ensures devices { TouchesNothing result }
{
    Ok(last_piece(alloc, election, moment, device)?)
}

/// Writes the piece of a sheet.
fn write_sheet<S: Sink>(
    alloc: Global,
    election: &Election,
    cards: &[Card],
    center: &Center<'_>,
    place: usize,
    is_later: bool,
    out: &mut S,
) -> Result<(), Halt>
    requires election { center.now.election ≡ election.now }
    requires cards { cards.now ≡ cards_of_election election.now }
    requires there { place < length (sheets_in center.now.events) }
    ensures done { IsWritten
        (writing (spec.sheet_piece election.now is_later (row_at election.now center.now.events place)))
        (S.taken out.old) (S.taken out.new) result }
    ensures sink { TouchesSink S.Sink out.old out.new result }
    ensures late { (first : Bool) → writes_nothing first result ≡ false }
{
    acts_in_order();
    let piece = piece_of(alloc, election, cards, center, place, is_later)?;
    write_text(out, piece.as_slice())
}

/// Writes the pieces of sheets in order.
fn write_sheets<S: Sink>(
    alloc: Global,
    election: &Election,
    cards: &[Card],
    center: &Center<'_>,
    places: &[usize],
    out: &mut S,
) -> Result<(), Halt>
    requires election { center.now.election ≡ election.now }
    requires cards { cards.now ≡ cards_of_election election.now }
    requires there { All (λ place. place < length (sheets_in center.now.events)) places.now }
    ensures done { IsWritten (writing_each
        (sheet_pieces election.now false (map (row_at election.now center.now.events) places.now)))
        (S.taken out.old) (S.taken out.new) result }
    ensures sink { TouchesSink S.Sink out.old out.new result }
    ensures late { (first : Bool) → writes_nothing first result ≡ false }
{
    acts_in_order();
    let mut is_later = false;
    for place in places {
        write_sheet(alloc, election, cards, center, *place, is_later, out)?;
        is_later = true;
    }
    Ok(())
}

/// Writes what stands behind the sheets.
fn write_rest<S: Sink>(
    alloc: Global,
    election: &Election,
    moment: &str,
    device: &str,
    out: &mut S,
) -> Result<(), Halt>
    requires { IsValid election.now }
    ensures done { IsWritten (writing (spec.last_piece election.now moment.now device.now))
        (S.taken out.old) (S.taken out.new) result }
    ensures sink { TouchesSink S.Sink out.old out.new result }
    ensures late { (first : Bool) → writes_nothing first result ≡ false }
{
    acts_in_order();
    let rest = rest_of(alloc, election, moment, device)?;
    write_text(out, rest.as_slice())
}

/// Writes the report, whose sheets have these places.
fn write_pieces<S: Sink>(
    alloc: Global,
    election: &Election,
    cards: &[Card],
    center: &Center<'_>,
    places: &[usize],
    moment: &str,
    device: &str,
    out: &mut S,
) -> Result<(), Halt>
    requires valid { IsValid election.now }
    requires election { center.now.election ≡ election.now }
    requires cards { cards.now ≡ cards_of_election election.now }
    requires places { AreReportPlaces election.now center.now.events places.now }
    ensures done { IsWritten (writing_each (report_pieces election.now center.now.events moment.now device.now))
        (S.taken out.old) (S.taken out.new) result }
    ensures sink { TouchesSink S.Sink out.old out.new result }
    ensures late { (first : Bool) → writes_nothing first result ≡ false }
{
    acts_in_order();
    write_text(out, front_piece())?;
    write_sheets(alloc, election, cards, center, places, out)?;
    write_rest(alloc, election, moment, device, out)
}

/// Writes the report of a journal's events.
pub(crate) fn write_report<S: Sink>(
    alloc: Global,
    election: &Election,
    center: &Center<'_>,
    moment: &str,
    device: &str,
    out: &mut S,
) -> Result<(), Halt>
    requires valid { IsValid election.now }
    requires election { center.now.election ≡ election.now }
    ensures done { IsWritten (writing_each (report_pieces election.now center.now.events moment.now device.now))
        (S.taken out.old) (S.taken out.new) result }
    ensures sink { TouchesSink S.Sink out.old out.new result }
    ensures late { (first : Bool) → writes_nothing first result ≡ false }
{
    acts_in_order();
    let cards = cards_of(alloc, election)?;
    let places = places_of(alloc, election, center)?;
    write_pieces(
        alloc,
        election,
        cards.as_slice(),
        center,
        places.as_slice(),
        moment,
        device,
        out,
    )
}
