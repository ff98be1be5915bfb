//! What the report of a count says of its sheets: their records, one at a time.

ghost use Rattle.std.specs.Prelude.{◌≡◌, ◌+◌, ◌<◌, ◌≤◌, All, IfOk, OnOk, Some, length, map, slice_get, slice_index_or, take};
ghost use Rattle.vx_election_model.specs.Valid.{IsValid};
ghost use Rattle.vx_center.specs.Places.{sheet_at};
ghost use Rattle.vx_center.specs.Sheets.{sheets_in};
ghost use Rattle.vx_cvr.specs.Pieces.{AreReportPlaces};
ghost use Rattle.vx_cvr.specs.Rows.{rows_of};
ghost use Rattle.vx_tally.specs.Members.{list_limit};
ghost use Rattle.vx_tally.specs.Running.{SumsUp};
ghost use Rattle.vx_tally.specs.Totals.{IsCountable};
ghost use Rattle.vx_audit.specs.Sized.{HasFew};
ghost use Rattle.vx_results.specs.Fitting.{IsRow};
ghost use Rattle.vx_results.specs.Report as spec;

use crate::contests::contests_of;
use crate::laws::rows_fit;
use crate::records::{record_of, unique};
use std::alloc::Global;
use std::marker::Model;
use vx_base::OutOfMemory;
use vx_center::{Center, ExportSheet};
use vx_cvr::report_places;
use vx_election_model::Election;
use vx_events::Key;
use vx_json::Text;
use vx_styles::{CardList, cards};
use vx_tally::{CvrRecord, ReportContests, Totals};

/// The records of a journal's report, in its order, each made when it is asked for. Contracts see the list of the
/// records.
#[derive(Drop)]
pub struct JournalRecords<'a, 'e> {
    election: &'a Election,
    cards: CardList,
    center: &'a Center<'e>,
    places: Vec<usize>,
}

impl<'a, 'e> Model for JournalRecords<'a, 'e> {
    ghost use Rattle.std.specs.Prelude.{List};
    ghost use Rattle.vx_tally.specs.declared.report.CvrRecord.{CvrRecord};
    ghost use Rattle.vx_results.specs.JournalRecords.{AreMadeFrom};
    ghost use Rattle.vx_results.specs.Report.{report_of_events};

    ghost Value = { List CvrRecord };

    ghost view = { λ made. (report_of_events made.election.now made.center.now.events).records };

    ghost invariant = { λ made. AreMadeFrom made.election.now made.cards made.center.now made.places.items };
}

/// The row of a report's sheet, by its place in the report; `places` are those of all sheets in the order of adding.
fn row_in(
    alloc: Global,
    center: &Center<'_>,
    places: &[usize],
    at: usize,
) -> Result<ExportSheet, OutOfMemory>
    requires valid { IsValid center.now.election }
    requires places { AreReportPlaces center.now.election center.now.events places.now }
    requires within { at < length places.now }
    ensures exact { IfOk result (λ row. slice_get (rows_of center.now.election center.now.events) at ≡ Some row) }
    ensures fits { IfOk result (IsRow center.now.election) }
{
    let _kept = center.events();
    rows_fit();
    let row = center.row_at(alloc, places[at])?;
    Ok(row)
}

/// The key of a report's sheet, by its place in the report; `places` are those of all sheets in the order of adding.
fn key_in<'c>(center: &'c Center<'_>, places: &[usize], at: usize) -> &'c Key
    requires there { All (λ place. place < length (sheets_in center.now.events)) places.now }
    requires within { at < length places.now }
    ensures { result.now ≡ (sheet_at center.now.events (slice_index_or places.now at 0)).key }
{
    center.key_at(places[at])
}

impl<'a, 'e> JournalRecords<'a, 'e> {
    /// The records of the journal of which the center has kept the events. Memory is taken for a number a sheet.
    pub fn new(
        alloc: Global,
        election: &'a Election,
        center: &'a Center<'e>,
    ) -> Result<JournalRecords<'a, 'e>, OutOfMemory>
        requires valid { IsValid election.now }
        requires same { center.now.election ≡ election.now }
        ensures exact { IfOk result (λ records. records
            ≡ (spec.report_of_events election.now center.now.events).records) }
        ensures few { IfOk result (λ records. length records ≤ 1000000) }
    {
        let _kept = center.events();
        rows_fit();
        let cards = cards(alloc, election)?;
        let places = report_places(alloc, election, center)?;
        Ok(JournalRecords {
            election,
            cards,
            center,
            places,
        })
    }

    /// How many records there are.
    pub fn len(&self) -> usize
        ensures exact { result ≡ length self.now }
        ensures few { length self.now ≤ 1000000 }
    {
        let _kept = self.center.events();
        rows_fit();
        self.places.len()
    }

    /// The record at a place.
    pub fn record(&self, alloc: Global, at: usize) -> Result<CvrRecord, OutOfMemory>
        requires { at < length self.now }
        ensures exact { IfOk result (λ made. slice_get self.now at ≡ Some made) }
        ensures countable { IfOk result IsCountable }
    {
        let row = row_in(alloc, self.center, self.places.as_slice(), at)?;
        let made = record_of(alloc, self.election, self.cards.as_slice(), &row)?;
        Ok(made)
    }

    /// The id of the record at a place.
    pub fn id(&self, alloc: Global, at: usize) -> Result<Text, OutOfMemory>
        requires { at < length self.now }
        ensures { IfOk result (λ id. slice_get (spec.ids_of self.now) at ≡ Some id) }
    {
        let key = key_in(self.center, self.places.as_slice(), at);
        let id = unique(alloc, key)?;
        Ok(id)
    }

    /// What the records sum up to. Each is let go before the next is made.
    pub fn totals(&self, alloc: Global) -> Result<Totals, OutOfMemory>
        ensures { IfOk result (SumsUp self.now) }
    {
        let mut totals = Totals::new(alloc);
        for at in 0..self.len() {
            add_record(alloc, &mut totals, self, at)?;
        }
        Ok(totals)
    }
}

/// Adds the record at a place, where those before it are added.
fn add_record(
    alloc: Global,
    totals: &mut Totals,
    records: &JournalRecords<'_, '_>,
    at: usize,
) -> Result<(), OutOfMemory>
    requires within { at < length records.now }
    requires so_far { SumsUp (take at records.now) totals.old }
    ensures { OnOk result (SumsUp (take (at + 1) records.now) totals.new) }
{
    let _count = records.len();
    let made = records.record(alloc, at)?;
    totals.add(alloc, &made)?;
    Ok(())
}

/// Lets the records go. That this is safe is proved here; a crate that calls it needn't prove it again.
pub fn drop_journal_records(_records: JournalRecords<'_, '_>) {}

/// The contests of an election's report, in order: no more of them, and of their selections, than a reader admits.
pub fn report_contests(alloc: Global, election: &Election) -> Result<ReportContests, OutOfMemory>
    requires { IsValid election.now }
    ensures exact { IfOk result (λ contests. contests ≡ map spec.contest_of election.now.contests) }
    ensures few { IfOk result (λ contests. length contests ≤ list_limit) }
    ensures selections { IfOk result (λ contests. All HasFew contests) }
{
    let contests = contests_of(alloc, election)?;
    Ok(contests)
}
