//! The text of what a sample says of the outcomes of contests.

ghost use Rattle.std.specs.Prelude.{◌≡◌, ◌≤◌, IfOk, length, string_bytes};
ghost use Rattle.vx_election_model.specs.Valid.{IsValid};
ghost use Rattle.vx_audit.specs.Sample.{draws_of};
ghost use Rattle.vx_sampling.specs.Rows as spec;
ghost use Rattle.vx_sampling.specs.Sampled.{IsSample};
ghost use Rattle.vx_sampling.specs.Text as lines;

use crate::finding::{Sample, drawn_of, drop_sample, found_in};
use crate::rows::{Row, rows_of};
use crate::telling::text_of_rows;
use std::alloc::Global;
use vx_audit::{Hand, draw_places};
use vx_base::OutOfMemory;
use vx_election_model::Election;
use vx_results::JournalRecords;
use vx_tally::drop_totals;

/// The draws of a seed from the records, what is drawn, and of which records a hand has lines.
fn sample_of(
    alloc: Global,
    records: &JournalRecords<'_, '_>,
    hand: &Hand,
    seed: [u8; 32],
    size: u32,
) -> Result<Sample, OutOfMemory>
    ensures draws { IfOk result (λ sample. sample.draws ≡ draws_of seed size (length records.now)) }
    ensures sample { IfOk result (IsSample hand.now records.now) }
{
    let count = records.len();
    let draws = draw_places(alloc, seed, size, count)?;
    let drawn = drawn_of(alloc, records, draws.as_slice())?;
    let found = found_in(alloc, hand.lines(), count)?;
    Ok(Sample {
        draws,
        drawn,
        found,
    })
}

/// The rows of the contests of an election, by the records of its journal and a sample of them.
#[tactic(auto, using(crate::proofs::Few::all_few))]
fn rows_by(
    alloc: Global,
    election: &Election,
    records: &JournalRecords<'_, '_>,
    hand: &Hand,
    sample: &Sample,
    limit: u32,
) -> Result<Vec<Row>, OutOfMemory>
    requires valid { IsValid election.now }
    requires sample { IsSample hand.now records.now sample.now }
    ensures { IfOk result (λ rows. rows.items
        ≡ spec.rows_of records.now hand.now sample.now.draws limit election.now.contests) }
{
    let contests = election.contests.as_slice();
    let totals = records.totals(alloc)?;
    let rows = rows_of(alloc, &totals, hand, records, sample, limit, contests);
    drop_totals(totals);
    rows
}

/// What `risk` writes of a journal's records, what hands read of them, and the first `size` draws of a seed; the limit
/// is in thousandths. Of the records no more than those that are drawn are in memory.
pub(crate) fn risk_text(
    alloc: Global,
    election: &Election,
    records: &JournalRecords<'_, '_>,
    hand: &Hand,
    seed: [u8; 32],
    size: u32,
    limit: u32,
) -> Result<String, OutOfMemory>
    requires { IsValid election.now }
    ensures { IfOk result (λ text. string_bytes text ≡ lines.text_of_rows size (length records.now)
        (spec.rows_of records.now hand.now (draws_of seed size (length records.now)) limit election.now.contests)) }
{
    let sample = sample_of(alloc, records, hand, seed, size)?;
    let made = rows_by(alloc, election, records, hand, &sample, limit);
    drop_sample(sample);
    let rows = made?;
    let text = text_of_rows(alloc, size, records.len(), rows.as_slice())?;
    Ok(text)
}
