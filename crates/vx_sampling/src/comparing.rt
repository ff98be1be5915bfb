//! The comparison of drawn records with what hands read: each record is made, compared, and let go.

ghost use Rattle.std.specs.Prelude.{◌≡◌, ◌<◌, ◌≤◌, All, IfOk, OnOk, length, slice_get, string_bytes};
ghost use Rattle.std.specs.List.{flat_map};
ghost use Rattle.vx_audit.specs.Audit.{all_pairs, pairs_at, record_lines};
ghost use Rattle.vx_audit.specs.Audit as lines;
ghost use Rattle.vx_audit.specs.Found.{Finds};
ghost use Rattle.vx_sampling.specs.SampleOutcome as spec;

use std::alloc::Global;
use vx_audit::{Findings, Hand, draw_sample};
use vx_base::OutOfMemory;
use vx_results::JournalRecords;
use vx_tally::ReportContest;

/// Compares the record at a place.
fn compare_record(
    alloc: Global,
    contests: &[ReportContest],
    records: &JournalRecords<'_, '_>,
    hand: &Hand,
    at: u32,
    findings: &mut Findings,
) -> Result<(), OutOfMemory>
    requires few { length contests.now ≤ 1000000 }
    requires within { at < length records.now }
    ensures { OnOk result (Finds (record_lines contests.now hand.now at (slice_get records.now at))
        (pairs_at contests.now hand.now at (slice_get records.now at)) findings.old findings.new) }
{
    let one = records.record(alloc, at as usize)?;
    findings.take_record(alloc, contests, hand, at, &one)?;
    Ok(())
}

/// Compares the records at those places, one after another.
fn compare_records(
    alloc: Global,
    contests: &[ReportContest],
    records: &JournalRecords<'_, '_>,
    hand: &Hand,
    sample: &[u32],
    findings: &mut Findings,
) -> Result<(), OutOfMemory>
    requires few { length contests.now ≤ 1000000 }
    requires within { All (λ at. at < length records.now) sample.now }
    ensures { OnOk result (Finds
        (flat_map (λ at. record_lines contests.now hand.now at (slice_get records.now at)) sample.now)
        (all_pairs contests.now records.now hand.now sample.now) findings.old findings.new) }
{
    for at in sample {
        compare_record(alloc, contests, records, hand, *at, findings)?;
    }
    Ok(())
}

/// The comparison of the records at those places.
#[tactic(auto, unfolding(vx_audit::specs::Audit::compared_text))]
fn compared_text(
    alloc: Global,
    contests: &[ReportContest],
    records: &JournalRecords<'_, '_>,
    hand: &Hand,
    sample: &[u32],
) -> Result<String, OutOfMemory>
    requires few { length contests.now ≤ 1000000 }
    requires within { All (λ at. at < length records.now) sample.now }
    ensures { IfOk result (λ text. string_bytes text
        ≡ lines.compared_text contests.now records.now hand.now sample.now) }
{
    let mut findings = Findings::new(alloc);
    compare_records(alloc, contests, records, hand, sample, &mut findings)?;
    findings.into_text(sample.len())
}

/// The comparison of the records that the words of a generator draw.
pub(crate) fn sample_text(
    alloc: Global,
    contests: &[ReportContest],
    records: &JournalRecords<'_, '_>,
    hand: &Hand,
    seed: [u8; 32],
    size: u32,
) -> Result<String, OutOfMemory>
    requires { length contests.now ≤ 1000000 }
    ensures { IfOk result (λ text. string_bytes text
        ≡ spec.sample_text seed size contests.now records.now hand.now) }
{
    let sample = draw_sample(alloc, seed, size, records.len())?;
    let text = compared_text(alloc, contests, records, hand, sample.as_slice())?;
    Ok(text)
}
