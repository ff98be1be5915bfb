//! The text of what a command asks, written.

ghost use Rattle.std.specs.Prelude.{◌≡◌, ◌≤◌, Bool, false, IfOk, Ok, length, string_bytes};
ghost use Rattle.vx_base.specs.Refusals.{Gives};
ghost use Rattle.vx_election_model.specs.Valid.{IsValid};
ghost use Rattle.vx_command.specs.Acts.{writing};
ghost use Rattle.vx_command.specs.Devices.{TouchesNothing, TouchesSink, writes_nothing};
ghost use Rattle.vx_command.specs.Done.{IsWritten};
ghost use Rattle.vx_command.specs.Steps.{is_no_memory};
ghost use Rattle.vx_sampling.specs.Asked.{text_asked};

use crate::asking::{Asked, Told};
use crate::comparing::sample_text;
use crate::weighing::risk_text;
use std::alloc::Global;
use vx_audit::Hand;
use vx_base::{Bytes, OutOfMemory};
use vx_command::{Halt, acts_in_order, write_text};
use vx_election_model::Election;
use vx_io::Sink;
use vx_results::JournalRecords;
use vx_tally::ReportContest;

/// The text of what is asked.
fn text_of(
    alloc: Global,
    asked: Asked,
    election: &Election,
    contests: &[ReportContest],
    records: &JournalRecords<'_, '_>,
    hand: &Hand,
) -> Result<String, OutOfMemory>
    requires valid { IsValid election.now }
    requires few { length contests.now ≤ 1000000 }
    ensures { IfOk result (λ text. string_bytes text
        ≡ text_asked asked election.now contests.now records.now hand.now) }
{
    let Asked { seed, size, told } = asked;
    match told {
        Told::Comparison => sample_text(alloc, contests, records, hand, seed, size),
        Told::Risk(limit) => risk_text(alloc, election, records, hand, seed, size, limit),
    }
}

/// The same as bytes.
fn bytes_of(
    alloc: Global,
    asked: Asked,
    election: &Election,
    contests: &[ReportContest],
    records: &JournalRecords<'_, '_>,
    hand: &Hand,
) -> Result<Bytes, Halt>
    requires valid { IsValid election.now }
    requires few { length contests.now ≤ 1000000 }
    ensures exact { Gives is_no_memory result
        (Ok (text_asked asked election.now contests.now records.now hand.now)) }
    ensures devices { TouchesNothing result }
{
    let text = text_of(alloc, asked, election, contests, records, hand)?;
    Ok(Bytes::from_vec(text.into_bytes()))
}

/// Writes the text.
pub(crate) fn write_asked<S: Sink>(
    alloc: Global,
    asked: Asked,
    election: &Election,
    contests: &[ReportContest],
    records: &JournalRecords<'_, '_>,
    hand: &Hand,
    out: &mut S,
) -> Result<(), Halt>
    requires valid { IsValid election.now }
    requires few { length contests.now ≤ 1000000 }
    ensures done { IsWritten (writing (text_asked asked election.now contests.now records.now hand.now))
        (S.taken out.old) (S.taken out.new) result }
    ensures sink { TouchesSink S.Sink out.old out.new result }
    ensures late { (first : Bool) → writes_nothing first result ≡ false }
{
    acts_in_order();
    let text = bytes_of(alloc, asked, election, contests, records, hand)?;
    write_text(out, text.as_slice())
}
