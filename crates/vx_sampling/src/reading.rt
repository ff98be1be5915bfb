//! What hands read of the sheets of a journal.

ghost use Rattle.std.specs.Prelude.{◌≡◌, ◌≤◌, ◌<◌, ◌+◌, ◌∷◌, [], All, Bool, ℕ, List, false, IfOk, OnOk, is_ok, length, take};
ghost use Rattle.std.specs.Option.{ForSome};
ghost use Rattle.vx_base.specs.Refusals.{Gives};
ghost use Rattle.vx_audit.specs.Finding.{FindsBallots, FindsContests, contest_in};
ghost use Rattle.vx_audit.specs.Hand.{hand_by, record_with};
ghost use Rattle.vx_audit.specs.Hand as hands;
ghost use Rattle.vx_audit.specs.Sized.{HasFew};
ghost use Rattle.vx_command.specs.Asking.{Asks};
ghost use Rattle.vx_command.specs.Devices.{TouchesInputs, TouchesNothing, writes_nothing};
ghost use Rattle.vx_command.specs.Steps.{is_no_memory, GivesTaking};
ghost use Rattle.vx_sampling.specs.Drawn as spec;

use std::alloc::Global;
use vx_audit::{
    Directory, Hand, HandFault, ballots_are_found_in_order, drop_directory, hands_are_read_alike,
    read_hand_by,
};
use vx_base::{Bytes, OutOfMemory};
use vx_command::{Halt, INPUT_LIMIT, asks_in_order, take_input};
use vx_io::Inputs;
use vx_results::JournalRecords;
use vx_tally::ReportContest;

/// Puts the ballot of the record at a place behind those before it.
fn put_ballot(
    alloc: Global,
    records: &JournalRecords<'_, '_>,
    at: usize,
    directory: &mut Directory,
) -> Result<(), OutOfMemory>
    requires within { at < length records.now }
    requires before { FindsBallots (take at records.now) directory.old }
    ensures ballots { OnOk result (FindsBallots (take (at + 1) records.now) directory.new) }
    ensures contests { OnOk result ((id : List ℕ) → contest_in directory.new id ≡ contest_in directory.old id) }
{
    ballots_are_found_in_order();
    let _count = records.len();
    let id = records.id(alloc, at)?;
    directory.put_ballot(alloc, id.as_str(), at as u32)?;
    Ok(())
}

/// The directory of contests and of the ballots of records. It keeps the records' ids, and of the records no more.
fn directory_of(
    alloc: Global,
    contests: &[ReportContest],
    records: &JournalRecords<'_, '_>,
) -> Result<Directory, OutOfMemory>
    requires { length contests.now ≤ 1000000 }
    ensures ballots { IfOk result (FindsBallots records.now) }
    ensures contests { IfOk result (FindsContests contests.now) }
{
    let mut directory = Directory::new(alloc, contests)?;
    for at in 0..records.len() {
        put_ballot(alloc, records, at, &mut directory)?;
    }
    Ok(directory)
}

/// What hands read of contests and of the ballots of records.
fn hand_of(
    alloc: Global,
    contests: &[ReportContest],
    records: &JournalRecords<'_, '_>,
    bytes: &[u8],
) -> Result<Hand, HandFault>
    requires contests { length contests.now ≤ 1000000 }
    requires selections { All HasFew contests.now }
    requires few { length bytes.now ≤ 67108864 }
    ensures { Gives hands.is_no_memory result (hand_by contests.now (record_with records.now) bytes.now) }
{
    hands_are_read_alike();
    let directory = directory_of(alloc, contests, records)?;
    let read = read_hand_by(alloc, contests, &directory, bytes);
    drop_directory(directory);
    read
}

/// Why the command halts where what hands read is refused.
fn halt_of_hand(fault: HandFault) -> Halt
    ensures { result ≡ spec.hand_halt fault }
{
    match fault {
        HandFault::BadLine(line) => Halt::Hand(line),
        HandFault::OutOfMemory => Halt::NoMemory,
    }
}

/// The same, or why the command halts.
fn hand_in(
    alloc: Global,
    contests: &[ReportContest],
    records: &JournalRecords<'_, '_>,
    bytes: &[u8],
) -> Result<Hand, Halt>
    requires contests { length contests.now ≤ 1000000 }
    requires selections { All HasFew contests.now }
    requires few { length bytes.now ≤ 67108864 }
    ensures exact { Gives is_no_memory result
        (spec.read_hand (hand_by contests.now (record_with records.now) bytes.now)) }
    ensures devices { TouchesNothing result }
    ensures late { (first : Bool) → writes_nothing first result ≡ false }
{
    match hand_of(alloc, contests, records, bytes) {
        Ok(hand) => Ok(hand),
        Err(fault) => Err(halt_of_hand(fault)),
    }
}

/// Takes what hands read of contests and of the ballots of records under its name, which is word 4, and reads it.
pub(crate) fn take_hand<I: Inputs>(
    alloc: Global,
    contests: &[ReportContest],
    records: &JournalRecords<'_, '_>,
    name: &str,
    inputs: &mut I,
) -> Result<Hand, Halt>
    requires contests { length contests.now ≤ 1000000 }
    requires selections { All HasFew contests.now }
    ensures told { ForSome (I.held inputs.old) (λ files.
        GivesTaking 4 result (spec.hand_in contests.now records.now (files name.now))) }
    ensures late { writes_nothing false result ≡ false }
    ensures inputs { TouchesInputs I.Inputs inputs.old inputs.new result }
    ensures asked { Asks I.Inputs (name.now ∷ []) inputs.old inputs.new (is_ok result) }
{
    asks_in_order::<I>();
    let bytes = take_input(Bytes::new(alloc), inputs, name, 4, INPUT_LIMIT)?;
    hand_in(alloc, contests, records, bytes.as_slice())
}
