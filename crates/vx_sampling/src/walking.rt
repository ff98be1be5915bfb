//! The way of `sample` and `risk`: the election, its journal, what hands read of its sheets, and the text.

ghost use Rattle.std.specs.Prelude.{◌≡◌, ◌≤◌, [], ◌∷◌, All, true, false, is_ok, length};
ghost use Rattle.std.specs.Option.{ForSome};
ghost use Rattle.vx_election_model.specs.Valid.{IsValid};
ghost use Rattle.vx_audit.specs.Sized.{HasFew};
ghost use Rattle.vx_command.specs.Asking.{Asks};
ghost use Rattle.vx_command.specs.Devices.{LeavesDevices, TouchesInputsAndSink, writes_nothing};
ghost use Rattle.vx_command.specs.Done.{IsDone, IsWritten};
ghost use Rattle.vx_journal.specs.Steps.{once_read};
ghost use Rattle.vx_results.specs.Report.{report_of_events};
ghost use Rattle.vx_sampling.specs.Asked.{text_asked};
ghost use Rattle.vx_sampling.specs.Drawn.{drawn_outcome, hand_outcome, journal_outcome};

use crate::asking::Asked;
use crate::reading::take_hand;
use crate::writing::write_asked;
use std::alloc::Global;
use vx_audit::{Hand, drop_hand};
use vx_center::Center;
use vx_command::{Halt, acts_in_order, asks_in_order, steps_in_order, take_election};
use vx_election_model::{Election, drop_election};
use vx_io::{Inputs, Keeper, Sink};
use vx_journal::{drop_journal, journals_in_order, read_journal};
use vx_results::{JournalRecords, drop_journal_records, report_contests};
use vx_tally::ReportContest;

/// Takes what hands read of the sheets under its name, which is word 4, and writes the text.
fn answer_hand<I: Inputs, S: Sink>(
    alloc: Global,
    asked: Asked,
    election: &Election,
    contests: &[ReportContest],
    records: &JournalRecords<'_, '_>,
    hand: &str,
    inputs: &mut I,
    out: &mut S,
) -> Result<(), Halt>
    requires valid { IsValid election.now }
    requires contests { length contests.now ≤ 1000000 }
    requires selections { All HasFew contests.now }
    ensures done { ForSome (I.held inputs.old) (λ files.
        IsWritten (hand_outcome (text_asked asked) election.now contests.now records.now (files hand.now))
        (S.taken out.old) (S.taken out.new) result) }
    ensures late { writes_nothing false result ≡ false }
    ensures devices { TouchesInputsAndSink I.Inputs S.Sink inputs.old inputs.new out.old out.new result }
    ensures asked { Asks I.Inputs (hand.now ∷ []) inputs.old inputs.new (is_ok result) }
{
    asks_in_order::<I>();
    steps_in_order::<Hand>();
    let lines = take_hand(alloc, contests, records, hand, inputs)?;
    let done = write_asked(alloc, asked, election, contests, records, &lines, out);
    drop_hand(lines);
    done
}

/// Does the rest with the records of a journal's events, each of which is made when it is looked at.
fn answer_events<I: Inputs, S: Sink>(
    alloc: Global,
    asked: Asked,
    election: &Election,
    center: &Center<'_>,
    hand: &str,
    inputs: &mut I,
    out: &mut S,
) -> Result<(), Halt>
    requires valid { IsValid election.now }
    requires same { center.now.election ≡ election.now }
    ensures done { ForSome (I.held inputs.old) (λ files.
        IsWritten (hand_outcome (text_asked asked) election.now
        (report_of_events election.now center.now.events).contests
        (report_of_events election.now center.now.events).records (files hand.now))
        (S.taken out.old) (S.taken out.new) result) }
    ensures late { writes_nothing false result ≡ false }
    ensures devices { TouchesInputsAndSink I.Inputs S.Sink inputs.old inputs.new out.old out.new result }
    ensures asked { Asks I.Inputs (hand.now ∷ []) inputs.old inputs.new (is_ok result) }
{
    asks_in_order::<I>();
    acts_in_order();
    let contests = report_contests(alloc, election)?;
    let records = JournalRecords::new(alloc, election, center)?;
    let done = answer_hand(
        alloc,
        asked,
        election,
        contests.as_slice(),
        &records,
        hand,
        inputs,
        out,
    );
    drop_journal_records(records);
    done
}

/// Reads the journal and does the rest.
fn answer_journal<I: Inputs, S: Sink, K: Keeper>(
    alloc: Global,
    asked: Asked,
    election: &Election,
    hand: &str,
    inputs: &mut I,
    out: &mut S,
    keeper: &mut K,
) -> Result<(), Halt>
    requires { IsValid election.now }
    ensures done { ForSome (I.held inputs.old) (λ files. ForSome (K.held keeper.old) (λ records.
        IsDone (once_read election.now records (journal_outcome (text_asked asked) election.now (files hand.now)))
        (S.taken out.old) (S.taken out.new) (K.held keeper.old) (K.held keeper.new) result)) }
    ensures nothing_written { writes_nothing false result ≡ true → S.taken out.new ≡ S.taken out.old }
    ensures held { K.held keeper.new ≡ K.held keeper.old }
    ensures devices { LeavesDevices I.Inputs S.Sink K.Keeper inputs.old inputs.new out.old out.new
        keeper.old keeper.new result }
    ensures asked { Asks I.Inputs (hand.now ∷ []) inputs.old inputs.new (is_ok result) }
{
    asks_in_order::<I>();
    journals_in_order();
    let journal = read_journal(alloc, election, keeper)?;
    let done = answer_events(alloc, asked, election, &journal.center, hand, inputs, out);
    drop_journal(journal);
    done
}

/// Takes the election under its name, which is word 1, reads its journal, takes what hands read of its sheets under
/// its name, which is word 4, and writes the text of what is asked.
pub(crate) fn answer<I: Inputs, S: Sink, K: Keeper>(
    alloc: Global,
    asked: Asked,
    election: &str,
    hand: &str,
    inputs: &mut I,
    out: &mut S,
    keeper: &mut K,
) -> Result<(), Halt>
    ensures done { ForSome (I.held inputs.old) (λ files. ForSome (K.held keeper.old) (λ records.
        IsDone (drawn_outcome (text_asked asked) election.now hand.now files records)
        (S.taken out.old) (S.taken out.new) (K.held keeper.old) (K.held keeper.new) result)) }
    ensures nothing_written { writes_nothing false result ≡ true → S.taken out.new ≡ S.taken out.old }
    ensures held { K.held keeper.new ≡ K.held keeper.old }
    ensures devices { LeavesDevices I.Inputs S.Sink K.Keeper inputs.old inputs.new out.old out.new
        keeper.old keeper.new result }
    ensures asked { Asks I.Inputs (election.now ∷ hand.now ∷ []) inputs.old inputs.new (is_ok result) }
{
    asks_in_order::<I>();
    steps_in_order::<Election>();
    let given = take_election(alloc, inputs, election)?;
    let done = answer_journal(alloc, asked, &given, hand, inputs, out, keeper);
    drop_election(given);
    done
}
