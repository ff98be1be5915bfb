ghost use Rattle.std.specs.Prelude.{◌≡◌, ◌∷◌, [], IfOk, OnErr, OnOk};
ghost use Rattle.vx_command.specs.Devices.{TouchesKeeper};
ghost use Rattle.vx_events.specs.Fits.{Fits};
ghost use Rattle.vx_records.specs.Records.{record_of};
ghost use Rattle.vx_command.specs.Acts.{Append};
ghost use Rattle.vx_journal.specs.Keeping.{begin_acts, journal_with, keep_acts, reply_in};
ghost use Rattle.vx_journal.specs.Steps.{IsRecorded, answer_of};

use crate::journal::Journal;
use std::alloc::Global;
use vx_center::replies_are_done_or_refuse;
use vx_command::Halt;
use vx_election_model::Election;
use vx_events::Event;
use vx_io::{Keeper, KeeperError};
use vx_records::{encode, header};
use vx_refusals::Reply;

/// Appends a record.
fn append<K: Keeper>(keeper: &mut K, body: &[u8]) -> Result<(), Halt>
    ensures done { IsRecorded (Append body.now ∷ []) (K.held keeper.old) (K.held keeper.new) result }
    ensures keeper { TouchesKeeper K.Keeper keeper.old keeper.new result }
{
    match keeper.append(body) {
        Ok(()) => Ok(()),
        Err(KeeperError::Failed) => Err(Halt::KeeperFault),
        Err(KeeperError::OutOfMemory) => Err(Halt::NoMemory),
    }
}

/// Appends the header of the journal's election where no record was there.
pub fn begin_journal<K: Keeper>(
    alloc: Global,
    election: &Election,
    journal: &Journal<'_>,
    keeper: &mut K,
) -> Result<(), Halt>
    requires { journal.now.center.election ≡ election.now }
    ensures done { IsRecorded (begin_acts journal.now) (K.held keeper.old) (K.held keeper.new) result }
    ensures keeper { TouchesKeeper K.Keeper keeper.old keeper.new result }
{
    if journal.is_new {
        let body = header(alloc, election)?;
        append(keeper, body.as_slice())
    } else {
        Ok(())
    }
}

/// Appends the record of an event.
pub fn append_event<K: Keeper>(alloc: Global, keeper: &mut K, event: &Event) -> Result<(), Halt>
    ensures done { IsRecorded (Append (record_of event.now) ∷ []) (K.held keeper.old) (K.held keeper.new) result }
    ensures keeper { TouchesKeeper K.Keeper keeper.old keeper.new result }
{
    let body = encode(alloc, event)?;
    append(keeper, body.as_slice())
}

/// Asks the counting machine of an event that fits; where the answer is Done its record is appended.
/// After a halt the machine may have the event or not. That the records are a journal then is a law,
/// for an event that has a record.
pub fn keep_event<K: Keeper>(
    alloc: Global,
    journal: &mut Journal<'_>,
    keeper: &mut K,
    event: &Event,
) -> Result<Reply, Halt>
    requires { Fits journal.old.center.election event.now }
    ensures reply { IfOk result (λ reply. reply ≡ reply_in journal.old event.now) }
    ensures next { OnOk result (journal.new ≡ journal_with journal.old event.now) }
    ensures no_refusal { OnErr result (reply_in journal.old event.now ≡ Reply.Done) }
    ensures done { IsRecorded (keep_acts journal.old event.now)
        (K.held keeper.old) (K.held keeper.new) (answer_of result) }
    ensures keeper { TouchesKeeper K.Keeper keeper.old keeper.new result }
{
    replies_are_done_or_refuse();
    match journal.center.apply(alloc, event)? {
        Reply::Done => {
            append_event(alloc, keeper, event)?;
            Ok(Reply::Done)
        }
        refusal => Ok(refusal),
    }
}
