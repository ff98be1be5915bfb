ghost use Rattle.std.specs.Prelude.{◌≡◌, ◌≤◌, [], drop, IfOk};
ghost use Rattle.std.specs.Option.{ForSome};
ghost use Rattle.vx_election_model.specs.Valid.{IsValid};
ghost use Rattle.vx_io.specs.Outside.{CountsFaults, IsCountOf};
ghost use Rattle.vx_journal.specs.Replay.{begun_with, kept_with, read_with, replay_from, replay_of};
ghost use Rattle.vx_journal.specs.Replaying.{ReadsAll, ReadsOne, Replays, replay_failed};

use crate::fault::ReplayFault;
use std::alloc::Global;
use vx_base::Bytes;
use vx_center::Center;
use vx_election_model::Election;
use vx_events::Event;
use vx_io::Keeper;
use vx_records::{JournalFault, decode, header, header_digest};
use vx_refusals::{JournalStop, Reply};

/// Reads the first record, which is the election's header.
fn read_header(alloc: Global, election: &Election, body: &[u8]) -> Result<(), ReplayFault>
    ensures { ReadsOne 0 (begun_with election.now body.now) [] result }
{
    let own = header(alloc, election)?;
    if body == own.as_slice() {
        return Ok(());
    }
    match header_digest(alloc, body) {
        Ok(_) => Err(ReplayFault::Stopped(0, JournalStop::OtherElection)),
        Err(JournalFault::BadRecord(_, at)) => Err(ReplayFault::Stopped(0, JournalStop::Bad(at))),
        Err(JournalFault::OutOfMemory) => Err(ReplayFault::OutOfMemory),
    }
}

/// Keeps an event that the record of an index has.
fn keep_read(
    alloc: Global,
    center: &mut Center<'_>,
    index: u64,
    event: &Event,
) -> Result<(), ReplayFault>
    ensures kept { ReadsOne index (kept_with center.old.election center.old.events event.now)
        center.new.events result }
    ensures election { center.new.election ≡ center.old.election }
{
    if !center.fits(event) {
        return Err(ReplayFault::Stopped(index, JournalStop::Unfit));
    }
    match center.apply(alloc, event)? {
        Reply::Done => Ok(()),
        refusal => Err(ReplayFault::Stopped(index, JournalStop::Refused(refusal))),
    }
}

/// Reads the record of an index, which is an event's.
fn read_event(
    alloc: Global,
    center: &mut Center<'_>,
    index: u64,
    body: &[u8],
) -> Result<(), ReplayFault>
    ensures read { ReadsOne index (read_with center.old.election center.old.events body.now)
        center.new.events result }
    ensures election { center.new.election ≡ center.old.election }
{
    match decode(alloc, body, index) {
        Ok(event) => keep_read(alloc, center, index, &event),
        Err(JournalFault::BadRecord(_, at)) => {
            Err(ReplayFault::Stopped(index, JournalStop::Bad(at)))
        }
        Err(JournalFault::OutOfMemory) => Err(ReplayFault::OutOfMemory),
    }
}

/// Reads the records behind the first one.
fn read_events<K: Keeper>(
    alloc: Global,
    center: &mut Center<'_>,
    keeper: &mut K,
    count: u64,
) -> Result<(), ReplayFault>
    requires some { 1 ≤ count }
    requires count { IsCountOf (K.held keeper.old) count }
    ensures told { ForSome (K.held keeper.old) (λ records.
        ReadsAll (replay_from center.old.election 1 center.old.events (drop 1 records))
        center.new.events result) }
    ensures election { center.new.election ≡ center.old.election }
    ensures held { K.held keeper.new ≡ K.held keeper.old }
    ensures cause { CountsFaults (replay_failed result) (K.faults keeper.old) (K.faults keeper.new) }
{
    let mut body = Bytes::new(alloc);
    for index in 1..count {
        keeper.fetch(index, &mut body)?;
        read_event(alloc, center, index, body.as_slice())?;
    }
    Ok(())
}

/// Reads so many records, the first of which is the election's header.
pub(crate) fn read_records<'e, K: Keeper>(
    alloc: Global,
    election: &'e Election,
    keeper: &mut K,
    count: u64,
) -> Result<Center<'e>, ReplayFault>
    requires valid { IsValid election.now }
    requires count { IsCountOf (K.held keeper.old) count }
    ensures told { ForSome (K.held keeper.old) (λ records.
        Replays (replay_of election.now records) result) }
    ensures election { IfOk result (λ center. center.election ≡ election.now) }
    ensures held { K.held keeper.new ≡ K.held keeper.old }
    ensures cause { CountsFaults (replay_failed result) (K.faults keeper.old) (K.faults keeper.new) }
{
    let mut center = Center::new(alloc, election);
    if count > 0 {
        let mut body = Bytes::new(alloc);
        keeper.fetch(0, &mut body)?;
        read_header(alloc, election, body.as_slice())?;
        read_events(alloc, &mut center, keeper, count)?;
    }
    Ok(center)
}

/// The counting machine of the events that a keeper's records keep, read again in their order: an
/// empty one where no record is there.
pub fn replay<'e, K: Keeper>(
    alloc: Global,
    election: &'e Election,
    keeper: &mut K,
) -> Result<Center<'e>, ReplayFault>
    requires { IsValid election.now }
    ensures told { ForSome (K.held keeper.old) (λ records.
        Replays (replay_of election.now records) result) }
    ensures election { IfOk result (λ center. center.election ≡ election.now) }
    ensures held { K.held keeper.new ≡ K.held keeper.old }
    ensures cause { CountsFaults (replay_failed result) (K.faults keeper.old) (K.faults keeper.new) }
{
    let count = keeper.count()?;
    read_records(alloc, election, keeper, count)
}
