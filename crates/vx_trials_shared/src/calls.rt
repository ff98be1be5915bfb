//! What a shared center answers to three calls of two passes, worked by hand.

ghost use Rattle.std.specs.Prelude.{◌≡◌, ◌-◌, ◌<◌, ◌≤◌};
ghost use Rattle.vx_election_model.specs.Valid.{IsValid};
ghost use Rattle.vx_events.specs.Fits.{Fits};
ghost use Rattle.vx_trials_shared.specs.Same.{IsSame, MayCall};

use crate::ended::{Ended, assert_fits, drop_ended};
use crate::hall::{added, claimed, hall};
use std::alloc::Global;
use std::process::Abort;
use std::sync::Wait;
use std::test::Fail;
use vx_base::OutOfMemory;
use vx_center::{Center, Event, Reply};
use vx_election_model::{Election, drop_election};
use vx_records::encode;
use vx_shared::{Entry, Pass, Receipt, SharedCenter};

/// A call with a copy of an event.
fn call<R: Wait>(
    rt: &R,
    alloc: Global,
    shared: &SharedCenter<'_>,
    pass: Pass,
    event: &Event,
) -> (Pass, Result<Receipt, OutOfMemory>)
    requires belongs { pass.of ≡ shared.now }
    requires calls { 0 < pass.calls }
    requires fits { Fits pass.origin.election event.now }
    ensures same { IsSame pass result.0 }
    ensures calls { pass.calls - 1 ≤ result.0.calls }
{
    match event.copy(alloc) {
        Ok(copy) => shared.call(rt, alloc, pass, copy),
        Err(no_memory) => (pass, Err(no_memory)),
    }
}

/// What is answered to the three calls of the worked case.
const ANSWERS: [(&str, Reply); 3] = [
    ("1 claim 1 b1 1", Reply::NoSheet),
    ("1 add b1 1 0 1 precinct 0:mc", Reply::Done),
    ("1 add b1 1 0 1 precinct 0:mc", Reply::Repeated(0)),
];

/// What three calls were answered.
type Receipts = [Result<Receipt, OutOfMemory>; 3];

/// A claim on one pass, and two adds on another that was cut off it; then they are one pass again.
fn answers<R: Wait>(
    rt: &R,
    alloc: Global,
    shared: &SharedCenter<'_>,
    pass: Pass,
    claim: &Event,
    add: &Event,
) -> (Pass, Receipts)
    requires may { MayCall shared.now 2 claim.now add.now pass }
    requires calls { pass.calls ≡ 4 }
    ensures { IsSame pass result.0 }
{
    let (one, two) = shared.split(pass, 1, 2);
    let (one, missed) = call(rt, alloc, shared, one, claim);
    let (two, done) = call(rt, alloc, shared, two, add);
    let (two, repeated) = call(rt, alloc, shared, two, add);
    (shared.join(one, two), [missed, done, repeated])
}

/// The three calls at a center that is closed behind them.
fn run<'e, R: Wait>(
    rt: &R,
    alloc: Global,
    center: Center<'e>,
    claim: &Event,
    add: &Event,
) -> Result<(Ended<'e>, Receipts), OutOfMemory>
    requires claim { Fits center.election claim.now }
    requires add { Fits center.election add.now }
{
    let (shared, pass) = SharedCenter::new(alloc, center, 2, 4)?;
    let (pass, receipts) = answers(rt, alloc, &shared, pass, claim, add);
    let left = (pass.shares(), pass.calls_left(), pass.seen());
    let (center, history) = shared.close(pass);
    Ok((
        Ended {
            center,
            history,
            left,
        },
        receipts,
    ))
}

/// A call came at this place, and was answered so.
fn assert_receipt<R: Abort>(
    rt: &R,
    receipt: &Result<Receipt, OutOfMemory>,
    place: u64,
    reply: Reply,
) {
    assert_eq!(rt; *receipt, Ok(Receipt { place, reply }));
}

/// A call of the history is one of the worked case.
fn assert_entry<R: Abort>(
    rt: &R,
    alloc: Global,
    entry: &Entry,
    record: &str,
    reply: Reply,
) -> Result<(), Fail> {
    assert_eq!(rt; encode(alloc, &entry.event)?.as_slice(), record.as_bytes());
    assert_eq!(rt; entry.reply, reply);
    Ok(())
}

/// The history is that of the worked case.
fn assert_history<R: Abort>(rt: &R, alloc: Global, history: &[Entry]) -> Result<(), Fail> {
    assert_eq!(rt; history.len(), ANSWERS.len());
    for place in 0..3 {
        let entry = history.get(place).ok_or("a call")?;
        let (record, reply) = ANSWERS[place];
        assert_entry(rt, alloc, entry, record, reply)?;
    }
    Ok(())
}

/// The event that was done is kept.
fn assert_kept<R: Abort>(rt: &R, alloc: Global, kept: &[Event]) -> Result<(), Fail> {
    assert_eq!(rt; kept.len(), 1);
    for event in kept {
        assert_eq!(rt; encode(alloc, event)?.as_slice(), ANSWERS[1].0.as_bytes());
    }
    Ok(())
}

/// A claim that came first missed the sheet, which then was added, and not again.
fn assert_answers<R: Abort>(
    rt: &R,
    alloc: Global,
    ended: &Ended<'_>,
    receipts: &Receipts,
) -> Result<(), Fail> {
    assert_receipt(rt, &receipts[0], 0, Reply::NoSheet);
    assert_receipt(rt, &receipts[1], 1, Reply::Done);
    assert_receipt(rt, &receipts[2], 2, Reply::Repeated(0));
    assert_eq!(rt; ended.left, (2, 1, 3));
    assert_history(rt, alloc, ended.history.as_slice())?;
    assert_kept(rt, alloc, ended.center.events().as_slice())
}

/// Two passes make one history.
fn assert_one_history<R: Wait + Abort>(
    rt: &R,
    alloc: Global,
    election: &Election,
    claim: &Event,
    add: &Event,
) -> Result<(), Fail>
    requires { IsValid election.now }
{
    let center = Center::new(alloc, election);
    assert_fits(rt, &center, claim);
    assert_fits(rt, &center, add);
    let (ended, receipts) = run(rt, alloc, center, claim, add)?;
    let done = assert_answers(rt, alloc, &ended, &receipts);
    drop_ended(ended);
    done
}

/// The same with events of the hall.
fn assert_of_hall<R: Wait + Abort>(rt: &R, alloc: Global, election: &Election) -> Result<(), Fail>
    requires { IsValid election.now }
{
    let claim = claimed(alloc, 1)?;
    let add = added(alloc)?;
    assert_one_history(rt, alloc, election, &claim, &add)
}

#[test]
fn two_passes_make_one_history(rt: HostRuntime) -> Result<(), Fail> {
    let election = hall(rt.alloc())?;
    let done = assert_of_hall(&rt, rt.alloc(), &election);
    drop_election(election);
    done
}
