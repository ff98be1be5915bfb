use crate::worked::TOWN;
use std::alloc::{AllocError, Global};
use std::process::Abort;
use std::test::Fail;
use vx_center::Center;
use vx_election::read_election;
use vx_events::{Event, Key};
use vx_io::{KeeperCalls, MemKeeper, Records};
use vx_journal::{ReplayFault, begin_journal, keep_event, read_journal, replay};
use vx_json::Text;
use vx_refusals::Reply;

/// The first record of the town's journal, with a sum that another program gave.
const HEADER: &str = "1 election 16cbf4c3a45dae96ed01a82ac6d66a24812b6309d97421e2dc4282725ade6e70";

const OTHER: &str = "1 election 06cbf4c3a45dae96ed01a82ac6d66a24812b6309d97421e2dc4282725ade6e70";

const SHORT: &str = "1 election 16cbf4c3a45dae96ed01a82ac6d66a24812b6309d97421e2dc4282725ade6e7";

/// A keeper of records in memory.
fn keeper_of(alloc: Global, records: &[&str]) -> Result<MemKeeper, Fail> {
    let mut kept = Records::new(alloc);
    for record in records {
        kept.push(record.as_bytes())?;
    }
    Ok(MemKeeper::new(kept, KeeperCalls::new(alloc)))
}

/// How many events a center has.
fn count_text(alloc: Global, center: &Center<'_>) -> Result<String, AllocError> {
    format!(in alloc; "{} events", center.events().len())
}

/// Where and why a reading stopped.
fn fault_text(alloc: Global, fault: ReplayFault) -> Result<String, AllocError> {
    match fault {
        ReplayFault::Stopped(index, stop) => format!(in alloc; "{index} {stop}"),
        ReplayFault::Failed => String::from_str(alloc, "failed"),
        ReplayFault::OutOfMemory => String::from_str(alloc, "no memory"),
    }
}

/// What the town's journal of these records is read as.
fn read_as(alloc: Global, records: &[&str]) -> Result<String, Fail> {
    let election = read_election(alloc, TOWN.as_bytes())?;
    let mut keeper = keeper_of(alloc, records)?;
    match replay(alloc, &election, &mut keeper) {
        Ok(center) => Ok(count_text(alloc, &center)?),
        Err(fault) => Ok(fault_text(alloc, fault)?),
    }
}

/// A header with a digit too many.
const LONG: &str = "1 election 16cbf4c3a45dae96ed01a82ac6d66a24812b6309d97421e2dc4282725ade6e700";

/// The record of a blank sheet, of one with a marginal mark, and of a claim.
const SHEET: &str = "1 add b1 1 0 1 precinct 0:cc";

const MARGINAL: &str = "1 add b1 1 0 1 precinct 0:gc";

const CLAIM: &str = "1 claim 1 b1 1";

/// Journals and what they are read as: how many events, or which record stops the reading, and why.
const JOURNALS: [(&[&str], &str); 31] = [
    (&[], "0 events"),
    (&[HEADER], "0 events"),
    (&[HEADER, SHEET], "1 events"),
    (&[HEADER, SHEET, CLAIM], "2 events"),
    // The first record is no header, or another election's.
    (&[""], "0 bad 0"),
    (&[SHORT], "0 bad 74"),
    (&[LONG], "0 bad 75"),
    (&[SHEET], "0 bad 2"),
    (&["1 election 16CBf4"], "0 bad 13"),
    (&[OTHER, SHEET], "0 other election"),
    (&[OTHER, ""], "0 other election"),
    // A later one is no event's.
    (&[HEADER, ""], "1 bad 0"),
    (&[HEADER, "1 claim 01 b1 1"], "1 bad 8"),
    (&[HEADER, "1 claim 1 b1 1 "], "1 bad 14"),
    (&[HEADER, HEADER], "1 bad 2"),
    (&[HEADER, SHEET, "1 claim 1 b1 1\n"], "2 bad 14"),
    // It doesn't fit the election: its card, its states, its contest.
    (&[HEADER, "1 add b1 1 5 1 precinct"], "1 unfit"),
    (&[HEADER, "1 add b1 1 1 1 precinct 0:cc"], "1 unfit"),
    (&[HEADER, "1 add b1 1 0 1 precinct 0:c"], "1 unfit"),
    (&[HEADER, "1 add b1 1 0 1 precinct 0:ccc"], "1 unfit"),
    (&[HEADER, "1 add b1 1 0 1 precinct 1:cc"], "1 unfit"),
    // The machine refuses it.
    (&[HEADER, SHEET, SHEET], "2 1 repeated 0"),
    (&[HEADER, CLAIM], "1 2 no sheet"),
    (&[HEADER, SHEET, CLAIM, "1 claim 2 b1 1"], "3 3 held by 1"),
    (&[HEADER, SHEET, "1 release 1 b1 1"], "2 4 not held"),
    (
        &[HEADER, SHEET, CLAIM, "1 accept 1 b1 1 499"],
        "3 5 not on sheet 499",
    ),
    (
        &[HEADER, SHEET, CLAIM, "1 select 1 b1 1 0 0,2,999"],
        "3 6 not an option 2",
    ),
    (
        &[HEADER, SHEET, CLAIM, "1 select 1 b1 1 0 0,1"],
        "3 7 over seats 2 1",
    ),
    (
        &[HEADER, MARGINAL, CLAIM, "1 accept 1 b1 1 0"],
        "3 8 still marginal 0",
    ),
    (
        &[HEADER, SHEET, CLAIM, "1 name 1 b1 1 0 0 candidate 0"],
        "3 9 no write-in 0",
    ),
    (
        &[HEADER, SHEET, CLAIM, "1 release 1 b1 1", CLAIM, ""],
        "5 bad 0",
    ),
];

#[test]
fn journals_are_read_or_stopped(rt: HostRuntime) -> Result<(), Fail> {
    for (records, expected) in JOURNALS {
        let read = read_as(rt.alloc(), records)?;
        assert_eq!(rt; read.as_str(), expected);
    }
    Ok(())
}

/// Asks a journal of an event, and answers what its machine replies.
fn asked(alloc: Global, keeper: &mut MemKeeper, event: &Event) -> Result<Option<Reply>, Fail> {
    let election = read_election(alloc, TOWN.as_bytes())?;
    let Ok(mut journal) = read_journal(alloc, &election, keeper) else {
        return Ok(None);
    };
    if begin_journal(alloc, &election, &journal, keeper).is_err() || !journal.center.fits(event) {
        return Ok(None);
    }
    match keep_event(alloc, &mut journal, keeper, event) {
        Ok(reply) => Ok(Some(reply)),
        Err(_halt) => Ok(None),
    }
}

/// Claims sheet 1 of batch b1 for station 3, and answers what the machine replies.
fn claimed(alloc: Global, keeper: &mut MemKeeper) -> Result<Option<Reply>, Fail> {
    let key = Key {
        batch: Text::from_str(alloc, "b1")?,
        number: 1,
    };
    asked(alloc, keeper, &Event::Claim { station: 3, key })
}

/// A claim over these records gets this reply, and so many records stand behind it.
fn assert_claimed<R: AllocGlobal + Abort>(
    rt: &R,
    records: &[&str],
    reply: Reply,
    kept: usize,
) -> Result<(), Fail> {
    let mut keeper = keeper_of(rt.alloc(), records)?;
    assert_eq!(rt; claimed(rt.alloc(), &mut keeper)?, Some(reply));
    assert_eq!(rt; keeper.records().len(), kept);
    Ok(())
}

#[test]
fn a_journal_is_begun_once_and_keeps_what_is_done(rt: HostRuntime) -> Result<(), Fail> {
    assert_claimed(&rt, &[], Reply::NoSheet, 1)?;
    assert_claimed(&rt, &[HEADER, SHEET], Reply::Done, 3)
}
