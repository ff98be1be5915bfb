//! Tallies: the totals of the worked report, and drawn adds and removes beside a list that is
//! summed anew, of records among which each id stands twice.

ghost use Rattle.std.specs.Prelude.{◌≡◌, ◌<◌, ◌≤◌, ◌+◌, length, IfOk};
ghost use Rattle.vx_tally.specs.Totals.{AreCountable};

use crate::reports::{WORKED, report_of};
use rand_core::{Rng, SeedableRng};
use rand_pcg::Pcg32;
use std::alloc::Global;
use std::process::Abort;
use std::test::*;
use vx_base::OutOfMemory;
use vx_tally::{CvrRecord, Report, Tally, drop_report, drop_tally};

/// Puts a record of a list into a tally.
fn add_at(
    alloc: Global,
    tally: &mut Tally,
    records: &[CvrRecord],
    place: usize,
) -> Result<(), OutOfMemory>
    requires countable { AreCountable records.now }
    requires there { place < length records.now }
    requires few { length tally.old < 1000000000 }
    ensures { length tally.new ≤ length tally.old + 1 }
{
    tally.add(alloc, &records[place])
}

/// The totals of the worked report.
fn assert_totals<R: Abort>(rt: &R, tally: &Tally) {
    assert_eq!(rt; tally.over(0), 0);
    assert_eq!(rt; tally.under(0), 0);
    assert_eq!(rt; tally.total(0, 0), 0);
    assert_eq!(rt; tally.total(0, 1), 1);
    assert_eq!(rt; tally.total_in(1, 0, 1), 1);
    assert_eq!(rt; tally.total_in(0, 0, 1), 0);
}

/// The tally of a report's first record.
fn tally_of(alloc: Global, report: &Report) -> Result<Tally, OutOfMemory>
    requires { AreCountable report.now.records }
{
    let mut tally = Tally::new(alloc);
    if !report.records.is_empty() {
        add_at(alloc, &mut tally, report.records.as_slice(), 0)?;
    }
    Ok(tally)
}

#[test]
fn the_worked_totals(rt: HostRuntime) -> Result<(), Fail> {
    let report = report_of(rt.alloc(), WORKED)?;
    let made = tally_of(rt.alloc(), &report);
    drop_report(report);
    let tally = made?;
    assert_totals(&rt, &tally);
    drop_tally(tally);
    Ok(())
}

fn below(rng: &mut Pcg32, bound: u32) -> u32 {
    rng.next_u32().checked_rem(bound).unwrap_or(0)
}

// So many rows of a contest.
fn push_rows(
    text: &mut String,
    rng: &mut Pcg32,
    contest: u32,
    rows: u32,
) -> Result<(), OutOfMemory> {
    for row in 0..rows {
        let comma = if row == 0 { "" } else { "," };
        let selection = below(rng, 3);
        let votes = below(rng, 3);
        write!(
            text,
            "{comma}{{\"ContestSelectionId\":\"s{contest}-{selection}\",\"SelectionPosition\":[{{\"NumberVotes\":{votes}}}]}}"
        )?;
    }
    Ok(())
}

// The first contests of a record, so many, each with its rows.
fn push_contests(text: &mut String, rng: &mut Pcg32, count: u32) -> Result<(), OutOfMemory> {
    for contest in 0..count {
        let comma = if contest == 0 { "" } else { "," };
        let over = below(rng, 3);
        let under = below(rng, 51);
        write!(
            text,
            "{comma}{{\"ContestId\":\"c{contest}\",\"Overvotes\":{over},\"Undervotes\":{under},\"CVRContestSelection\":["
        )?;
        let rows = below(rng, 4);
        push_rows(text, rng, contest, rows)?;
        text.push_str("]}")?;
    }
    Ok(())
}

// The units and the contests of a report, with three selections each.
fn push_lists(text: &mut String) -> Result<(), OutOfMemory> {
    text.push_str("{\"GpUnit\":[{\"@id\":\"u0\"},{\"@id\":\"u1\"},{\"@id\":\"u2\"}],")?;
    text.push_str("\"Election\":[{\"Contest\":[")?;
    for contest in 0..4u32 {
        let comma = if contest == 0 { "" } else { "," };
        write!(
            text,
            "{comma}{{\"@id\":\"c{contest}\",\"ContestSelection\":[{{\"@id\":\"s{contest}-0\"}},{{\"@id\":\"s{contest}-1\"}},{{\"@id\":\"s{contest}-2\"}}]}}"
        )?;
    }
    text.push_str("]}],")
}

// A record, whole or of up to three contests.
fn push_record(
    text: &mut String,
    rng: &mut Pcg32,
    record: u32,
    whole: bool,
) -> Result<(), OutOfMemory> {
    let comma = if record == 0 { "" } else { "," };
    let unit = below(rng, 3);
    write!(
        text,
        "{comma}{{\"UniqueId\":\"r-{record}\",\"BallotStyleUnitId\":\"u{unit}\",\"CVRSnapshot\":[{{\"CVRContest\":["
    )?;
    let count = if whole { 4 } else { below(rng, 4) };
    push_contests(text, rng, count)?;
    text.push_str("]}]}")
}

// A report of forty records of three units and four contests with three selections each: whole
// records have all four contests, the others up to three.
fn drawn(alloc: Global, rng: &mut Pcg32, whole: bool) -> Result<String, OutOfMemory> {
    let mut text = String::new(alloc);
    push_lists(&mut text)?;
    text.push_str("\"CVR\":[")?;
    for record in 0..40u32 {
        push_record(&mut text, rng, record, whole)?;
    }
    text.push_str("]}")?;
    Ok(text)
}

// What a record says: the votes for a selection of a contest, and its overvotes and undervotes.
fn said(record: &CvrRecord, contest: u32, selection: u32) -> (u64, u64, u64) {
    let mut sums = (0u64, 0u64, 0u64);
    for counted in record.contests.as_slice() {
        if counted.contest == contest {
            sums.1 = sums.1.saturating_add(u64::from(counted.over));
            sums.2 = sums.2.saturating_add(u64::from(counted.under));
            for row in counted.votes.as_slice() {
                if row.selection == selection {
                    sums.0 = sums.0.saturating_add(u64::from(row.votes));
                }
            }
        }
    }
    sums
}

// Two lists of forty records with the same ids, of which no two are equal.
#[derive(Clone, Copy)]
struct Lists<'r> {
    one: &'r [CvrRecord],
    other: &'r [CvrRecord],
}

// The record at a place of the one list and then of the other.
fn record_at<'r>(lists: Lists<'r>, place: usize) -> Option<&'r CvrRecord> {
    match lists.one.get(place) {
        Some(record) => Some(record),
        None => lists.other.get(place.saturating_sub(40)),
    }
}

// Whether the tally says of a selection what the records that are in sum up to.
fn agrees(tally: &Tally, lists: Lists<'_>, held: &[usize], contest: u32, selection: u32) -> bool {
    let mut all = (0u64, 0u64, 0u64);
    let mut units = [0u64; 3];
    for place in held {
        if let Some(record) = record_at(lists, *place) {
            let sums = said(record, contest, selection);
            all.0 = all.0.saturating_add(sums.0);
            all.1 = all.1.saturating_add(sums.1);
            all.2 = all.2.saturating_add(sums.2);
            if let Some(unit) = units.get_mut(record.unit as usize) {
                *unit = unit.saturating_add(sums.0);
            }
        }
    }
    tally.total(contest, selection) == all.0
        && tally.over(contest) == all.1
        && tally.under(contest) == all.2
        && tally.total_in(0, contest, selection) == units[0]
        && tally.total_in(1, contest, selection) == units[1]
        && tally.total_in(2, contest, selection) == units[2]
}

fn agrees_on_all(tally: &Tally, lists: Lists<'_>, held: &[usize]) -> bool {
    let mut agree = true;
    for contest in 0..5u32 {
        for selection in 0..4u32 {
            agree = agree && agrees(tally, lists, held, contest, selection);
        }
    }
    agree
}

// A record put in or taken out, in the tally and among those that are held, by its place behind
// the first; whether both knew it.
fn take_step(
    alloc: Global,
    rng: &mut Pcg32,
    tally: &mut Tally,
    records: &[CvrRecord],
    first: usize,
    held: &mut Vec<usize>,
) -> Result<bool, OutOfMemory>
    requires countable { AreCountable records.now }
    requires few { length tally.old < 1000000000 }
    ensures { length tally.new ≤ length tally.old + 1 }
{
    let place = below(rng, 40) as usize;
    let adds = below(rng, 2) == 0;
    if place >= records.len() {
        return Ok(false);
    }
    let own = first.saturating_add(place);
    if adds {
        held.push(own)?;
        add_at(alloc, tally, records, place)?;
        return Ok(true);
    }
    let found = held.iter().position(|one| *one == own);
    if !tally.holds(&records[place]) {
        return Ok(found.is_none());
    }
    tally.remove(&records[place]);
    if let Some(at) = found {
        held.remove(at);
    }
    Ok(found.is_some())
}

// A step with a record of one of two lists, which have the same ids.
fn take_either(
    alloc: Global,
    rng: &mut Pcg32,
    tally: &mut Tally,
    one: &[CvrRecord],
    other: &[CvrRecord],
    held: &mut Vec<usize>,
) -> Result<bool, OutOfMemory>
    requires one { AreCountable one.now }
    requires other { AreCountable other.now }
    requires few { length tally.old < 1000000000 }
    ensures { length tally.new ≤ length tally.old + 1 }
{
    if below(rng, 2) == 0 {
        take_step(alloc, rng, tally, one, 0, held)
    } else {
        take_step(alloc, rng, tally, other, 40, held)
    }
}

// Steps on a tally of those records; whether the tally always said what those that are held sum up
// to.
fn steps_agree(
    alloc: Global,
    rng: &mut Pcg32,
    one: &[CvrRecord],
    other: &[CvrRecord],
) -> Result<bool, OutOfMemory>
    requires one { AreCountable one.now }
    requires other { AreCountable other.now }
{
    let mut tally = Tally::new(alloc);
    let mut held = Vec::new(alloc);
    let mut agree = true;
    for step in 0..10_000u32 {
        let knew = take_either(alloc, rng, &mut tally, one, other, &mut held)?;
        agree = agree && knew;
        if step % 16 == 0 {
            agree = agree && agrees_on_all(&tally, Lists { one, other }, &held);
        }
    }
    Ok(agree)
}

// A report that is drawn.
fn drawn_report(alloc: Global, rng: &mut Pcg32, whole: bool) -> Result<Report, Fail>
    ensures { IfOk result (λ report. AreCountable report.records) }
{
    let text = drawn(alloc, rng, whole)?;
    report_of(alloc, text.as_str())
}

// Steps with the forty records of each of two reports agree.
fn assert_steps<R: Abort>(
    rt: &R,
    alloc: Global,
    rng: &mut Pcg32,
    one: &Report,
    other: &Report,
) -> Result<(), Fail>
    requires one { AreCountable one.now.records }
    requires other { AreCountable other.now.records }
{
    assert_eq!(rt; one.records.len(), 40);
    assert_eq!(rt; other.records.len(), 40);
    assert!(rt; steps_agree(alloc, rng, one.records.as_slice(), other.records.as_slice())?);
    Ok(())
}

// The same behind the first report.
fn assert_behind<R: Abort>(rt: &R, alloc: Global, rng: &mut Pcg32, one: &Report) -> Result<(), Fail>
    requires { AreCountable one.now.records }
{
    let other = drawn_report(alloc, rng, true)?;
    let done = assert_steps(rt, alloc, rng, one, &other);
    drop_report(other);
    done
}

#[test]
fn drawn_steps_beside_a_list(rt: HostRuntime) -> Result<(), Fail> {
    let mut rng = Pcg32::seed_from_u64(7);
    let one = drawn_report(rt.alloc(), &mut rng, false)?;
    let done = assert_behind(&rt, rt.alloc(), &mut rng, &one);
    drop_report(one);
    done
}
