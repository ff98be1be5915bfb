//! A center and the second machine, side by side.

use crate::finals::{is_before, is_row, queue_of};
use crate::machine::{answer_to, holder_in};
use std::alloc::Global;
use std::process::Abort;
use std::test::Fail;
use vx_base::OutOfMemory;
use vx_center::{Center, Decision, Event, ExportSheet, Reply, WriteInName};
use vx_election_model::Election;

/// How many events were answered with each reply, how many of each kind were kept, and how much was
/// waiting and exported when it was looked at.
#[derive(Debug, Drop)]
pub(crate) struct Met {
    pub(crate) replies: [u32; 11],
    pub(crate) kept: [u32; 8],
    pub(crate) waiting: usize,
    pub(crate) exported: usize,
}

impl Met {
    pub(crate) fn new() -> Met {
        Met {
            replies: [0; 11],
            kept: [0; 8],
            waiting: 0,
            exported: 0,
        }
    }
}

fn count(counts: &mut [u32], place: usize) {
    if let Some(number) = counts.get_mut(place) {
        *number = number.saturating_add(1);
    }
}

/// A reply's number.
fn number_of(reply: Reply) -> usize {
    match reply {
        Reply::Done => 0,
        Reply::Repeated(_) => 1,
        Reply::NoSheet => 2,
        Reply::HeldBy(_) => 3,
        Reply::NotHeld => 4,
        Reply::NotOnSheet(_) => 5,
        Reply::NotAnOption(_) => 6,
        Reply::OverSeats(_, _) => 7,
        Reply::StillMarginal(_) => 8,
        Reply::NoWriteIn(_) => 9,
        Reply::Full(_) => 10,
    }
}

/// A kind of event, as a number below 8.
fn kind_of(event: &Event) -> usize {
    match event {
        Event::Add { .. } => 0,
        Event::Claim { .. } => 1,
        Event::Release { .. } => 2,
        Event::Decide { decision, .. } => match decision {
            Decision::Selections(_) => 3,
            Decision::RuledOvervote => 4,
            Decision::AcceptRead => 5,
            Decision::NameWriteIn { name, .. } => match name {
                WriteInName::Words(_) => 6,
                WriteInName::Candidate(_) => 7,
            },
        },
    }
}

/// The answer to an event that fits.
pub(crate) fn answer_of(
    alloc: Global,
    center: &mut Center<'_>,
    event: &Event,
) -> Result<Option<Reply>, OutOfMemory> {
    if center.fits(event) {
        Ok(Some(center.apply(alloc, event)?))
    } else {
        Ok(None)
    }
}

/// Whether the same station holds an event's sheet, or none.
fn is_held_alike(center: &Center<'_>, kept: &[Event], event: &Event) -> bool {
    let (Event::Add { key, .. }
    | Event::Claim { key, .. }
    | Event::Release { key, .. }
    | Event::Decide { key, .. }) = event;
    center.holder(key) == holder_in(kept, key)
}

/// Hands both an event.
pub(crate) fn compare_answers<R: Abort + AllocGlobal>(
    rt: &R,
    center: &mut Center<'_>,
    election: &Election,
    kept: &mut Vec<Event>,
    event: &Event,
    met: &mut Met,
) -> Result<(), Fail> {
    let wanted = answer_to(election, kept.as_slice(), event);
    assert_eq!(rt;
        answer_of(rt.alloc(), center, event)?,
        Some(wanted),
        "{event:?}"
    );
    count(&mut met.replies, number_of(wanted));
    if wanted == Reply::Done {
        count(&mut met.kept, kind_of(event));
        kept.push(event.copy(rt.alloc())?)?;
    }
    assert!(rt; center.events().len() == kept.len());
    assert!(rt; is_held_alike(center, kept.as_slice(), event), "{event:?}");
    Ok(())
}

/// Walks the queue from place to place, and looks for what waits behind pairs of all kinds.
fn compare_queues<R: Abort + AllocGlobal>(
    rt: &R,
    center: &Center<'_>,
    queue: &[(u32, u32)],
) -> Result<(), Fail> {
    let mut after = None;
    for pair in queue {
        let next = center.next_waiting(after);
        assert!(rt; next == Some(*pair), "{next:?} behind {after:?}");
        after = next;
    }
    assert!(rt; center.next_waiting(after) == None);
    for sheet in 0..300u32 {
        for contest in 0..6u32 {
            let from = (sheet, contest);
            let next = queue.iter().copied().find(|pair| from < *pair);
            assert!(rt; center.next_waiting(Some(from)) == next, "{from:?}");
        }
    }
    Ok(())
}

/// Goes through the rows that are exported.
fn compare_rows<R: Abort + AllocGlobal>(
    rt: &R,
    election: &Election,
    kept: &[Event],
    rows: &[ExportSheet],
) -> Result<(), Fail> {
    let mut last: Option<&ExportSheet> = None;
    for row in rows {
        assert!(rt; is_row(election, kept, row), "{row:?}");
        if let Some(before) = last {
            assert!(rt; is_before(&before.key, &row.key), "{row:?}");
        }
        last = Some(row);
    }
    let added = kept
        .iter()
        .filter(|event| matches!(event, Event::Add { .. }));
    assert!(rt; added.count() == rows.len());
    Ok(())
}

/// Compares all that waits and all that is exported.
pub(crate) fn compare_all<R: Abort + AllocGlobal>(
    rt: &R,
    center: &Center<'_>,
    election: &Election,
    kept: &[Event],
    met: &mut Met,
) -> Result<(), Fail> {
    let queue = queue_of(rt.alloc(), election, kept)?;
    compare_queues(rt, center, queue.as_slice())?;
    let rows = center.export_rows(rt.alloc())?;
    compare_rows(rt, election, kept, rows.as_slice())?;
    met.waiting = queue.len();
    met.exported = rows.len();
    Ok(())
}
