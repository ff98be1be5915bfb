ghost use Rattle.std.specs.Prelude.{◌≡◌, ◌≤◌, ◌<◌, ◌+◌, ◌^◌, ◌++◌, ◌↔◌, [], true, false, IfOk, MatchOption, IsTrue, OnOk, Some, length, slice_get, string_bytes};
ghost use Rattle.vx_election_model.specs.Valid.{IsValid};
ghost use Rattle.vx_events.specs.Fits.{is_read, is_sheet};
ghost use Rattle.vx_center.specs.Histories.{IsHistory};
ghost use Rattle.vx_center.specs.Holders.{holder_of};
ghost use Rattle.vx_rules.specs.Reasons.{is_blank_sheet};
ghost use Rattle.vx_center.specs.States.{is_add};
ghost use Rattle.vx_command_queue.specs.Queue.{contest_lines, queue_lines, wait_lines};
ghost use Rattle.vx_command_queue.specs.Walk.{GotLine, GotLines, IsNextFrom, IsSheetAt, IsUpTo};
ghost use Rattle.std.specs.List.{flat_map};

use crate::lines::push_wait;
use std::alloc::Global;
use vx_base::OutOfMemory;
use vx_center::Center;
use vx_election_model::Election;
use vx_events::{Event, Key};
use vx_rules::{ContestMarks, SheetMarks, is_blank, reasons};

/// The lines so far, how many they are, and what waits next: a sheet by its place in the order of
/// adding, and a contest by its place on the sheet.
#[derive(Drop)]
pub(crate) struct Queue {
    pub(crate) text: String,
    pub(crate) count: usize,
    pub(crate) next: Option<(u32, u32)>,
}

/// Whether what waits next is this contest of this sheet.
fn is_next(next: Option<(u32, u32)>, place: usize, at: usize) -> bool
    ensures { IsTrue result ↔ (next ≡ Some (place, at)) }
{
    match next {
        None => false,
        Some((sheet, contest)) => sheet as usize == place && contest as usize == at,
    }
}

/// The key and the sheet of an Add.
fn added(event: &Event) -> Option<(&Key, &SheetMarks)>
    ensures { MatchOption result (is_add event.now ≡ false)
        (λ parts. event.now ≡ Event.Add parts.0.now parts.1.now) }
{
    match event {
        Event::Add { key, sheet } => Some((key, sheet)),
        Event::Claim { .. } | Event::Release { .. } | Event::Decide { .. } => None,
    }
}

/// Adds the line of a contest of a sheet.
fn push_contest(
    text: &mut String,
    election: &Election,
    center: &Center<'_>,
    key: &Key,
    sheet: &SheetMarks,
    marks: &ContestMarks,
) -> Result<(), OutOfMemory>
    requires { is_read election.now marks.now ≡ true }
    ensures { OnOk result (GotLine
        (contest_lines election.now key.now (is_blank_sheet sheet.now) marks.now
        (holder_of center.now.events key.now) (slice_get election.now.contests marks.now.contest))
        (string_bytes text.old) (string_bytes text.new)) }
{
    let contest = &election.contests.as_slice()[marks.contest as usize];
    let held = reasons(contest, &marks.states, is_blank(sheet), election.reasons);
    push_wait(text, key, contest.id.as_str(), held, center.holder(key))
}

impl Queue {
    /// No lines yet.
    fn new(alloc: Global, center: &Center<'_>) -> Queue
        ensures { IsUpTo center.now.election center.now.events 0 0
            (string_bytes result.text) result.count result.next }
    {
        Queue {
            text: String::new(alloc),
            count: 0,
            next: center.next_waiting(None),
        }
    }

    /// Adds the line of the contest at a place of a sheet, if it waits.
    fn take_contest(
        &mut self,
        election: &Election,
        center: &Center<'_>,
        key: &Key,
        sheet: &SheetMarks,
        place: usize,
        marks: &ContestMarks,
        at: usize,
    ) -> Result<(), OutOfMemory>
        requires same { center.now.election ≡ election.now }
        requires there { IsSheetAt center.now.events place key.now sheet.now }
        requires on { slice_get sheet.now.contests at ≡ Some marks.now }
        requires fits { is_read election.now marks.now ≡ true }
        requires next { IsNextFrom election.now center.now.events place at self.old.next }
        requires room { self.old.count ≤ length (string_bytes self.old.text) }
        ensures lines { OnOk result (GotLines
            (wait_lines election.now center.now.events key.now sheet.now marks.now)
            (string_bytes self.old.text) (string_bytes self.new.text) self.old.count self.new.count) }
        ensures next { OnOk result (IsNextFrom election.now center.now.events place (at + 1) self.new.next) }
        ensures room { OnOk result (self.new.count ≤ length (string_bytes self.new.text)) }
    {
        if is_next(self.next, place, at) {
            push_contest(&mut self.text, election, center, key, sheet, marks)?;
            self.count += 1;
            self.next = center.next_waiting(self.next);
        }
        Ok(())
    }

    /// Adds the lines of a sheet.
    fn take_sheet(
        &mut self,
        election: &Election,
        center: &Center<'_>,
        key: &Key,
        sheet: &SheetMarks,
        place: usize,
    ) -> Result<(), OutOfMemory>
        requires same { center.now.election ≡ election.now }
        requires there { IsSheetAt center.now.events place key.now sheet.now }
        requires fits { is_sheet election.now sheet.now ≡ true }
        requires next { IsNextFrom election.now center.now.events place 0 self.old.next }
        requires room { self.old.count ≤ length (string_bytes self.old.text) }
        ensures lines { OnOk result (GotLines
            (flat_map (wait_lines election.now center.now.events key.now sheet.now) sheet.now.contests)
            (string_bytes self.old.text) (string_bytes self.new.text) self.old.count self.new.count) }
        ensures next { OnOk result (IsNextFrom election.now center.now.events (place + 1) 0 self.new.next) }
        ensures room { OnOk result (self.new.count ≤ length (string_bytes self.new.text)) }
    {
        for (at, marks) in sheet.contests.as_slice().iter().enumerate() {
            self.take_contest(election, center, key, sheet, place, marks, at)?;
        }
        Ok(())
    }

    /// Adds the lines of the sheet that an event adds, if it does. Answers the place of the next sheet.
    fn take_event(
        &mut self,
        election: &Election,
        center: &Center<'_>,
        event: &Event,
        index: usize,
        place: usize,
    ) -> Result<usize, OutOfMemory>
        requires same { center.now.election ≡ election.now }
        requires history { IsHistory election.now center.now.events }
        requires there { slice_get center.now.events index ≡ Some event.now }
        requires up_to { IsUpTo election.now center.now.events index place
            (string_bytes self.old.text) self.old.count self.old.next }
        requires room { self.old.count ≤ length (string_bytes self.old.text) }
        requires few { index + 1 < 2 ^ 64 }
        ensures up_to { IfOk result (λ next. IsUpTo election.now center.now.events (index + 1) next
            (string_bytes self.new.text) self.new.count self.new.next) }
        ensures room { OnOk result (self.new.count ≤ length (string_bytes self.new.text)) }
    {
        match added(event) {
            None => Ok(place),
            Some((key, sheet)) => {
                self.take_sheet(election, center, key, sheet, place)?;
                Ok(place + 1)
            }
        }
    }
}

/// The lines of all that waits.
pub(crate) fn waiting_lines(
    alloc: Global,
    election: &Election,
    center: &Center<'_>,
) -> Result<Queue, OutOfMemory>
    requires { center.now.election ≡ election.now }
    ensures { IfOk result (λ queue. GotLines (queue_lines election.now center.now.events)
        [] (string_bytes queue.text) 0 queue.count) }
{
    let mut queue = Queue::new(alloc, center);
    let mut place = 0;
    for (index, event) in center.events().as_slice().iter().enumerate() {
        place = queue.take_event(election, center, event, index, place)?;
    }
    Ok(queue)
}
