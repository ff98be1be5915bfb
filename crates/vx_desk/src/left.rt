//! What is left over of a batch: the sheets that wait without images, and how many contests wait.

ghost use Rattle.std.specs.Prelude.{◌≡◌, ◌++◌, IfOk, OnOk, length, map, true, filter};
ghost use Rattle.std.specs.List.{list_all};
ghost use Rattle.serde_json.specs.View.{view};
ghost use Rattle.vx_events.specs.Fits.{Fits, is_read, is_sheet};
ghost use Rattle.vx_center.specs.Waiting.{contest_waits};
ghost use Rattle.vx_desk.specs.Left as spec;
ghost use Rattle.vx_desk.specs.Lines as lines;
ghost use Rattle.vx_desk.specs.Waits as waits;

use crate::waiting::any_waits;
use serde_json::{Value, json};
use std::alloc::Global;
use vx_base::OutOfMemory;
use vx_center::{Center, added};
use vx_events::{Event, Key};
use vx_rules::{ContestMarks, SheetMarks, is_blank};

/// What is left over of the sheets so far.
#[derive(Drop)]
struct Left {
    missing: Vec<Value>,
    waiting: u64,
}

/// How many of these contests of a sheet wait.
#[tactic(auto, using(crate::proofs::Steps::count_more, crate::proofs::Steps::count_same, crate::proofs::Steps::count_none))]
fn count_of(center: &Center<'_>, key: &Key, sheet_blank: bool, contests: &[ContestMarks]) -> u64
    requires { list_all (is_read center.now.election) contests.now ≡ true }
    ensures { result ≡ length (filter
        (contest_waits center.now.election center.now.events key.now sheet_blank) contests.now) }
{
    let mut count = 0;
    for marks in contests {
        if center.waits(key, sheet_blank, marks) {
            count += 1;
        }
    }
    count
}

/// How many contests of a sheet wait.
fn waiting_of(center: &Center<'_>, key: &Key, sheet: &SheetMarks) -> u64
    requires { is_sheet center.now.election sheet.now ≡ true }
    ensures { result ≡ length (waits.waiting_contests center.now.election center.now.events key.now sheet.now) }
{
    count_of(center, key, is_blank(sheet), sheet.contests.as_slice())
}

/// Adds a sheet's number, if it is behind the first so many.
fn push_missing(
    alloc: Global,
    missing: &mut Vec<Value>,
    key: &Key,
    sheets: u64,
) -> Result<(), OutOfMemory>
    ensures { OnOk result (map view missing.new.items
        ≡ map view missing.old.items ++ spec.missing_if sheets key.now) }
{
    if sheets < u64::from(key.number) {
        missing.push(json!(in alloc; key.number)?)?;
    }
    Ok(())
}

impl Left {
    /// Takes a sheet with contests that wait. So many contests that their number doesn't fit are more than
    /// memory has.
    fn take_sheet(
        &mut self,
        alloc: Global,
        center: &Center<'_>,
        key: &Key,
        sheet: &SheetMarks,
        sheets: u64,
    ) -> Result<(), OutOfMemory>
        requires { is_sheet center.now.election sheet.now ≡ true }
        ensures { OnOk result (spec.Grew (spec.missing_if sheets key.now)
            (length (waits.waiting_contests center.now.election center.now.events key.now sheet.now))
            (map view self.old.missing.items) self.old.waiting
            (map view self.new.missing.items) self.new.waiting) }
    {
        let count = waiting_of(center, key, sheet);
        let Some(waiting) = self.waiting.checked_add(count) else {
            return Err(OutOfMemory);
        };
        self.waiting = waiting;
        push_missing(alloc, &mut self.missing, key, sheets)
    }

    /// Takes the sheet that an event adds, if it is of the batch and a contest of it waits.
    #[tactic(auto, using(crate::proofs::LeftOver::grew_none, crate::proofs::LeftOver::grew_other, crate::proofs::LeftOver::grew_by))]
    fn take_event(
        &mut self,
        alloc: Global,
        center: &Center<'_>,
        event: &Event,
        batch: &str,
        sheets: u64,
    ) -> Result<(), OutOfMemory>
        requires { Fits center.now.election event.now }
        ensures { OnOk result (spec.Grew
            (spec.missing_by center.now.election center.now.events batch.now sheets event.now)
            (spec.waiting_by center.now.election center.now.events batch.now event.now)
            (map view self.old.missing.items) self.old.waiting
            (map view self.new.missing.items) self.new.waiting) }
    {
        match added(event) {
            None => Ok(()),
            Some((key, sheet)) => {
                if key.batch.as_str() == batch && any_waits(center, key, sheet) {
                    self.take_sheet(alloc, center, key, sheet, sheets)?;
                }
                Ok(())
            }
        }
    }
}

/// The sheets that are missing and the contests that wait, of all events.
#[tactic(auto, using(crate::proofs::LeftOver::so_far_more, crate::proofs::LeftOver::so_far_first, crate::proofs::LeftOver::so_far_last))]
fn left_of(
    alloc: Global,
    center: &Center<'_>,
    batch: &str,
    sheets: u64,
) -> Result<Left, OutOfMemory>
    ensures { IfOk result (λ left.
        (map view left.missing.items
        ≡ spec.missing_from center.now.election center.now.events batch.now sheets 0 center.now.events)
        × (left.waiting
        ≡ spec.waiting_from center.now.election center.now.events batch.now 0 center.now.events)) }
{
    let mut left = Left {
        missing: Vec::new(alloc),
        waiting: 0,
    };
    for event in center.events().as_slice() {
        left.take_event(alloc, center, event, batch, sheets)?;
    }
    Ok(left)
}

/// What is left over, as an object.
fn value_of(alloc: Global, left: Left) -> Result<Value, OutOfMemory>
    ensures { IfOk result (λ value. view value ≡ lines.left_data (map view left.missing.items) left.waiting) }
{
    let Left { missing, waiting } = left;
    json!(in alloc; {"missing": missing, "waiting": waiting})
}

/// What is left over of a batch, behind the first so many sheets.
pub(crate) fn left_over(
    alloc: Global,
    center: &Center<'_>,
    batch: &str,
    sheets: u64,
) -> Result<Value, OutOfMemory>
    ensures { IfOk result (λ value.
        view value ≡ lines.last_data center.now.election center.now.events batch.now sheets) }
{
    let left = left_of(alloc, center, batch, sheets)?;
    value_of(alloc, left)
}
