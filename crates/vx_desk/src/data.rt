//! The lines of the desk's data.

ghost use Rattle.std.specs.Prelude.{◌≡◌, ◌++◌, ◌∷◌, [], ◌-◌, ◌*◌, IfOk, OnOk, All, Some, true};
ghost use Rattle.serde_json.specs.View.{view};
ghost use Rattle.serde_json.specs.Written.{members_text};
ghost use Rattle.vx_election_model.specs.Valid.{IsValid};
ghost use Rattle.vx_layout.specs.Plans.{ArePlansOf};
ghost use Rattle.vx_center.specs.Holders.{holder_of};
ghost use Rattle.vx_desk.specs.Regions.{HasFewOptions};
ghost use Rattle.vx_events.specs.Fits.{is_sheet};
ghost use Rattle.vx_sheet.specs.Came.{sheet_read};
ghost use Rattle.vx_sheet.specs.Reads.{IsReadOf};
ghost use Rattle.vx_sheet.specs.Shows.{IsOfPage};
ghost use Rattle.vx_markup.specs.Escaped.{data_line, escaped};
ghost use Rattle.vx_markup.specs.Json.{described, members};
ghost use Rattle.vx_desk.specs.Kept as kept;
ghost use Rattle.vx_desk.specs.Lines as lines;

use crate::contests::push_contests;
use crate::image::Image;
use crate::kept::is_that;
use crate::left::left_over;
use crate::waiting::any_waits;
use serde_json::{Value, json};
use std::alloc::Global;
use vx_base::{Bytes, OutOfMemory};
use vx_bits::BitView;
use vx_center::Center;
use vx_election_model::Election;
use vx_events::Key;
use vx_layout::{CardPlans, plans_show_each_option};
use vx_markup::{push_line, push_members};
use vx_rules::SheetMarks;
use vx_sheet::{PageRead, read_sheet};

/// The batch and the election's title.
fn first_value(alloc: Global, election: &Election, batch: &str) -> Result<Value, OutOfMemory>
    ensures { IfOk result (λ value. view value ≡ lines.first_data election.now batch.now) }
{
    json!(in alloc; {"batch": batch, "election": election.title.as_str()})
}

/// Adds the first line: the batch and the election's title.
#[tactic(auto, unfolding(crate::specs::Lines::first_text))]
pub fn push_first(
    alloc: Global,
    text: &mut Bytes,
    election: &Election,
    batch: &str,
) -> Result<(), OutOfMemory>
    ensures { OnOk result (text.new ≡ text.old ++ lines.first_text election.now batch.now) }
{
    let value = first_value(alloc, election, batch)?;
    push_line(alloc, text, &value)
}

/// Who holds a sheet, or nobody.
fn holder(alloc: Global, center: &Center<'_>, key: &Key) -> Result<Value, OutOfMemory>
    ensures { IfOk result (λ value.
        view value ≡ lines.holder_data (holder_of center.now.events key.now)) }
{
    match center.holder(key) {
        None => Ok(Value::Null),
        Some(station) => json!(in alloc; station),
    }
}

/// What stands behind the contests of a sheet.
fn behind_contests(
    alloc: Global,
    center: &Center<'_>,
    key: &Key,
    scan: &str,
) -> Result<Value, OutOfMemory>
    ensures { IfOk result (λ value.
        view value ≡ described (lines.behind_contests center.now.events key.now scan.now)) }
{
    let holder = holder(alloc, center, key)?;
    json!(in alloc; {"holder": holder, "number": key.number, "scan": scan})
}

/// Adds what stands behind the contests of a sheet, and ends its line.
fn push_behind(
    alloc: Global,
    text: &mut Bytes,
    center: &Center<'_>,
    key: &Key,
    scan: &str,
) -> Result<(), OutOfMemory>
    ensures { OnOk result (text.new ≡ text.old ++ (escaped (members_text true
        (members (lines.behind_contests center.now.events key.now scan.now))) ++ 10 ∷ [])) }
{
    let behind = behind_contests(alloc, center, key, scan)?;
    push_members(alloc, text, &behind)?;
    text.push(b'\n')
}

/// Adds the line of a sheet whose images are what was kept: its contests that wait, one after the other,
/// so that the value and the picture of no more than one are held.
fn push_kept(
    alloc: Global,
    text: &mut Bytes,
    election: &Election,
    center: &Center<'_>,
    key: &Key,
    scan: &str,
    sheet: &SheetMarks,
    first: &Image<'_>,
    second: &Image<'_>,
) -> Result<(), OutOfMemory>
    requires same { center.now.election ≡ election.now }
    requires options { All HasFewOptions election.now.contests }
    requires fits { is_sheet election.now sheet.now ≡ true }
    ensures { OnOk result (text.new ≡ text.old ++ data_line (lines.kept_data election.now
        center.now.events key.now scan.now sheet.now first.now second.now)) }
{
    text.extend_from_slice(b"{\"contests\":")?;
    push_contests(alloc, text, election, center, key, sheet, first, second)?;
    push_behind(alloc, text, center, key, scan)
}

/// A sheet whose images are not what was kept.
fn differing_value(
    alloc: Global,
    center: &Center<'_>,
    key: &Key,
    scan: &str,
) -> Result<Value, OutOfMemory>
    ensures { IfOk result (λ value.
        view value ≡ lines.differing_data center.now.events key.now scan.now) }
{
    let holder = holder(alloc, center, key)?;
    json!(in alloc; {"differs": true, "holder": holder, "number": key.number, "scan": scan})
}

/// Adds its line.
fn push_differing(
    alloc: Global,
    text: &mut Bytes,
    center: &Center<'_>,
    key: &Key,
    scan: &str,
) -> Result<(), OutOfMemory>
    ensures { OnOk result (text.new
        ≡ text.old ++ data_line (lines.differing_data center.now.events key.now scan.now)) }
{
    let value = differing_value(alloc, center, key, scan)?;
    push_line(alloc, text, &value)
}

/// The two images of a sheet, what they were read as, and the name of the scan with the second.
#[derive(Clone, Copy)]
struct Images<'i> {
    scan: &'i str,
    first: &'i BitView<'i>,
    first_read: &'i PageRead,
    second: &'i BitView<'i>,
    second_read: &'i PageRead,
}

/// Adds the line of a sheet whose two images were read as what was kept.
fn push_read(
    alloc: Global,
    text: &mut Bytes,
    election: &Election,
    plans: &CardPlans,
    center: &Center<'_>,
    key: &Key,
    sheet: &SheetMarks,
    images: Images<'_>,
) -> Result<(), OutOfMemory>
    requires valid { IsValid election.now }
    requires plans { ArePlansOf election.now plans.now }
    requires same { center.now.election ≡ election.now }
    requires fits { is_sheet election.now sheet.now ≡ true }
    requires first { IsReadOf election.now images.first.now images.first_read.now }
    requires second { IsReadOf election.now images.second.now images.second_read.now }
    ensures { OnOk result (text.new ≡ text.old ++ data_line (lines.read_data election.now
        center.now.events key.now images.entry.scan.now sheet.now images.entry.first.now
        images.entry.second.now images.entry.first_read.now images.entry.second_read.now)) }
{
    match (images.first_read, images.second_read) {
        (Ok(one), Ok(other)) => {
            let first = Image::new(election, plans, images.first, one);
            let second = Image::new(election, plans, images.second, other);
            let scan = images.scan;
            push_kept(
                alloc, text, election, center, key, scan, sheet, &first, &second,
            )
        }
        _ => push_differing(alloc, text, center, key, images.scan),
    }
}

/// Whether the images of a sheet are read as what was kept.
fn are_kept(
    alloc: Global,
    election: &Election,
    plans: &CardPlans,
    key: &Key,
    sheet: &SheetMarks,
    first: &PageRead,
    second: &PageRead,
) -> Result<bool, OutOfMemory>
    requires valid { IsValid election.now }
    requires plans { ArePlansOf election.now plans.now }
    requires first { IfOk first.now (IsOfPage election.now) }
    requires second { IfOk second.now (IsOfPage election.now) }
    ensures { IfOk result (λ same. same ≡ kept.is_that sheet.now
        (sheet_read election.now (2 * key.now.number - 1) first.now second.now)) }
{
    plans_show_each_option();
    let image = (2 * u64::from(key.number)).saturating_sub(1);
    let read = read_sheet(alloc, election, plans, image, first, second)?;
    Ok(is_that(&read, sheet))
}

/// Adds the line of a sheet by its two images.
fn push_images(
    alloc: Global,
    text: &mut Bytes,
    election: &Election,
    plans: &CardPlans,
    center: &Center<'_>,
    key: &Key,
    sheet: &SheetMarks,
    images: Images<'_>,
) -> Result<(), OutOfMemory>
    requires valid { IsValid election.now }
    requires plans { ArePlansOf election.now plans.now }
    requires same { center.now.election ≡ election.now }
    requires fits { is_sheet election.now sheet.now ≡ true }
    requires first { IsReadOf election.now images.first.now images.first_read.now }
    requires second { IsReadOf election.now images.second.now images.second_read.now }
    ensures { OnOk result (text.new ≡ text.old ++ data_line (lines.sheet_data election.now
        center.now.events key.now images.entry.scan.now sheet.now images.entry.first.now
        images.entry.second.now)) }
{
    let (first, second) = (images.first_read, images.second_read);
    if are_kept(alloc, election, plans, key, sheet, first, second)? {
        push_read(alloc, text, election, plans, center, key, sheet, images)
    } else {
        push_differing(alloc, text, center, key, images.scan)
    }
}

/// Adds the line of a sheet that was added, if a contest of it waits.
fn push_found(
    alloc: Global,
    text: &mut Bytes,
    election: &Election,
    plans: &CardPlans,
    center: &Center<'_>,
    key: &Key,
    sheet: &SheetMarks,
    images: Images<'_>,
) -> Result<(), OutOfMemory>
    requires valid { IsValid election.now }
    requires plans { ArePlansOf election.now plans.now }
    requires same { center.now.election ≡ election.now }
    requires fits { is_sheet election.now sheet.now ≡ true }
    requires first { IsReadOf election.now images.first.now images.first_read.now }
    requires second { IsReadOf election.now images.second.now images.second_read.now }
    ensures { OnOk result (text.new ≡ text.old ++ lines.line_of election.now center.now.events key.now
        images.entry.scan.now images.entry.first.now images.entry.second.now (Some sheet.now)) }
{
    if any_waits(center, key, sheet) {
        push_images(alloc, text, election, plans, center, key, sheet, images)
    } else {
        Ok(())
    }
}

/// Adds the line of the sheet of a batch with a number, of its first and second image and what they
/// were read as, the second of which is in the scan with this name; nothing where no contest of it waits.
#[tactic(auto, unfolding(crate::specs::Lines::sheet_text))]
pub fn push_sheet(
    alloc: Global,
    text: &mut Bytes,
    election: &Election,
    plans: &CardPlans,
    center: &Center<'_>,
    batch: &str,
    scan: &str,
    number: u64,
    first: &BitView<'_>,
    first_read: &PageRead,
    second: &BitView<'_>,
    second_read: &PageRead,
) -> Result<(), OutOfMemory>
    requires valid { IsValid election.now }
    requires plans { ArePlansOf election.now plans.now }
    requires same { center.now.election ≡ election.now }
    requires first { IsReadOf election.now first.now first_read.now }
    requires second { IsReadOf election.now second.now second_read.now }
    ensures { OnOk result (text.new ≡ text.old ++ lines.sheet_text election.now center.now.events
        batch.now scan.now number first.now second.now) }
{
    let images = Images {
        scan,
        first,
        first_read,
        second,
        second_read,
    };
    match center.sheet(batch, number) {
        None => Ok(()),
        Some((key, sheet)) => {
            push_found(alloc, text, election, plans, center, key, sheet, images)
        }
    }
}

/// Adds the last line: of the batch's sheets that wait, the numbers of those behind the first `sheets`,
/// which have no images here, and how many contests wait in all.
#[tactic(auto, unfolding(crate::specs::Lines::last_text))]
pub fn push_last(
    alloc: Global,
    text: &mut Bytes,
    center: &Center<'_>,
    batch: &str,
    sheets: u64,
) -> Result<(), OutOfMemory>
    ensures { OnOk result (text.new
        ≡ text.old ++ lines.last_text center.now.election center.now.events batch.now sheets) }
{
    let value = left_over(alloc, center, batch, sheets)?;
    push_line(alloc, text, &value)
}
