//! A contest that waits, with all that its decision needs.

ghost use Rattle.std.specs.Prelude.{◌≡◌, ◌<◌, ◌^◌, ◌++◌, All, IfOk, OnOk, map, true, false, filter};
ghost use Rattle.serde_json.specs.View.{items_of, view};
ghost use Rattle.serde_json.specs.Written.{comma_if, compact_text, items_text};
ghost use Rattle.vx_desk.specs.Regions.{HasFewOptions};
ghost use Rattle.vx_events.specs.Fits.{is_read, is_sheet};
ghost use Rattle.std.specs.List.{list_all};
ghost use Rattle.vx_desk.specs.Contests as spec;
ghost use Rattle.vx_markup.specs.Escaped.{escaped};
ghost use Rattle.vx_desk.specs.Lines as lines;
ghost use Rattle.vx_center.specs.Waiting.{contest_waits};

use crate::image::{Image, image_with};
use crate::options::{options_of, reasons_of};
use crate::picture::picture;
use crate::region::region_round;
use serde_json::{Value, json};
use std::alloc::Global;
use vx_base::{Bytes, OutOfMemory};
use vx_center::Center;
use vx_election_model::{Contest, Election, ReasonSet};
use vx_events::Key;
use vx_markup::push_item;
use vx_rules::{ContestMarks, SheetMarks, is_blank, reasons};

/// A contest by its parts.
fn contest_with(
    alloc: Global,
    contest: &Contest,
    options: Value,
    page: u32,
    picture: Value,
    reasons: Value,
) -> Result<Value, OutOfMemory>
    ensures { IfOk result (λ value. view value
        ≡ spec.contest_with contest.now (view options) page (view picture) (view reasons)) }
{
    json!(in alloc; {
        "id": contest.id.as_str(),
        "options": options,
        "page": page,
        "picture": picture,
        "reasons": reasons,
        "seats": contest.seats,
        "title": contest.title.as_str()
    })
}

/// A contest with the reasons why it waits, on the page that shows it.
fn contest_in(
    alloc: Global,
    contest: &Contest,
    number: u32,
    set: ReasonSet,
    image: &Image<'_>,
) -> Result<Value, OutOfMemory>
    requires { HasFewOptions contest.now }
    ensures { IfOk result (λ value. view value ≡ spec.contest_in contest.now number set image.now) }
{
    let region = region_round(image, contest, number);
    let options = options_of(alloc, contest, number, image, region)?;
    let picture = picture(alloc, image, region)?;
    let words = reasons_of(alloc, set)?;
    contest_with(alloc, contest, options, image.page(), picture, words)
}

/// A contest as it was read, which the election has, on the page that shows it.
#[tactic(auto, unfolding(crate::specs::Contests::contest_data))]
fn contest_data(
    alloc: Global,
    election: &Election,
    sheet_blank: bool,
    marks: &ContestMarks,
    image: &Image<'_>,
) -> Result<Value, OutOfMemory>
    requires options { All HasFewOptions election.now.contests }
    requires read { is_read election.now marks.now ≡ true }
    ensures { IfOk result (λ value. view value
        ≡ spec.contest_data election.now sheet_blank marks.now image.now) }
{
    let contest = &election.contests.as_slice()[marks.contest as usize];
    let set = reasons(contest, &marks.states, sheet_blank, election.reasons);
    contest_in(alloc, contest, marks.contest, set, image)
}

/// Adds a contest of a sheet behind others of a list. Its value goes once its text stands.
fn push_contest(
    alloc: Global,
    text: &mut Bytes,
    election: &Election,
    sheet_blank: bool,
    marks: &ContestMarks,
    is_later: bool,
    first: &Image<'_>,
    second: &Image<'_>,
) -> Result<(), OutOfMemory>
    requires options { All HasFewOptions election.now.contests }
    requires read { is_read election.now marks.now ≡ true }
    ensures { OnOk result (text.new ≡ text.old ++ (comma_if is_later ++ escaped (compact_text
        (lines.contest_on election.now sheet_blank first.now second.now marks.now)))) }
{
    let image = image_with(marks.contest, first, second);
    let value = contest_data(alloc, election, sheet_blank, marks, image)?;
    push_item(alloc, text, is_later, &value)
}

/// Adds those of some contests of a sheet that wait, in order, as the items of a list, and the list's
/// closing bracket.
#[tactic(auto, using(crate::proofs::Texts::item_more, crate::proofs::Texts::item_passed, crate::proofs::Texts::items_end))]
fn push_items(
    alloc: Global,
    text: &mut Bytes,
    election: &Election,
    center: &Center<'_>,
    key: &Key,
    sheet_blank: bool,
    contests: &[ContestMarks],
    first: &Image<'_>,
    second: &Image<'_>,
) -> Result<(), OutOfMemory>
    requires same { center.now.election ≡ election.now }
    requires options { All HasFewOptions election.now.contests }
    requires read { list_all (is_read election.now) contests.now ≡ true }
    ensures { OnOk result (text.new ≡ text.old ++ escaped (items_text false (items_of
        (map (lines.contest_on election.now sheet_blank first.now second.now) (filter
        (contest_waits election.now center.now.events key.now sheet_blank) contests.now))))) }
{
    let mut is_later = false;
    for marks in contests {
        if center.waits(key, sheet_blank, marks) {
            push_contest(
                alloc,
                text,
                election,
                sheet_blank,
                marks,
                is_later,
                first,
                second,
            )?;
            is_later = true;
        }
    }
    text.push(b']')
}

/// Adds the contests of a sheet that wait, in the sheet's order.
pub(crate) fn push_contests(
    alloc: Global,
    text: &mut Bytes,
    election: &Election,
    center: &Center<'_>,
    key: &Key,
    sheet: &SheetMarks,
    first: &Image<'_>,
    second: &Image<'_>,
) -> Result<(), OutOfMemory>
    requires same { center.now.election ≡ election.now }
    requires options { All HasFewOptions election.now.contests }
    requires fits { is_sheet election.now sheet.now ≡ true }
    ensures { OnOk result (text.new ≡ text.old ++ escaped (compact_text (lines.contests_of
        election.now center.now.events key.now sheet.now first.now second.now))) }
{
    let blank = is_blank(sheet);
    let contests = sheet.contests.as_slice();
    text.push(b'[')?;
    push_items(
        alloc, text, election, center, key, blank, contests, first, second,
    )
}
