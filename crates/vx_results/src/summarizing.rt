//! The text of a summary.

ghost use Rattle.std.specs.Prelude.{◌≡◌, ◌<◌, ◌++◌, All, [], IfOk, OnOk, length, string_bytes};
ghost use Rattle.vx_election_model.specs.Valid.{IsValid};
ghost use Rattle.vx_audit.specs.Sized.{HasFew};
ghost use Rattle.vx_audit.specs.Walk.{by_place};
ghost use Rattle.vx_center.specs.Sheets.{sheets_in};
ghost use Rattle.vx_results.specs.Counted as spec;
ghost use Rattle.vx_results.specs.Frame.{IsFrame};
ghost use Rattle.vx_results.specs.Summary as lines;

use crate::contests::{contests_of, units_of};
use crate::group_lines::{push_all_sheets, push_groups};
use crate::groups::groups_of;
use crate::kinds::kinds_in;
use crate::standing::{card_contests, contest_units, precinct_units};
use crate::summing::{Figures, add_sheets, drop_figures, no_figures};
use crate::text_lines::{push_batches, push_names, push_waiting};
use std::alloc::Global;
use vx_base::OutOfMemory;
use vx_center::Center;
use vx_election_model::{Election, Indexes};
use vx_json::Texts;
use vx_styles::{CardList, cards};
use vx_tally::{ReportContest, ReportContests};

/// What stands around the figures of a summary.
#[derive(Drop)]
pub(crate) struct Frame {
    /// The election's cards.
    pub(crate) cards: CardList,
    /// The contests of each card.
    pub(crate) lists: Vec<Indexes>,
    /// The kinds that have lines.
    pub(crate) kinds: Vec<u32>,
    /// The names of the units.
    pub(crate) units: Texts,
    pub(crate) contests: ReportContests,
}

fn frame_of(alloc: Global, election: &Election, center: &Center<'_>) -> Result<Frame, OutOfMemory>
    requires { IsValid election.now }
    ensures { IfOk result (IsFrame election.now center.now.events) }
{
    let cards = cards(alloc, election)?;
    let lists = card_contests(alloc, election, cards.as_slice())?;
    Ok(Frame {
        cards,
        lists,
        kinds: kinds_in(alloc, center)?,
        units: units_of(alloc, election)?,
        contests: contests_of(alloc, election)?,
    })
}

/// Adds how many sheets each kind has in each unit.
fn push_units(
    alloc: Global,
    text: &mut String,
    election: &Election,
    center: &Center<'_>,
    frame: &Frame,
    figures: &Figures,
) -> Result<(), OutOfMemory>
    requires valid { IsValid election.now }
    requires frame { IsFrame election.now center.now.events frame.now }
    ensures { OnOk result (string_bytes text.new ≡ string_bytes text.old
        ++ spec.kept_sheets election.now center.now.events figures.now) }
{
    let units = precinct_units(alloc, election)?;
    let groups = groups_of(alloc, frame.kinds.as_slice(), units.as_slice())?;
    let (names, piles) = (frame.units.as_slice(), figures.piles.as_slice());
    push_all_sheets(text, names, piles, groups.as_slice())
}

/// Adds the lines of the groups of the contest at a place.
fn push_counts(
    alloc: Global,
    text: &mut String,
    election: &Election,
    center: &Center<'_>,
    frame: &Frame,
    figures: &Figures,
    place: u32,
    contest: &ReportContest,
) -> Result<(), OutOfMemory>
    requires valid { IsValid election.now }
    requires frame { IsFrame election.now center.now.events frame.now }
    requires few { HasFew contest.now }
    ensures { OnOk result (string_bytes text.new ≡ string_bytes text.old
        ++ spec.kept_counts election.now center.now.events figures.now place contest.now) }
{
    let (cards, lists) = (frame.cards.as_slice(), frame.lists.as_slice());
    let units = contest_units(alloc, election, cards, lists, place)?;
    let groups = groups_of(alloc, frame.kinds.as_slice(), units.as_slice())?;
    let (names, piles) = (frame.units.as_slice(), figures.piles.as_slice());
    push_groups(text, names, piles, place, contest, groups.as_slice())
}

/// Adds the lines of the contest at a place.
fn push_contest(
    alloc: Global,
    text: &mut String,
    election: &Election,
    center: &Center<'_>,
    frame: &Frame,
    figures: &Figures,
    place: u32,
    contest: &ReportContest,
) -> Result<(), OutOfMemory>
    requires valid { IsValid election.now }
    requires frame { IsFrame election.now center.now.events frame.now }
    requires few { HasFew contest.now }
    requires there { place < length figures.now.names.items }
    ensures { OnOk result (string_bytes text.new ≡ string_bytes text.old
        ++ spec.kept_contest election.now center.now.events figures.now place contest.now) }
{
    push_counts(
        alloc, text, election, center, frame, figures, place, contest,
    )?;
    push_names(text, contest.id.as_str(), &figures.names[place as usize])?;
    Ok(())
}

/// Adds the lines of all contests.
fn push_contests(
    alloc: Global,
    text: &mut String,
    election: &Election,
    center: &Center<'_>,
    frame: &Frame,
    figures: &Figures,
) -> Result<(), OutOfMemory>
    requires valid { IsValid election.now }
    requires frame { IsFrame election.now center.now.events frame.now }
    requires few { All HasFew frame.now.contests }
    requires there { length figures.now.names.items ≡ length frame.now.contests }
    ensures { OnOk result (string_bytes text.new ≡ string_bytes text.old
        ++ by_place (spec.kept_contest election.now center.now.events figures.now) 0 frame.now.contests) }
{
    let contests = frame.contests.as_slice();
    for (place, contest) in contests.iter().enumerate() {
        push_contest(
            alloc,
            text,
            election,
            center,
            frame,
            figures,
            place as u32,
            contest,
        )?;
    }
    Ok(())
}

/// The text of what was counted of all sheets.
fn text_of(
    alloc: Global,
    election: &Election,
    center: &Center<'_>,
    frame: &Frame,
    figures: &Figures,
) -> Result<String, OutOfMemory>
    requires valid { IsValid election.now }
    requires frame { IsFrame election.now center.now.events frame.now }
    requires counted { spec.AreFigures election.now center.now.events (sheets_in center.now.events) figures.now }
    ensures { IfOk result (λ text. string_bytes text
        ≡ spec.kept_text election.now center.now.events figures.now) }
{
    let mut text = String::new(alloc);
    push_units(alloc, &mut text, election, center, frame, figures)?;
    push_batches(&mut text, &figures.sheets, &figures.waits)?;
    push_contests(alloc, &mut text, election, center, frame, figures)?;
    push_waiting(&mut text, figures.waiting)?;
    Ok(text)
}

/// Counts the sheets, and makes the text of what was counted.
fn counted_text(
    alloc: Global,
    election: &Election,
    center: &Center<'_>,
    frame: &Frame,
    figures: &mut Figures,
) -> Result<String, OutOfMemory>
    requires valid { IsValid election.now }
    requires same { center.now.election ≡ election.now }
    requires frame { IsFrame election.now center.now.events frame.now }
    requires none { spec.AreFigures election.now center.now.events [] figures.old }
    ensures { IfOk result (λ text. string_bytes text ≡ lines.summary_text election.now center.now.events) }
{
    add_sheets(alloc, figures, election, frame.cards.as_slice(), center)?;
    let text = text_of(alloc, election, center, frame, figures)?;
    Ok(text)
}

/// Every figure of a results report, as lines: how many sheets were added by unit and kind and by batch, and for
/// each contest its votes, over votes and undervotes by unit and kind and the names that were written in, and
/// last how many contests wait. The only refusal is want of memory.
pub(crate) fn summary_text(
    alloc: Global,
    election: &Election,
    center: &Center<'_>,
) -> Result<String, OutOfMemory>
    requires valid { IsValid election.now }
    requires same { center.now.election ≡ election.now }
    ensures { IfOk result (λ text. string_bytes text
        ≡ lines.summary_text election.now center.now.events) }
{
    let frame = frame_of(alloc, election, center)?;
    let mut figures = no_figures(alloc, election)?;
    let done = counted_text(alloc, election, center, &frame, &mut figures);
    drop_figures(figures);
    done
}
