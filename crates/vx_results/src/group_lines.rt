//! The lines of groups: how many sheets, and the votes, over votes and undervotes of a contest.

ghost use Rattle.std.specs.Prelude.{◌≡◌, ◌≤◌, ◌++◌, [], OnOk, option_copied, slice_index_or, string_bytes};
ghost use Rattle.std.specs.List.{flat_map};
ghost use Rattle.std.specs.Option.{unwrap_or};
ghost use Rattle.vx_audit.specs.Sized.{HasFew};
ghost use Rattle.vx_audit.specs.Walk.{by_place};
ghost use Rattle.vx_results.specs.Counted as spec;
ghost use Rattle.vx_results.specs.Summary as lines;

use crate::groups::Group;
use crate::kinds::word_at;
use vx_base::OutOfMemory;
use vx_json::Text;
use vx_tally::{ReportContest, Totals};

/// The pile of a group.
fn pile_of<'p>(piles: &'p [Totals], group: Group) -> Option<&'p Totals>
    ensures { unwrap_or (option_copied result) spec.none_kept ≡ spec.group_pile piles.now group }
{
    piles.get(8 * group.unit as usize + group.kind as usize)
}

/// How many sheets a group has.
#[tactic(auto, unfolding(vx_tally::specs::Running::summed_in))]
fn sheets_at(piles: &[Totals], group: Group) -> u64
    ensures { result ≡ (spec.pile_of piles.now group).count }
{
    match pile_of(piles, group) {
        None => 0,
        Some(pile) => pile.len(),
    }
}

/// The votes of a group for a selection.
#[tactic(auto, unfolding(vx_tally::specs::Running::summed_in))]
fn total_at(piles: &[Totals], group: Group, contest: u32, selection: u32) -> u64
    ensures { result ≡ (spec.pile_of piles.now group).votes contest selection }
{
    match pile_of(piles, group) {
        None => 0,
        Some(pile) => pile.total(contest, selection),
    }
}

/// The over votes of a group.
#[tactic(auto, unfolding(vx_tally::specs::Running::summed_in))]
fn over_at(piles: &[Totals], group: Group, contest: u32) -> u64
    ensures { result ≡ (spec.pile_of piles.now group).over contest }
{
    match pile_of(piles, group) {
        None => 0,
        Some(pile) => pile.over(contest),
    }
}

/// The undervotes of a group.
#[tactic(auto, unfolding(vx_tally::specs::Running::summed_in))]
fn under_at(piles: &[Totals], group: Group, contest: u32) -> u64
    ensures { result ≡ (spec.pile_of piles.now group).under contest }
{
    match pile_of(piles, group) {
        None => 0,
        Some(pile) => pile.under(contest),
    }
}

/// The name of the unit of a group.
fn unit_at<'u>(units: &'u [Text], group: Group) -> &'u str
    ensures { result.now ≡ slice_index_or units.now group.unit [] }
{
    match units.get(group.unit as usize) {
        None => "",
        Some(unit) => unit.as_str(),
    }
}

/// Adds the line that says how many sheets a group has.
fn push_sheets(
    text: &mut String,
    units: &[Text],
    piles: &[Totals],
    group: Group,
) -> Result<(), OutOfMemory>
    ensures { OnOk result (string_bytes text.new ≡ string_bytes text.old
        ++ lines.group_sheets units.now (spec.pile_of piles.now) group) }
{
    let (unit, kind) = (unit_at(units, group), word_at(group.kind));
    let count = sheets_at(piles, group);
    write!(text, "sheets {unit} {kind} {count}\n")
}

/// Adds those of groups.
pub(crate) fn push_all_sheets(
    text: &mut String,
    units: &[Text],
    piles: &[Totals],
    groups: &[Group],
) -> Result<(), OutOfMemory>
    ensures { OnOk result (string_bytes text.new ≡ string_bytes text.old
        ++ flat_map (lines.group_sheets units.now (spec.pile_of piles.now)) groups.now) }
{
    for group in groups {
        push_sheets(text, units, piles, *group)?;
    }
    Ok(())
}

/// Adds a line of votes.
fn push_selection(
    text: &mut String,
    contest: &str,
    unit: &str,
    kind: &str,
    selection: &str,
    votes: u64,
) -> Result<(), OutOfMemory>
    ensures { OnOk result (string_bytes text.new ≡ string_bytes text.old
        ++ lines.votes_line contest.now unit.now kind.now selection.now votes) }
{
    write!(text, "votes {contest} {unit} {kind} {selection} {votes}\n")
}

/// Adds the lines of the votes of a group for the selections of a contest.
fn push_votes(
    text: &mut String,
    units: &[Text],
    piles: &[Totals],
    place: u32,
    contest: &ReportContest,
    group: Group,
) -> Result<(), OutOfMemory>
    requires { HasFew contest.now }
    ensures { OnOk result (string_bytes text.new ≡ string_bytes text.old
        ++ lines.group_votes units.now (spec.pile_of piles.now) place contest.now group) }
{
    let (unit, kind) = (unit_at(units, group), word_at(group.kind));
    let id = contest.id.as_str();
    let selections = contest.selections.as_slice();
    for (selection, name) in selections.iter().enumerate() {
        let votes = total_at(piles, group, place, selection as u32);
        push_selection(text, id, unit, kind, name.as_str(), votes)?;
    }
    Ok(())
}

/// Adds those of groups.
fn push_all_votes(
    text: &mut String,
    units: &[Text],
    piles: &[Totals],
    place: u32,
    contest: &ReportContest,
    groups: &[Group],
) -> Result<(), OutOfMemory>
    requires { HasFew contest.now }
    ensures { OnOk result (string_bytes text.new ≡ string_bytes text.old
        ++ flat_map (lines.group_votes units.now (spec.pile_of piles.now) place contest.now) groups.now) }
{
    for group in groups {
        push_votes(text, units, piles, place, contest, *group)?;
    }
    Ok(())
}

/// Adds the line of the over votes of a group.
fn push_over(
    text: &mut String,
    units: &[Text],
    piles: &[Totals],
    place: u32,
    contest: &ReportContest,
    group: Group,
) -> Result<(), OutOfMemory>
    ensures { OnOk result (string_bytes text.new ≡ string_bytes text.old
        ++ lines.group_over units.now (spec.pile_of piles.now) place contest.now group) }
{
    let (id, unit, kind) = (
        contest.id.as_str(),
        unit_at(units, group),
        word_at(group.kind),
    );
    let count = over_at(piles, group, place);
    write!(text, "over {id} {unit} {kind} {count}\n")
}

/// Adds those of groups.
fn push_all_over(
    text: &mut String,
    units: &[Text],
    piles: &[Totals],
    place: u32,
    contest: &ReportContest,
    groups: &[Group],
) -> Result<(), OutOfMemory>
    ensures { OnOk result (string_bytes text.new ≡ string_bytes text.old
        ++ flat_map (lines.group_over units.now (spec.pile_of piles.now) place contest.now) groups.now) }
{
    for group in groups {
        push_over(text, units, piles, place, contest, *group)?;
    }
    Ok(())
}

/// Adds the line of the undervotes of a group.
fn push_under(
    text: &mut String,
    units: &[Text],
    piles: &[Totals],
    place: u32,
    contest: &ReportContest,
    group: Group,
) -> Result<(), OutOfMemory>
    ensures { OnOk result (string_bytes text.new ≡ string_bytes text.old
        ++ lines.group_under units.now (spec.pile_of piles.now) place contest.now group) }
{
    let (id, unit, kind) = (
        contest.id.as_str(),
        unit_at(units, group),
        word_at(group.kind),
    );
    let count = under_at(piles, group, place);
    write!(text, "under {id} {unit} {kind} {count}\n")
}

/// Adds those of groups.
fn push_all_under(
    text: &mut String,
    units: &[Text],
    piles: &[Totals],
    place: u32,
    contest: &ReportContest,
    groups: &[Group],
) -> Result<(), OutOfMemory>
    ensures { OnOk result (string_bytes text.new ≡ string_bytes text.old
        ++ flat_map (lines.group_under units.now (spec.pile_of piles.now) place contest.now) groups.now) }
{
    for group in groups {
        push_under(text, units, piles, place, contest, *group)?;
    }
    Ok(())
}

/// Adds the lines of the groups of a contest.
pub(crate) fn push_groups(
    text: &mut String,
    units: &[Text],
    piles: &[Totals],
    place: u32,
    contest: &ReportContest,
    groups: &[Group],
) -> Result<(), OutOfMemory>
    requires { HasFew contest.now }
    ensures { OnOk result (string_bytes text.new ≡ string_bytes text.old
        ++ lines.groups_text units.now (spec.pile_of piles.now) place contest.now groups.now) }
{
    push_all_votes(text, units, piles, place, contest, groups)?;
    push_all_over(text, units, piles, place, contest, groups)?;
    push_all_under(text, units, piles, place, contest, groups)?;
    Ok(())
}
