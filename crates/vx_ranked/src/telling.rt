//! The text of the counts of groups.

ghost use Rattle.std.specs.Prelude.{◌≡◌, ◌++◌, ◌<◌, ◌^◌, All, IfOk, OnOk, Some, length, map, string_bytes};
ghost use Rattle.std.specs.Prelude.{slice_get, slice_set};
ghost use Rattle.vx_election_model.specs.Valid.{IsValid};
ghost use Rattle.vx_ranked.specs.Groups.{IsGroup};
ghost use Rattle.vx_ranked.specs.Rankings.{group_ranked, none_ranked};
ghost use Rattle.vx_ranked.specs.Texts.{choices_of, group_text, ranked_text, told_of};
ghost use Rattle.vx_rounds.specs.Rankings.{AreShort};
ghost use Rattle.vx_rounds.specs.Rounds.{rounds_of};

use crate::gathering::rank_groups;
use crate::groups::Group;
use crate::lines::{push_counted, push_group};
use crate::sheets::SheetRankings;
use std::alloc::Global;
use std::marker::Brand;
use std::mem::replace;
use std::sync::ledger::{Blank, Ledger};
use vx_base::OutOfMemory;
use vx_center::Center;
use vx_election_model::{Choice, Contest, Election};
use vx_rounds::{Ballots, Rankings, Rounds, Steps, count_rounds};

/// The rounds of some rankings; the steps are counted in a ledger of their own.
fn count<L: Ledger>(
    alloc: Global,
    candidates: u32,
    rankings: Rankings,
    blank: Blank,
) -> Result<Rounds, OutOfMemory>
    requires name { blank.name ≡ L.name }
    requires parts { blank.parts ≡ L.parts }
    requires some_part { 0 < L.parts }
    requires some { 0 < candidates }
    requires few { length rankings < 2 ^ 32 }
    requires short { AreShort rankings }
    ensures { IfOk result (λ counted. counted ≡ rounds_of candidates rankings) }
{
    let mut steps = Steps::<L>::open(blank);
    count_rounds(alloc, candidates, &Ballots::new(rankings), &mut steps)
}

/// The contest of the first rank.
fn first_contest<'e>(election: &'e Election, contests: &[u32]) -> &'e Contest
    requires { 0 < length (choices_of election.now contests.now) }
    ensures { result.now.choices ≡ choices_of election.now contests.now }
{
    let first = contests[0];
    &election.contests.as_slice()[first as usize]
}

/// Adds the text of a group with these candidates, of which the sheets of a count rank this.
#[tactic(auto, unfolding(crate::specs::Texts::group_text))]
fn push_told(
    alloc: Global,
    text: &mut String,
    id: &str,
    choices: &[Choice],
    ranked: SheetRankings,
) -> Result<(), OutOfMemory>
    requires some { 0 < length choices.now }
    requires few_choices { length choices.now < 2 ^ 32 }
    requires few { length ranked.rankings < 2 ^ 32 }
    requires short { AreShort ranked.rankings }
    ensures { OnOk result (string_bytes text.new
        ≡ string_bytes text.old ++ group_text id.now choices.now ranked) }
{
    let SheetRankings { rankings, waiting } = ranked;
    push_group(text, id, rankings.len(), waiting)?;
    let counted = count::<Brand>(alloc, choices.len() as u32, rankings, Blank::new(1))?;
    push_counted(text, choices, &counted)?;
    Ok(())
}

/// Adds the text of a group, of which the sheets rank this.
fn push_ranked(
    alloc: Global,
    text: &mut String,
    election: &Election,
    center: &Center<'_>,
    group: &Group,
    ranked: SheetRankings,
) -> Result<(), OutOfMemory>
    requires valid { IsValid election.now }
    requires same { center.now.election ≡ election.now }
    requires group { IsGroup election.now group.now }
    requires ranked { ranked ≡ group_ranked center.now.election center.now.events group.now }
    ensures { OnOk result (string_bytes text.new
        ≡ string_bytes text.old ++ told_of election.now center.now.events group.now) }
{
    let contests = group.contests.as_slice();
    let choices = first_contest(election, contests).choices.as_slice();
    let _kept = center.events();
    push_told(alloc, text, group.id.as_str(), choices, ranked)?;
    Ok(())
}

/// Takes out what the sheets rank in the group at a place.
fn take_out(alloc: Global, ranked: &mut Vec<SheetRankings>, index: usize) -> SheetRankings
    requires { index < length ranked.old.items }
    ensures taken { slice_get ranked.old.items index ≡ Some result }
    ensures left { ranked.new.items ≡ slice_set ranked.old.items index none_ranked }
{
    replace(&mut ranked[index], SheetRankings::new(alloc))
}

/// Adds the text of each group, and takes out what the sheets rank in it.
#[tactic(auto, unfolding(crate::specs::Texts::ranked_text))]
fn push_groups(
    alloc: Global,
    text: &mut String,
    election: &Election,
    center: &Center<'_>,
    groups: &[Group],
    ranked: &mut Vec<SheetRankings>,
) -> Result<(), OutOfMemory>
    requires valid { IsValid election.now }
    requires same { center.now.election ≡ election.now }
    requires groups { All (IsGroup election.now) groups.now }
    requires ranked { ranked.old.items ≡ map (group_ranked center.now.election center.now.events) groups.now }
    ensures { OnOk result (string_bytes text.new
        ≡ string_bytes text.old ++ ranked_text election.now center.now.events groups.now) }
{
    for (index, group) in groups.iter().enumerate() {
        let counted = take_out(alloc, ranked, index);
        push_ranked(alloc, text, election, center, group, counted)?;
    }
    Ok(())
}

/// What is written of groups by the kept events: for each how many sheets have a ranking and how many
/// wait, the rounds of the count, and who won. The only refusal is want of memory.
pub fn ranked_text(
    alloc: Global,
    election: &Election,
    center: &Center<'_>,
    groups: &[Group],
) -> Result<String, OutOfMemory>
    requires valid { IsValid election.now }
    requires same { center.now.election ≡ election.now }
    requires groups { All (IsGroup election.now) groups.now }
    ensures { IfOk result (λ text. string_bytes text
        ≡ ranked_text election.now center.now.events groups.now) }
{
    let mut ranked = rank_groups(alloc, center, groups)?;
    let mut text = String::new(alloc);
    push_groups(alloc, &mut text, election, center, groups, &mut ranked)?;
    Ok(text)
}
