//! Cards that have the contests of a group on more than one sheet.

ghost use Rattle.std.specs.Prelude.{◌≡◌, find};
ghost use Rattle.std.specs.List.{list_any};
ghost use Rattle.std.specs.Option.{option_copied};
ghost use Rattle.vx_base.specs.Refusals.{Gives};
ghost use Rattle.vx_ranked.specs.Faults.{is_no_memory};
ghost use Rattle.vx_ranked.specs.Splits as words;

use crate::fault::RankedFault;
use crate::groups::Group;
use crate::members::is_among;
use std::alloc::Global;
use vx_layout::{CardPlan, PagePlan};

/// The sheet that a page stands on, from 0.
fn sheet_of(page: &PagePlan) -> u32
    ensures { result ≡ words.sheet_of page.now }
{
    page.page.saturating_sub(1) / 2
}

/// Whether a contest of a group stands on a page.
fn shows_group(page: &PagePlan, contests: &[u32]) -> bool
    ensures { result ≡ words.shows_group contests.now page.now }
{
    page.bubbles
        .as_slice()
        .iter()
        .any(|bubble| is_among(contests, bubble.contest))
}

fn shows_elsewhere(page: &PagePlan, contests: &[u32], sheet: u32) -> bool
    ensures { result ≡ words.shows_elsewhere contests.now sheet page.now }
{
    shows_group(page, contests) && sheet_of(page) != sheet
}

/// Whether a page on another sheet shows a contest of the group.
fn any_elsewhere(pages: &[PagePlan], contests: &[u32], sheet: u32) -> bool
    ensures { result ≡ list_any (words.shows_elsewhere contests.now sheet) pages.now }
{
    pages
        .iter()
        .any(|page| shows_elsewhere(page, contests, sheet))
}

/// The first page that shows a contest of the group.
fn first_page<'p>(pages: &'p [PagePlan], contests: &[u32]) -> Option<&'p PagePlan>
    ensures { option_copied result ≡ find (words.shows_group contests.now) pages.now }
{
    pages.iter().find(|page| shows_group(page, contests))
}

/// Whether a card has contests of the group on more than one sheet.
fn is_split(plan: &CardPlan, contests: &[u32]) -> bool
    ensures { result ≡ words.is_split contests.now plan.now.pages }
{
    let pages = plan.pages.as_slice();
    match first_page(pages, contests) {
        Some(page) => any_elsewhere(pages, contests, sheet_of(page)),
        None => false,
    }
}

/// Refuses the first group that a card splits.
fn check_card(alloc: Global, plan: &CardPlan, groups: &[Group]) -> Result<(), RankedFault>
    ensures { Gives is_no_memory result (words.card_checked plan.now groups.now) }
{
    for group in groups {
        if is_split(plan, group.contests.as_slice()) {
            return Err(RankedFault::Split(plan.card, group.id.copy(alloc)?));
        }
    }
    Ok(())
}

/// Refuses the first card that splits a group.
pub(crate) fn check_splits(
    alloc: Global,
    plans: &[CardPlan],
    groups: &[Group],
) -> Result<(), RankedFault>
    ensures { Gives is_no_memory result (words.cards_checked groups.now plans.now) }
{
    for plan in plans {
        check_card(alloc, plan, groups)?;
    }
    Ok(())
}
