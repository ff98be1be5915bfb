ghost use Rattle.std.specs.Prelude.{◌≡◌, ◌<◌, ◌≤◌, ◌++◌, ◌∷◌, ◌^◌, [], All, IfOk, length, string_bytes};
ghost use Rattle.std.specs.List.{flat_map};
ghost use Rattle.vx_layout.specs.Blocks.{HasSizes};
ghost use Rattle.vx_layout.specs.Flow.{IsPlaced};
ghost use Rattle.vx_layout.specs.Plan as plan;
ghost use Rattle.vx_layout.specs.Plan.{bubbles_of, texts_of, on_page, page_plan, page_plans};

use crate::block::{add_bubbles, lay_block};
use crate::bubbles::Bubbles;
use crate::flow::Block;
use crate::lines::{TextLine, TextLines};
use crate::pages::{PagePlan, PagePlans};
use crate::typing::front_of;
use std::alloc::Global;
use vx_base::OutOfMemory;
use vx_election_model::{Contest, Election};
use vx_grid::{Paper, centre_y, foot_row};
use vx_styles::Card;

/// How many characters the foot line has at most.
const FOOT: usize = 100;

/// The bubbles of the blocks that stand on a page. They don't depend on the paper; it is for the
/// contract alone.
fn bubbles_on(
    alloc: Global,
    _paper: Paper,
    contests: &[Contest],
    blocks: &[Block],
    page: u32,
) -> Result<Bubbles, OutOfMemory>
    requires sizes { All HasSizes contests.now }
    requires placed { All (IsPlaced _paper contests.now) blocks.now }
    ensures { IfOk result (λ bubbles. bubbles ≡ flat_map (bubbles_of contests.now) (on_page page blocks.now)) }
{
    let mut bubbles = Bubbles::new(alloc);
    for block in blocks {
        if block.spot.page() != page {
            continue;
        }
        let contest = &contests[block.contest as usize];
        add_bubbles(
            &mut bubbles,
            block.contest,
            contest,
            block.spot.col(),
            block.spot.grid_row(),
        )?;
    }
    Ok(bubbles)
}

/// The lines of the blocks that stand on a page.
fn texts_on(
    alloc: Global,
    paper: Paper,
    contests: &[Contest],
    blocks: &[Block],
    page: u32,
) -> Result<TextLines, OutOfMemory>
    requires sizes { All HasSizes contests.now }
    requires placed { All (IsPlaced paper contests.now) blocks.now }
    ensures { IfOk result (λ texts. texts ≡ flat_map (texts_of paper contests.now) (on_page page blocks.now)) }
{
    let mut texts = TextLines::new(alloc);
    for block in blocks {
        if block.spot.page() != page {
            continue;
        }
        let contest = &contests[block.contest as usize];
        lay_block(
            alloc,
            &mut texts,
            paper,
            contest,
            block.spot.col(),
            block.spot.grid_row(),
        )?;
    }
    Ok(texts)
}

/// What a page says of itself: the election, the precinct, and which of the card's pages it is.
fn foot_text(
    alloc: Global,
    election: &Election,
    card: Card,
    page: u32,
    of: u32,
) -> Result<String, OutOfMemory>
    requires { card.precinct < length election.now.precincts }
    ensures { IfOk result (λ text. string_bytes text ≡ plan.foot_text election.now card page of) }
{
    let title = election.title.as_str();
    let date = election.date.as_str();
    let precinct = &election.precincts.as_slice()[card.precinct as usize];
    let name = precinct.name.as_str();
    format!(in alloc; "{title} - {date} - {name} - page {page} of {of}")
}

/// The pixel row where the foot line's characters begin.
fn foot_y(paper: Paper) -> u32
    ensures { result ≡ plan.foot_y paper }
{
    centre_y(paper, foot_row(paper)) as u32 - 18
}

/// The foot line of a page: the first characters of what it says.
fn foot_line(
    alloc: Global,
    election: &Election,
    card: Card,
    page: u32,
    of: u32,
) -> Result<TextLine, OutOfMemory>
    requires { card.precinct < length election.now.precincts }
    ensures { IfOk result (λ line. line ≡ plan.foot_line election.now card page of) }
{
    let text = foot_text(alloc, election, card, page, of)?;
    Ok(TextLine {
        x: 290,
        y: foot_y(election.paper),
        text: front_of(alloc, text.as_str(), FOOT)?,
    })
}

/// One of a card's pages.
fn lay_page(
    alloc: Global,
    election: &Election,
    card: Card,
    blocks: &[Block],
    page: u32,
    of: u32,
) -> Result<PagePlan, OutOfMemory>
    requires precinct { card.precinct < length election.now.precincts }
    requires sizes { All HasSizes election.now.contests }
    requires placed { All (IsPlaced election.now.paper election.now.contests) blocks.now }
    ensures { IfOk result (λ plan. plan ≡ page_plan election.now card blocks.now of page) }
{
    let contests = election.contests.as_slice();
    let bubbles = bubbles_on(alloc, election.paper, contests, blocks, page)?;
    let mut texts = texts_on(alloc, election.paper, contests, blocks, page)?;
    texts.push(foot_line(alloc, election, card, page, of)?)?;
    Ok(PagePlan {
        page,
        of,
        paper: election.paper,
        bubbles,
        texts,
    })
}

/// All of a card's pages, so many.
pub(crate) fn lay_pages(
    alloc: Global,
    election: &Election,
    card: Card,
    blocks: &[Block],
    of: u32,
) -> Result<PagePlans, OutOfMemory>
    requires few { of < 2 ^ 31 }
    requires precinct { card.precinct < length election.now.precincts }
    requires sizes { All HasSizes election.now.contests }
    requires placed { All (IsPlaced election.now.paper election.now.contests) blocks.now }
    ensures { IfOk result (λ pages. pages ≡ page_plans election.now card blocks.now of) }
{
    let mut pages = PagePlans::new(alloc);
    for before in 0..of {
        pages.push(lay_page(alloc, election, card, blocks, before + 1, of)?)?;
    }
    Ok(pages)
}
