ghost use Rattle.std.specs.Prelude.{◌≡◌, ◌<◌, ◌≤◌, All, IfOk, length};
ghost use Rattle.vx_election_model.specs.Valid.{IsValid};
ghost use Rattle.vx_layout.specs.Blocks.{HasSizes};
ghost use Rattle.vx_layout.specs.Flow as flow;
ghost use Rattle.vx_layout.specs.Flow.{CanStand};
ghost use Rattle.vx_base.specs.Refusals.{Gives};
ghost use Rattle.vx_styles.specs.Cards.{cards_of};
ghost use Rattle.vx_layout.specs.Faults.{is_no_memory, is_card_no_memory};
ghost use Rattle.vx_layout.specs.Options.{ShowsEachOption, GivesEachContestAPage};
ghost use Rattle.vx_layout.specs.Pages.{IsNumbered, HasPaper, StandsOnGrid};
ghost use Rattle.vx_layout.specs.Plan.{pages_of, plan_with, plan_checked, plan_of};
ghost use Rattle.vx_layout.specs.Plans.{plans_of, ArePlansOf};
ghost use Rattle.vx_layout.specs.Zones.{IsClearPlan, ZonesMeetNoTextInPlan, AreApartInPlan};

use crate::checking::check_contests;
use crate::counting::hollow_on;
use crate::fault::{CardFault, LayoutFault};
use crate::flow::flow_of;
use crate::paging::lay_pages;
use crate::plan::{CardPlan, CardPlans};
use std::alloc::Global;
use vx_election_model::Election;
use vx_styles::{Card, cards, cards_are_few, contests_of, each_card_has_its_precinct};

/// The greatest number of a page.
const LAST_PAGE: u32 = 63;

/// The next even number, where a number is odd.
fn even_up(pages: u32) -> u32
    requires { pages < 1000 }
    ensures { result ≡ flow.even_up pages }
{
    pages + pages % 2
}

/// Plans a card of contests of which each can be printed.
fn plan_flow(
    alloc: Global,
    election: &Election,
    number: u32,
    card: Card,
    numbers: &[u32],
) -> Result<CardPlan, LayoutFault>
    requires precinct { card.precinct < length election.now.precincts }
    requires sizes { All HasSizes election.now.contests }
    requires stand { All (CanStand election.now.paper election.now.contests) numbers.now }
    requires few { length numbers.now ≤ 500 }
    ensures { Gives is_no_memory result
        (plan_with election.now number card numbers.now
        (pages_of election.now.paper election.now.contests numbers.now)) }
{
    let flow = flow_of(alloc, election.paper, election.contests.as_slice(), numbers)?;
    let of = even_up(flow.end.page());
    if of > LAST_PAGE {
        return Err(LayoutFault::TooManyPages(of));
    }
    let pages = lay_pages(alloc, election, card, flow.blocks.as_slice(), of)?;
    let hollow = hollow_on(pages.as_slice());
    Ok(CardPlan {
        card: number,
        pages,
        hollow,
    })
}

/// Plans a card of contests, unless one of them can't be printed.
fn plan_contests(
    alloc: Global,
    election: &Election,
    number: u32,
    card: Card,
    numbers: &[u32],
) -> Result<CardPlan, LayoutFault>
    requires precinct { card.precinct < length election.now.precincts }
    requires sizes { All HasSizes election.now.contests }
    requires there { All (λ place. place < length election.now.contests) numbers.now }
    requires few { length numbers.now ≤ 500 }
    ensures { Gives is_no_memory result (plan_checked election.now number card numbers.now) }
{
    check_contests(alloc, election.paper, election.contests.as_slice(), numbers)?;
    plan_flow(alloc, election, number, card, numbers)
}

/// The plan of a card, where all cards of the election are listed.
fn plan_listed(
    alloc: Global,
    election: &Election,
    cards: &[Card],
    card: u32,
) -> Result<CardPlan, LayoutFault>
    requires valid { IsValid election.now }
    requires listed { cards.now ≡ cards_of election.now }
    ensures { Gives is_no_memory result (plan_of election.now card) }
{
    if card as usize >= cards.len() {
        return Err(LayoutFault::NoCard(cards.len() as u32));
    }
    each_card_has_its_precinct();
    let numbers = contests_of(alloc, election, card)?;
    plan_contests(
        alloc,
        election,
        card,
        cards[card as usize],
        numbers.as_slice(),
    )
}

/// What `plan_card` answers.
fn planned(alloc: Global, election: &Election, card: u32) -> Result<CardPlan, LayoutFault>
    requires { IsValid election.now }
    ensures { Gives is_no_memory result (plan_of election.now card) }
{
    let cards = cards(alloc, election)?;
    plan_listed(alloc, election, cards.as_slice(), card)
}

/// The plan of the card with a number, or why it can't be printed.
///
/// `NoCard` where the election has no such card. Then the card's contests are tested in order, each
/// for an option's name of more than 58 characters (`TextTooLong`) and next for a block of more
/// rows than the paper has rows of contests, 28 or 39 on legal paper (`ContestTooTall`). Last, the
/// even number of pages may be above 63 (`TooManyPages`).
/// Time and memory are in proportion to the text that is laid out, besides one look at each
/// contest's block for each of the at most 62 pages.
pub fn plan_card(alloc: Global, election: &Election, card: u32) -> Result<CardPlan, LayoutFault>
    requires { IsValid election.now }
    ensures exact { Gives is_no_memory result (plan_of election.now card) }
    // It has the card's number, and its pages are numbered from 1 in order, below 64.
    ensures numbered { IfOk result (IsNumbered card) }
    // Each page is of the election's paper.
    ensures paper { IfOk result (HasPaper election.now.paper) }
    // Each bubble stands on the grid, for an option that a contest of the election has.
    ensures on_grid { IfOk result (StandsOnGrid election.now) }
    // Every option of each of the card's contests has its one bubble, in order, and no other has.
    ensures options { IfOk result (ShowsEachOption election.now card) }
    // All bubbles of a contest stand on one page.
    ensures one_page { IfOk result GivesEachContestAPage }
    // No bubble's zone meets a dark dot of a text, a code box's zone, a reserved zone or the frame
    // zone, and no dark dot of a text meets one of these three.
    ensures clear { IfOk result IsClearPlan }
    // No bubble's zone meets a cell of a text's character, dark or blank.
    ensures cells { IfOk result ZonesMeetNoTextInPlan }
    // No bubble's zone meets the box of another bubble of its page.
    ensures apart { IfOk result AreApartInPlan }
{
    cards_are_few();
    planned(alloc, election, card)
}

/// The plans of the cards that are listed, which are all of the election's.
fn plan_list(alloc: Global, election: &Election, cards: &[Card]) -> Result<CardPlans, CardFault>
    requires valid { IsValid election.now }
    requires listed { cards.now ≡ cards_of election.now }
    requires few { length cards.now ≤ 1024 }
    ensures { Gives is_card_no_memory result (plans_of election.now) }
{
    let mut plans = CardPlans::new(alloc);
    for card in 0..cards.len() as u32 {
        match plan_listed(alloc, election, cards, card) {
            Ok(plan) => plans.push(plan)?,
            Err(fault) => return Err(CardFault { card, fault }),
        }
    }
    Ok(plans)
}

/// The plans of all cards of an election, in order; or the first card that can't be planned, with
/// the cause as `plan_card` gives it. Where memory runs out the card's number says nothing.
pub fn plan_cards(alloc: Global, election: &Election) -> Result<CardPlans, CardFault>
    requires { IsValid election.now }
    ensures exact { Gives is_card_no_memory result (plans_of election.now) }
    // There is one plan for each card, and it is the card's.
    ensures are_plans { IfOk result (ArePlansOf election.now) }
{
    let cards = cards(alloc, election)?;
    plan_list(alloc, election, cards.as_slice())
}
