//! Laws of the plans of an election. These functions do nothing; their contracts are the laws.

ghost use Rattle.vx_layout.specs.Pages.{PlansAreNumbered, PlansHavePaper, PlansStandOnGrid};
ghost use Rattle.vx_layout.specs.Plans.{PlansAreThose, PlansShowEachOption};
ghost use Rattle.vx_layout.specs.Printed.{PagesArePlanned, PrintedHaveCodes, PrintedHavePaper, PrintedKeepClear, PrintedZonesMeetNoText};
ghost use Rattle.vx_layout.specs.Zones.{DotsLieInCells};

use vx_code::tags_are_in_range;
use vx_styles::cards_are_few;

/// The plan of a card of a valid election has the card's number, below 1024, and 2 to 62 pages, an
/// even number, which are numbered from 1 in order.
pub fn plans_are_numbered()
    ensures { PlansAreNumbered }
{
    cards_are_few()
}

/// The pages of such a plan are of the election's paper.
pub fn plans_have_the_elections_paper()
    ensures { PlansHavePaper }
{}

/// The bubbles of such a plan stand in the grid columns 4, 13 and 22 and in rows of contests of their
/// page's paper, each for an option that a contest of the election has.
pub fn plans_stand_on_the_grid()
    ensures { PlansStandOnGrid }
{}

/// Such a plan shows every option of its card's contests once, each contest on one page.
pub fn plans_show_each_option()
    ensures { PlansShowEachOption }
{}

/// The plans of all cards as one list, `plans_of`, are those of which each is the plan of the card
/// with its place.
pub fn plans_of_are_plans()
    ensures { PlansAreThose }
{}

/// Each page of a planned card can be printed for each kind of ballot: the page has its number, it is
/// of the election's paper, and its code is in its ranges.
pub fn planned_pages_can_be_printed()
    ensures planned { PagesArePlanned }
    ensures codes { PrintedHaveCodes }
    ensures paper { PrintedHavePaper }
{
    plans_are_numbered();
    plans_have_the_elections_paper();
    tags_are_in_range();
}

/// On a printed page the zones of bubbles keep clear of texts, of the page code, of the reserved rows and
/// of the frame, and of each other's boxes; and texts keep clear of the page code, the reserved rows and
/// the frame.
pub fn printed_pages_keep_clear()
    ensures { PrintedKeepClear }
{}

/// On a printed page no zone of a bubble meets a text: no cell of a character, dark or blank. What a
/// text prints lies in its cells.
pub fn printed_zones_meet_no_text()
    ensures zones { PrintedZonesMeetNoText }
    ensures dots { DotsLieInCells }
{}
