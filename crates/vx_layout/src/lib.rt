//! The layout of a card: where each contest's text and bubbles stand on its pages, or why the card
//! can't be printed.
//!
//! `plan_card` answers exactly what `plan_of` in `specs/Plan.antt` gives, and `plan_cards` what
//! `plans_of` in `specs/Plans.antt` gives. A plan's parts stand beside it: lines of text in
//! `specs/Lines.antt`, a contest's block in `specs/Blocks.antt`, and the flow of blocks through
//! text columns and pages in `specs/Flow.antt`. How pages are numbered and where bubbles stand is
//! said in `specs/Pages.antt`. Every option has its one bubble (`specs/Options.antt`), and bubbles
//! and texts keep clear of one another, of the page code and of the frame (`specs/Zones.antt`).
//! What a planned page looks like in print, as a set of pixels, is `print_of` in
//! `specs/Print.antt`, and what a printed page is, with its code, stands in `specs/Printed.antt`.
#![tactic(auto)]

mod block;
mod bubbles;
mod checking;
mod counting;
mod fault;
mod flow;
mod laws;
mod lines;
mod pages;
mod paging;
mod plan;
mod planning;
mod typing;

pub use bubbles::{Bubble, Bubbles};
pub use fault::{CardFault, LayoutFault};
pub use laws::{
    planned_pages_can_be_printed, plans_are_numbered, plans_have_the_elections_paper,
    plans_of_are_plans, plans_show_each_option, plans_stand_on_the_grid, printed_pages_keep_clear,
    printed_zones_meet_no_text,
};
pub use lines::{TextLine, TextLines};
pub use pages::{PagePlan, PagePlans};
pub use plan::{CardPlan, CardPlans, card_plan_is_shared, drop_plan, drop_plans};
pub use planning::{plan_card, plan_cards};
