//! The texts of the adjudicators' desk: a page's fixed head and tail, and the data between them, a
//! line of JSON each.
//!
//! The first line is of the batch, the last says what is left over (`specs/Lines.antt`). Between them
//! stands a line for each sheet with a contest that waits (`specs/Waits.antt`) whose two images are
//! there: its contests, each with its options as they were read and its picture (`specs/Contests.antt`),
//! where the images are what was kept (`specs/Kept.antt`). A picture is the part of the upright page
//! round a contest's block (`specs/Shown.antt`, `specs/Regions.antt`, `specs/Pictures.antt`). No line has
//! markup in it, as `vx_markup` writes them.
#![tactic(auto)]

mod contests;
mod data;
mod image;
mod kept;
mod laws;
mod left;
mod options;
mod page;
mod picture;
mod place;
mod region;
mod waiting;

pub use data::{push_first, push_last, push_sheet};
pub use laws::{
    data_is_no_markup, desk_tells_what_waits, options_stand_by_number, pictures_hold_their_bubbles,
    pictures_show_the_scan, same_sheets_are_equal, waiting_is_told_once,
};
pub use page::{push_head, push_tail};
pub use waiting::waits;
