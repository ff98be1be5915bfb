//! The command `try`: takes an election, plans all its cards, and reads the images of its scans two by two
//! as `count` does, up to the first two that are no sheet; it keeps nothing.
//!
//! What it does is `try_outcome` in `specs/Outcome.antt`, its lines stand in `specs/Lines.antt`. What two
//! images come to is `sheet_read` of `vx_sheet`, by which `count` goes too: that `count` adds what was tried,
//! sheet for sheet, is the law `tried_sheets_are_added`, its statement `specs/Laws.antt`.
#![tactic(auto)]

mod command;
mod laws;
mod lines;
mod setting;
mod sheets;
mod work;

pub use command::try_sheets;
pub use laws::tried_sheets_are_added;
