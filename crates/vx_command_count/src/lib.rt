//! The command `count`: takes an election, plans all its cards, reads the journal, and adds the sheets of
//! its scans to it.
//!
//! What it does is `count_outcome` in `specs/Outcome.antt`; what a sheet does to the journal and what it
//! comes to stands in `specs/Sheets.antt`, its lines in `vx_sheet`. Images are read by workers, at most
//! 128 at a time, and appended and written in order by the caller, so that nothing hangs on their number.
//! That sheets within the margin are kept as they were printed and marked is the law
//! `fitting_sheets_are_kept`, its statement `specs/Margin.antt`.
#![tactic(auto)]

mod command;
mod counting;
mod ending;
mod gathering;
mod laws;
mod pairs;
mod pieces;
mod reads;
mod scans;
mod setting;
mod sheets;
mod tally;
mod waiting;

pub use command::count;
pub use laws::{
    count_keeps_journals, counts_end_well, fitting_sheets_are_added, fitting_sheets_are_kept,
    marked_sheets_say_each_mark, sheets_are_added,
};
