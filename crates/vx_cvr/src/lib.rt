//! The report of a count: a cast vote record report after NIST SP 1500-103, version 1.0.0, as one
//! line of JSON.
//!
//! `specs/Report.antt` says the members object by object, over the exported contests and what they
//! count as: `specs/Votes.antt`; the sheets' order stands in `specs/Rows.antt`. `report` gives
//! exactly that text, and `report_rows` its rows alone; the names and votes of their parts are calls of
//! their own. The text in pieces, for those who write it as they go, is `specs/Pieces.antt`. Which sheets the rows are of are the laws of `specs/Laws.antt`.
#![tactic(auto)]

mod contests;
mod escape;
mod laws;
mod members;
mod names;
mod pieces;
mod places;
mod reporting;
mod sheets;
mod votes;

pub use laws::{
    each_row_is_of_a_sheet, one_row_of_a_key, pieces_are_the_report, rows_are_of_the_sheets,
};
pub use names::{contest_name, precinct_name, selection_name, sheet_name};
pub use pieces::{front_piece, last_piece, report_places, sheet_piece};
pub use reporting::{report, report_rows};
pub use sheets::card_at;
pub use votes::{overvotes, undervotes, voted_for, votes_of};
