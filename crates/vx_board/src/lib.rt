//! The command `board`: the page for the people who hold the paper of an audit.
//!
//! `board` writes one page for a browser: its head, the data and its tail. The data are lines of JSON
//! (`specs/Data.antt`): first the election with its contests and cards (`specs/Contests.antt`), then a line for each
//! ballot that the seed draws, in the order of boxes, last how many ballots they are. They are made of what the
//! report's rows are kept under and of their cards alone (`specs/Ballots.antt`). What the command does as a whole is
//! `board_outcome` in `specs/Outcome.antt`; it appends nothing. That the page is blind, that its data have no markup
//! and that its ballots are those that `sample` draws are the laws of `specs/Laws.antt`; that it is of exactly what
//! was kept is that of `specs/Written.antt`.
#![tactic(auto)]

mod boarding;
mod cards;
mod contests;
mod data;
mod laws;
mod page;

pub use boarding::board;
pub use laws::{
    ballots_are_the_sample, board_is_blind, board_is_of_what_was_kept, data_is_no_markup,
};
pub use page::{push_head, push_tail};
