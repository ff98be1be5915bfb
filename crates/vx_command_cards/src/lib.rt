//! The command `cards`: a line for each card of an election, and then what nobody wants to find on
//! paper: hollow boxes, texts that show nothing, words that are cut at the end of a line, and choices
//! that look alike.
//!
//! What it writes and does stands in `specs/Outcome.antt`: a line for each card
//! (`specs/Cards.antt`), lines on printed texts (`specs/Texts.antt`) and on choices
//! (`specs/Alike.antt`). What of a text shows is said by the font and the layout, in
//! `specs/Drawn.antt`; that the hollow boxes are those that a card's plan counts, and that no name
//! makes a line, are the laws of `specs/Laws.antt`.
#![tactic(auto)]

mod alike;
mod blank;
mod cut;
mod drawn;
mod flaw;
mod foot;
mod hollow;
mod laws;
mod lines;
mod listing;
mod names;
mod printed;
mod telling;
mod texts;
mod words;

pub use laws::{hollow_boxes_are_those_of_plans, line_feeds_are_those_of_lines};
pub use telling::cards;
