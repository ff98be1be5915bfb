//! What trials share: the town's election, lines of words and records in memory, and inputs that put down what they
//! are asked.
#![tactic(auto)]

mod heard;
mod lines;
mod town;

pub use heard::{HeardInputs, asked_in_order};
pub use lines::{records_of, words_of};
pub use town::{BORDER, TOWN, TOWN_HEADER, on_legal};
