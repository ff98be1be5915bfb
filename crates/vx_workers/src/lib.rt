//! Work on a list of items by several threads, with the results in the items' order.
//!
//! `map_tasks` answers what a task answers of each item, in the items' order, whatever the number
//! of workers and whichever of them was quicker. `specs/Answers.antt` says what that is.
#![tactic(auto)]

mod answer;
mod gate;
mod places;
mod tasks;

pub use gate::{Gate, OpenGate};
pub use tasks::map_tasks;
