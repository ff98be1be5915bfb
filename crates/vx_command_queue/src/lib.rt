//! The command `queue`: the contests that wait for a decision, in order, each with its enabled reasons
//! and who holds its sheet.
//!
//! What it writes stands in `specs/Queue.antt`, what it does as a whole in `specs/Outcome.antt`. It
//! appends nothing. That its lines are those of exactly what waits are the laws of `specs/Laws.antt`.
#![tactic(auto)]

mod laws;
mod lines;
mod queueing;
mod walk;

pub use laws::{queues_list_what_waits, queues_write_what_waits};
pub use queueing::queue;
