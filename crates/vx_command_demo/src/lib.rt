//! The command `demo`: makes an election of its own, plans its cards, simulates sheets of them from a
//! number, reads and checks each page, and writes a summary.
//!
//! What it does is `demo_outcome` in `specs/Outcome.antt`. The election stands in `specs/Election.antt`,
//! which pages are simulated in `specs/Trials.antt`, what is counted of them in `specs/Sums.antt`, and the
//! text of the summary in `specs/Summary.antt`. What a simulated scan is stands in `vx_simulate`, what all
//! commands share in `vx_command`. It takes no input and no journal. One page is in memory at a time.
#![tactic(auto)]

mod counted;
mod election;
mod judging;
mod pages;
mod plans;
mod reasons;
mod running;
mod sheets;
mod summary;
mod sums;

pub use running::demo;
