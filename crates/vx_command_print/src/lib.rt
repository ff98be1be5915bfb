//! The command `print`: plans one card of an election, and paints and writes page after page of it.
//!
//! What it does is `print_outcome` in `specs/Outcome.antt`. What a printed page is stands in
//! `vx_scan_model`, what all commands share in `vx_command`.
#![tactic(auto)]

mod ballot;
mod pages;
mod printing;

pub use ballot::Ballot;
pub use printing::print;
