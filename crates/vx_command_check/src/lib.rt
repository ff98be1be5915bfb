//! The command `check`: takes an election and plans its cards, takes scans and walks their images whole, takes
//! readings, and then tests page after page whether what the readings say is a certificate of the image.
//!
//! What it does is `check_outcome` in `specs/Outcome.antt`; what it answers of one page stands in
//! `specs/Answers.antt`. What a certificate is stands in `vx_scan_model`, the tests in their order in `vx_check`,
//! the grammar of readings in `vx_readings`, what all commands share in `vx_command`.
#![tactic(auto)]

mod checking;
mod laws;
mod lines;
mod names;
mod page;
mod pages;
mod walking;

pub use checking::check;
pub use laws::certified_pages_say_what_fits;
