//! The command `read`: takes an election, plans all its cards, and writes what each image of its
//! scans is read as, or its fault.
//!
//! What it does is `read_outcome` in `specs/Outcome.antt`; the text of an image stands in
//! `specs/ReadingText.antt` of `vx_readings`. What a reading is stands in `vx_scan_model`, what all commands share in
//! `vx_command`. That scans within the margin are told as they were printed and marked is the law
//! `fitting_scans_are_told`, its statement `specs/Margin.antt`.
#![tactic(auto)]

mod images;
mod laws;
mod reading;
mod reading_text;
mod scans;

pub use laws::fitting_scans_are_told;
pub use reading::read;
