//! Simulated scans of printed pages: marked at random, sheared, with wrong pixels, all within the
//! bounds in which a page is read as it was printed and marked.
//!
//! `simulate` makes one of a print. What is drawn from the generator, in which order, stands in
//! `specs/`: the marks, how the page lies in its scan, the ink, the flips, and the scan that comes of
//! them (`Simulated.antt`).
#![tactic(auto)]

mod drawing;
mod flips;
mod ink;
mod laws;
mod lie;
mod margins;
mod marks;
mod painting;
mod scan_flips;
mod sheared;
mod simulated;
mod simulation;
mod strips;

pub use laws::simulated_scans_fit;
pub use marks::Flags;
pub use simulated::{Simulated, simulate};
