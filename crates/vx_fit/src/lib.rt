//! Where a grid point of a scanned page is, by the places of its row's two timing marks.
//!
//! The place is defined in `specs/Fit.antt`.
#![tactic(auto)]

mod fit;

pub use fit::place;
