//! How dark a bubble or a code box of a scanned page is, and what a bubble's score means.
//!
//! Scores, code counts and states are defined in `specs/Score.antt`, by counts of the dark pixels in
//! a window round a grid place.
#![tactic(auto)]

mod scoring;

pub use scoring::{code_count, score, state};
