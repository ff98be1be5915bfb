//! The top calls with the journal that the program's first argument names, with real files as inputs and
//! with the real standard output.
//!
//! `run_with` does what `run` and `run_center` do, `rank_with` what `run_ranked` does. Which words spell no
//! command is said in `vx_words`, which journal a command works on in `specs/Journals.antt`.
#![tactic(auto)]

mod journal;
mod ranking;
mod running;

pub use journal::begins_with;
pub use ranking::{rank_into, rank_with};
pub use running::{run_into, run_with};
