//! The command `desk`: a page for adjudicators, of the sheets of a batch with a contest that waits, each with
//! the pictures of its scan.
//!
//! What it does is `desk_outcome` in `specs/Outcome.antt`; the texts of the page stand in `vx_desk`. It
//! appends nothing.
#![tactic(auto)]

mod command;
mod laws;
mod page;
mod setting;
mod sheets;
mod work;

pub use command::desk;
pub use laws::pages_show_their_end;
