//! The commands of the program, whole: `run` takes the words, the inputs, the sink and the keeper,
//! and does all that the program does but `center`, which `run_center` does alone.
//!
//! Which words are a command stands in `vx_words`, what each command does in `specs/Outcome.antt`; the
//! commands themselves are crates of their own. How far the acts of a command are done when `run`
//! answers, and what it leaves of the devices, stands in `vx_command`.
//!
//! What runs leave of the journal stands in `specs/Journals.antt`, what `center` adds of scans that fit printed
//! pages in `specs/Adding.antt`; the functions of `laws` promise both.
//!
//! A new command has its words in `vx_words`, one line in `outcome_of` and where they say so in
//! `uses_keeper`, `appends` and `takes_first`, and one in `obey`.
#![tactic(auto)]

mod arguments;
mod centering;
mod laws;
mod top;

pub use arguments::{arguments_status, command_words};
pub use centering::{is_center, run_center};
pub use laws::{
    commands_are_named, ended_runs_keep_their_acts, fitting_sheets_are_in_their_items,
    runs_add_records, runs_keep_events, runs_leave_journals,
};
pub use top::{run, run_count};
pub use vx_command_center::{Item, run_items};
