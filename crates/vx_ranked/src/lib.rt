//! The call `run_ranked`: ranked contests, which are groups of ordinary contests, one for each rank.
//!
//! `read_ranked` reads the bytes of a file of groups, a JSON object, against an election and the plans
//! of its cards. Which groups they are, and which fault comes first, is one function of the bytes,
//! `groups_in_bytes` in `specs/Reading.antt`; when contests are alike stands in `specs/Alike.antt`, and
//! when a card splits a group in `specs/Splits.antt`.
//!
//! `ranked_text` counts the groups by the events that a center has kept, and gives the text of the rounds,
//! `ranked_text` in `specs/Texts.antt`; what the sheets rank stands in `specs/Rankings.antt`. The functions
//! of `laws` promise that groups that were read can be counted (`specs/Groups.antt`), and that sheets of
//! which nothing was decided are ranked as they were marked (`specs/Marked.antt`).
//!
//! `run_ranked` does the command `ranked`, whole: it counts the ranked contests of a journal in rounds. What it
//! does is `ranked_outcome` in `specs/Outcome.antt`, acts in order and the status that it ends with; which words
//! are a `ranked` stands in `specs/Words.antt`, the numbers and lines of its statuses in `specs/Status.antt`, how
//! far its acts are done when it answers in `specs/Done.antt`. Acts, and how they break off, are those of
//! `vx_command`. It appends nothing.
#![tactic(auto)]

mod alike;
mod fault;
mod gathering;
mod groups;
mod laws;
mod lines;
mod members;
mod ranking;
mod reading;
mod sheets;
mod splits;
mod status;
mod taking;
mod telling;
mod top;
mod words;
mod writing;

pub use fault::RankedFault;
pub use groups::{Group, Groups, drop_groups};
pub use laws::{read_groups_are_groups, undecided_sheets_are_ranked_as_marked};
pub use reading::read_ranked;
pub use sheets::SheetRankings;
pub use status::{RankedMessage, RankedStatus};
pub use telling::ranked_text;
pub use top::run_ranked;
