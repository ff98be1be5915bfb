//! The journal of an election: its records, read again into a counting machine, and the steps of the
//! commands that read it and append to it.
//!
//! `replay_of` of `specs/Replay.antt` says which events the records of a journal keep, or which record
//! stops their reading, and why. A command reads its journal, begins it with the election's header
//! where no record was there, and keeps events: what each step appends stands in `specs/Keeping.antt`,
//! what it may answer and leaves of the keeper in `specs/Steps.antt`. The functions of `laws` promise
//! the laws of `specs/Laws.antt`: which records a journal grows by, and that whatever stands of a
//! command's acts leaves one.
#![tactic(auto)]

mod fault;
mod journal;
mod keeping;
mod laws;
mod reading;
mod replaying;

pub use fault::ReplayFault;
pub use journal::{Journal, drop_journal};
pub use keeping::{append_event, begin_journal, keep_event};
pub use laws::{
    begun_journals_are_journals, fronts_are_journals, headers_begin_journals,
    journals_are_histories, journals_are_their_events, journals_grow, journals_in_order,
    journals_stay, records_are_events, texts_are_of_journals,
};
pub use reading::read_journal;
pub use replaying::replay;
