//! The counting machine: what is answered to an event of a count, and which events are kept.
//!
//! A center is seen as its election and the list of the events that it has kept, and as nothing else.
//! The sheets, who holds them and what was decided of them are defined over that list in
//! `specs/Sheets.antt`, `specs/Holders.antt` and `specs/Decisions.antt`; the answers in
//! `specs/Replies.antt`; what a contest counts as in `specs/Finals.antt`; what waits in
//! `specs/Waiting.antt`; what is exported in `specs/Exports.antt`, and which contests an export shows, and
//! what as, in `specs/Shown.antt`. Beside the events a center keeps an entry for each sheet,
//! `specs/States.antt`, so that no call looks through the list. What holds over whole runs are the laws of
//! `specs/Laws.antt`.
#![tactic(auto)]

mod center;
mod counting;
mod decided;
mod entry;
mod exporting;
mod laws;
mod name;
mod replying;
mod rows;
mod waiting;

pub use center::{Center, Events, added, drop_center};
pub use decided::Decided;
pub use laws::{
    added_sheets_are_alone, added_sheets_fit, decisions_are_the_holders,
    exports_show_what_was_kept, exports_stay, found_sheets_stay, one_station_holds_a_sheet,
    replies_are_done_or_refuse, same_keys_are_equal, sheets_come_in_order, sheets_have_own_keys,
    sheets_have_own_places, sheets_stay,
};
pub use rows::{ExportSheet, ExportSheets, Final, Finals, SlotNames, drop_rows};
pub use vx_events::{Decision, Event, Key, Options, Reply, WriteInName};
