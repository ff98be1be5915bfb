//! The command `center`: the items of a count side by side at one shared center, each by a thread of its own.
//!
//! An item is a station's script or a scan: the events of an item, and the lines of its sheets that make
//! none, stand in `specs/Items.antt`, the sheets of a scan in `specs/Sheets.antt`. What the command does by
//! the history of its shared center is `center_outcome` of `specs/Outcome.antt`; that there is such a
//! history, `specs/Runs.antt`; what it asks of its inputs, and in which order, `specs/Asking.antt`. The
//! functions of `laws` promise what `specs/Laws.antt` says of the journal behind it.
#![tactic(auto)]

mod command;
mod ending;
mod hands;
mod item;
mod laws;
mod lines;
mod rooms;
mod scanning;
mod taking;
mod telling;
mod two;
mod working;

pub use command::center;
pub use item::{Item, Items, item_is_shared};
pub use laws::{
    center_keeps_journals, center_reports_what_is_kept, centers_keep_their_history,
    centers_may_not_begin, scans_are_items,
};
pub use working::run_items;
