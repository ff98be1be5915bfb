//! The sheet of two readings, the front and the back of a card; what a sheet of a count comes to, and the
//! lines that say so.
//!
//! `specs/Sheet.antt` says what the sheet of two readings is, or which of three faults is the first;
//! `specs/FaultTexts.antt` how a fault is printed. `pair` answers exactly that, whichever page comes
//! first. That the sheet of readings of planned pages fits the election is a law.
//!
//! What two images of a count come to before the journal is asked is `sheet_read` of `specs/Came.antt`;
//! `read_sheet` answers that, and that a sheet can be kept in a journal. Which event it makes, if it makes
//! one, is `event_of` of `specs/Events.antt`, which `read_event` answers. The lines of a sheet are `lines_of`
//! of `specs/Lines.antt`, and `push_lines` writes exactly those. That two images within the margin are read
//! as the sheet that was printed and marked is a law, its statement `specs/Margin.antt`.
#![tactic(auto)]

mod came;
mod events;
mod fault;
mod laws;
mod lines;
mod marks;
mod pairing;
mod reading;

pub use came::Came;
pub use events::{NUMBER_LIMIT, read_event};
pub use fault::SheetFault;
pub use laws::{
    either_page_may_come_first, fitting_sheets_are_read, sheet_events_are_keepable, sheets_fit,
};
pub use lines::{push_counted, push_lines};
pub use pairing::pair;
pub use reading::{PageRead, read_image, read_sheet};
