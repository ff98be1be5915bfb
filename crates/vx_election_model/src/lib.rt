//! What an election is: its contests, ballot styles, thresholds and reasons, and when it is valid.
//!
//! A valid election is one that a definition can give, whatever its digest: `IsValid` in
//! `specs/Valid.antt`. What the program plans, prints, reads and counts stands on this alone;
//! `vx_election` reads an election from the bytes of its definition.
#![tactic(auto)]

mod choice;
mod contest;
mod dates;
mod election;
mod indexes;
mod named;
mod reason;
mod style;

pub use choice::{Choice, Choices};
pub use contest::{Contest, Contests};
pub use dates::{are_digits, is_date, number_at};
pub use election::{Election, drop_election};
pub use indexes::Indexes;
pub use named::{Named, NamedList};
pub use reason::{Reason, ReasonSet};
pub use style::{Style, Styles};
