//! Scripts of a station: lines of words, each of which asks for an event.
//!
//! Which lines a script has, and what a line says, stands in `specs/Script.antt`. `event_of` answers the
//! event of a line, or none where the line leaves the grammar of scripts. That such an event fits the
//! election and has a record is the law of `specs/Laws.antt`.
#![tactic(auto)]

mod events;
mod laws;
mod lines;
mod numbers;
mod verbs;
mod words;

pub use events::event_of;
pub use laws::said_events_are_held;
pub use lines::{SCRIPT_LIMIT, first_line};
