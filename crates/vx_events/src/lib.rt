//! The events that ballots are counted by, and what is answered to them.
//!
//! A sheet is added under a key; a station claims a sheet, decides its contests and releases it.
//! Which events fit an election is defined in `specs/Fits.antt`; it looks at the election alone.
//! `fits` answers exactly that, and takes no memory.
#![tactic(auto)]

mod ascending;
mod decision;
mod event;
mod fitting;
mod key;
mod options;

pub use decision::{Decision, WriteInName};
pub use event::{Event, drop_event, event_is_shared};
pub use fitting::{fits, is_batch, is_decision, is_key, is_station};
pub use key::Key;
pub use options::Options;
pub use vx_refusals::Reply;
