//! The election that a definition's bytes give, or the first fault of the bytes.
//!
//! `read_election` reads the whole definition, a JSON object. Which election it is, and which fault
//! comes first, is one function of the bytes, `election_of` in `specs/Reading.antt`; its parts stand
//! beside it, one definition for each member and kind of object. What a valid election is stands in
//! `specs/Valid.antt`, and an election that was read is valid.
#![tactic(auto)]

mod candidates;
mod contests;
mod date;
mod directory;
mod fault;
mod ids;
mod laws;
mod members;
mod names;
mod paper;
mod reading;
mod references;
mod settings;
mod styles;

pub use fault::ElectionFault;
pub use laws::defined_elections_are_valid;
pub use reading::read_election;
pub use vx_election_model::{
    Choice, Choices, Contest, Contests, Election, Indexes, Named, NamedList, Reason, ReasonSet,
    Style, Styles,
};
