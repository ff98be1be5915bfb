//! What a sheet was read as, and for which reasons a person has to look at a contest of it.
//!
//! A sheet is the front and the back of a card. The five reasons are defined in
//! `specs/Reasons.antt`; `reasons` answers exactly those that hold and are enabled, and takes no
//! memory.
#![tactic(auto)]

mod marks;
mod rules;

pub use marks::{ContestMarks, ContestMarksList, SheetMarks, drop_marks};
pub use rules::{is_blank, reason_word, reasons};
