//! Why events, readings, scripts and journals are refused, and the text of each refusal: its number
//! and its values with blanks between.
//!
//! The types stand below the crates that answer them, so that what all commands share names them
//! without standing on the counting machine or on the check. Their texts stand in
//! `specs/ReplyTexts.antt` and `specs/Texts.antt`.
#![tactic(auto)]

mod checking;
mod decision;
mod journal;
mod readings;
mod reply;

pub use checking::CheckFault;
pub use decision::DecisionFault;
pub use journal::JournalStop;
pub use readings::CertFault;
pub use reply::Reply;
