//! The records of a journal: each event as one line of text, and the header of an election.
//!
//! Each event has exactly one spelling, `record_of` of `specs/Records.antt`; `specs/Held.antt` says
//! which events have a record, whatever the election. `header` and `encode` give the spellings.
//! `decode` reads them back: `event_in` of `specs/Reading.antt`, which is the event of the record or
//! the length of the longest front of the bytes that begins a record. `header_digest` does the same
//! with headers.
#![tactic(auto)]

mod acts;
mod characters;
mod contests;
mod decisions;
mod decoding;
mod encoding;
mod keys;
mod laws;
mod letters;
mod numbers;
mod options;
mod parts;
mod sheets;

pub use decoding::{JournalFault, decode, header_digest};
pub use encoding::{encode, header};
pub use laws::{headers_are_read, records_are_read, refusals_are_small};
