//! What every crate may stand on: lists, want of memory, and what a refusal is.
//!
//! `OutOfMemory` is std's error of an allocation that failed. A call whose answer is defined by a
//! function meets `Gives` of `specs/Refusals.antt`: it answers what the definition says, or a
//! refusal that is want of memory. A number has one spelling, digits without a sign and without a
//! leading zero: `read_number` reads it. `proofs/` has general lemmas that std lacks.
#![tactic(auto)]

mod bytes;
mod list;
mod numeral;

pub use bytes::Bytes;
pub use list::ListOf;
pub use numeral::read_number;
pub use std::alloc::AllocError as OutOfMemory;
