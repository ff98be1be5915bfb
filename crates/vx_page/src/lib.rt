//! Reading the scan of a page: its reading, or its first fault.
//!
//! What a reading is, and in which order faults come, is `reading_of` in `specs/Reading.antt` of
//! `vx_scan_model`; the page that a code names is `named_plan` in `specs/Named.antt` there. The frame
//! is tested before any memory is taken; a counter of the page and the lists of scores and states
//! are all that takes some.
#![tactic(auto)]

mod bubbles;
mod code;
mod page;

pub use page::{read_page, read_planned};
