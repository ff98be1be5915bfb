//! The search for the border of a scanned page: its timing marks, followed round the page from the corner.
//!
//! The paper says how many marks there are, 146 or 168; the rules are the same for both.
//!
//! What a followed list of places is, and what `trace` answers, is defined in `specs/Following.antt` and
//! `specs/Border.antt` of `vx_mark_model`. That a scan has one border, or one first fault, is a law there.
#![tactic(auto)]

mod following;

pub use following::trace;
