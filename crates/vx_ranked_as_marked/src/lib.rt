//! What stands from the marks on the pages to the rankings that `ranked` counts. There is no work here; the
//! contract is a law.
//!
//! `specs/Ranked.antt` says which sheets are ranked as they were marked: those of scans within the margin that
//! runs of the program counted, of whose ranked contests nothing was decided. It rests on the headline
//! (`vx_headline`), which says so of an export of the same journal, and on the law of `vx_ranked` on sheets of
//! which nothing was decided.
#![tactic(auto)]

mod laws;

pub use laws::marked_pages_are_ranked;
