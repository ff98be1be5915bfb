//! The command `export`: the report of the count that the journal holds, as cast vote records.
//!
//! What it does is `export_outcome` in `specs/Outcome.antt`; what the report is stands in `vx_cvr`.
//! It appends nothing. The function of `laws` promises the law of `specs/Laws.antt`: what it writes is the
//! report of exactly the kept events, and shows what was kept.
#![tactic(auto)]

mod exporting;
mod laws;
mod pieces;

pub use exporting::export;
pub use laws::exports_write_what_was_kept;
