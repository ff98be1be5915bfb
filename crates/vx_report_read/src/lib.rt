//! That what was exported is read: laws without work over the report of a count and what reads it.
//!
//! What `export` writes of a journal is UTF-8, since the texts of its election and the words that it
//! keeps are: `specs/Texts.antt`. It is read as that report: its units, its contests with their
//! selections, and a record for each sheet that was added, with the votes that the report's text gives
//! to the options that count as selected: `specs/Exported.antt`. The totals of the records are sums over
//! the exported contests of the sheets: `specs/Totals.antt`. A caller has a law among its facts by
//! calling its function.
#![tactic(auto)]

mod laws;

pub use laws::{
    histories_are_read, journals_are_utf8, reports_are_read, reports_are_read_back,
    reports_are_utf8, rows_are_the_exported, totals_are_the_exported,
};
