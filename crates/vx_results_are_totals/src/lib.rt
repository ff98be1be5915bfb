//! That `results` writes what `totals` writes of the export of the same journal, and `sample` what `audit` writes:
//! laws over the definitions of the commands.
//!
//! `results` counts a journal sheet by sheet, and `totals` reads a report. Wherever bytes are the export of a
//! journal, and no longer than an input may be, the text that `totals` writes of them and a line that says how
//! many contests wait are what `results` writes; and that number is the last line of `queue`:
//! `specs/Laws.antt`. Of such bytes `audit` does what `sample` does of the journal: `specs/Samples.antt`.
#![tactic(auto)]

mod laws;

pub use laws::{results_are_the_totals, results_wait_as_queues_do, samples_are_the_audits};
