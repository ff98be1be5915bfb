//! The results of a count: what its report says, as a value, and the totals of it.
//!
//! What the report of kept events says is `report_of_events` in `specs/Report.antt`, a record for each sheet
//! that was added; `JournalRecords` makes these records one at a time, and no text of a report comes between.
//! `results_text` gives the totals of it by `vx_audit`, and then how many contests wait: `specs/Results.antt`. It
//! keeps no record: it walks over the sheets, each once, and keeps what their records sum up to,
//! `specs/Telling.antt`. What the rows of a history have is a law of `specs/Fitting.antt`.
//!
//! `results` does the command of that name: what it does is `results_outcome` in `specs/Outcome.antt`, and that
//! what it writes are the results of exactly the kept events is the law of `specs/Written.antt`. `summary` writes
//! every figure of a results report as lines, `summary_text` in `specs/Summary.antt`: the figures are defined in
//! `specs/Figures.antt` over the sheets in the order of adding, the kinds of ballots in `specs/Kinds.antt` and the
//! names that were written in in `specs/Named.antt`. What is kept while the sheets are walked over, each once, is
//! said by `specs/Counted.antt`, and what the counts come to by the laws of `specs/SummaryLaws.antt`. Neither appends
//! anything.
#![tactic(auto)]

mod contests;
mod counting;
mod group_lines;
mod groups;
mod kept_results;
mod kinds;
mod laws;
mod named;
mod records;
mod report;
mod standing;
mod summarizing;
mod summary_laws;
mod summing;
mod sums;
mod telling;
mod text_lines;
mod writing;

pub use kept_results::{results_are_of_what_was_kept, summary_is_of_what_was_kept};
pub use laws::rows_fit;
pub use report::{JournalRecords, drop_journal_records, report_contests};
pub use summary_laws::{empty_summary, summary_adds_up};
pub use telling::results_text;
pub use writing::{results, summary};
