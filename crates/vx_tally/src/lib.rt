//! Reports read back, and their records summed.
//!
//! `read_report` reads the bytes of a cast vote record report, a JSON object: its units, its
//! contests with their selections, and its records. Which report it is, and which fault comes
//! first, is one function of the bytes, `report_in_bytes` in `specs/Reading.antt`, with a
//! definition for each kind of object beside it. A `Tally` keeps a list of records, and its totals
//! are sums over the rows of that list: `specs/Totals.antt`. `Totals` keep the sums alone, and no
//! record: `specs/Running.antt`.
#![tactic(auto)]

mod cells;
mod contests;
mod fault;
mod ids;
mod kept;
mod laws;
mod members;
mod names;
mod reading;
mod records;
mod report;
mod sums;
mod tally;
mod totals;

pub use cells::Cell;
pub use fault::ReportFault;
pub use laws::sums_are_of_any_order;
pub use reading::read_report;
pub use report::{
    CvrRecord, CvrRecords, RecordContest, RecordContests, Report, ReportContest, ReportContests,
    VoteRow, VoteRows, drop_report,
};
pub use tally::{Tally, drop_tally};
pub use totals::{Totals, drop_totals};
