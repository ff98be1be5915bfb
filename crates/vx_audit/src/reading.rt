//! A report, and how long its lists are at most.

ghost use Rattle.std.specs.Prelude.{IfOk};
ghost use Rattle.vx_base.specs.Refusals.{Gives};
ghost use Rattle.vx_tally.specs.Faults.{is_no_memory};
ghost use Rattle.vx_tally.specs.Reading.{report_in_bytes};
ghost use Rattle.vx_audit.specs.Sized.{IsSized};

use std::alloc::Global;
use vx_tally::{Report, ReportFault, read_report};

/// The report that the bytes are, or their first fault, as `vx_tally` reads it.
pub fn read_sized(alloc: Global, bytes: &[u8]) -> Result<Report, ReportFault>
    ensures exact { Gives is_no_memory result (report_in_bytes bytes.now) }
    ensures sized { IfOk result IsSized }
{
    let report = read_report(alloc, bytes)?;
    Ok(report)
}
