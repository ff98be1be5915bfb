//! The report that bytes give.

ghost use Rattle.std.specs.Prelude.{◌≡◌, ◌≤◌, length, IfOk, Ok};
ghost use Rattle.serde_json.specs.View.{view};
ghost use Rattle.vx_base.specs.Refusals.{Gives, GivesAs};
ghost use Rattle.vx_tally.specs.Faults.{is_no_memory};
ghost use Rattle.vx_tally.specs.Totals.{AreCountable};
ghost use Rattle.vx_tally.specs.Reading.{report_behind, report_in, value_in, report_in_bytes};

use crate::contests::{Directory, contests_of, drop_directory, units_of};
use crate::fault::ReportFault;
use crate::ids::Ids;
use crate::records::records_of;
use crate::report::{CvrRecords, Report};
use serde_json::Value;
use std::alloc::Global;

/// The report of its members.
fn report_with(
    alloc: Global,
    units: &Ids,
    contests: Directory,
    records: CvrRecords,
) -> Result<Report, ReportFault>
    ensures { Gives is_no_memory result
        (Ok (record { units = units.now; contests = contests; records = records })) }
{
    let contests = contests.into_contests();
    let units = units.to_texts(alloc)?;
    Ok(Report {
        units,
        contests,
        records,
    })
}

/// The report that has those units; its other members are read in their order.
#[tactic(auto, unfolding(crate::specs::Reading::report_behind))]
fn report_behind(alloc: Global, units: &Ids, value: &Value) -> Result<Report, ReportFault>
    requires { length units.now ≤ 1000000 }
    ensures { Gives is_no_memory result (report_behind units.now (view value.now)) }
{
    let contests = contests_of(alloc, value)?;
    match records_of(alloc, units, &contests, value) {
        Ok(records) => report_with(alloc, units, contests, records),
        Err(fault) => {
            drop_directory(contests);
            Err(fault)
        }
    }
}

/// The members of a report in their order.
#[tactic(auto, unfolding(crate::specs::Reading::report_in))]
fn report_of(alloc: Global, value: &Value) -> Result<Report, ReportFault>
    ensures { Gives is_no_memory result (report_in (view value.now)) }
{
    let units = units_of(alloc, value)?;
    report_behind(alloc, &units, value)
}

/// The value that the bytes are.
#[tactic(auto, unfolding(crate::specs::Reading::value_in))]
fn value_of(alloc: Global, bytes: &[u8]) -> Result<Value, ReportFault>
    ensures { GivesAs (λ value. view value) is_no_memory result (value_in bytes.now) }
{
    let Ok(text) = str::from_utf8(bytes) else {
        return Err(ReportFault::NotJson);
    };
    match Value::from_str(alloc, text) {
        Ok(value) => Ok(value),
        Err(error) if error.is_memory() => Err(ReportFault::OutOfMemory),
        Err(_) => Err(ReportFault::NotJson),
    }
}

/// The report that the bytes are, or their first fault. It is read depth first, element by
/// element.
#[tactic(auto, unfolding(crate::specs::Reading::report_in_bytes))]
pub fn read_report(alloc: Global, bytes: &[u8]) -> Result<Report, ReportFault>
    ensures exact { Gives is_no_memory result (report_in_bytes bytes.now) }
    ensures countable { IfOk result (λ report. AreCountable report.records) }
{
    let value = value_of(alloc, bytes)?;
    report_of(alloc, &value)
}
