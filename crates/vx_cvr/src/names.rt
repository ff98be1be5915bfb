//! The names by which parts of a report refer to each other.

ghost use Rattle.std.specs.Prelude.{◌≡◌, IfOk, string_bytes};
ghost use Rattle.vx_cvr.specs.Names as spec;

use std::alloc::Global;
use vx_base::OutOfMemory;
use vx_events::Key;

pub fn device_name(alloc: Global, device: &str) -> Result<String, OutOfMemory>
    ensures { IfOk result (λ name. string_bytes name ≡ spec.device_name device.now) }
{
    format!(in alloc; "device-{device}")
}

pub fn precinct_name(alloc: Global, id: &str) -> Result<String, OutOfMemory>
    ensures { IfOk result (λ name. string_bytes name ≡ spec.precinct_name id.now) }
{
    format!(in alloc; "precinct-{id}")
}

pub fn contest_name(alloc: Global, contest: &str) -> Result<String, OutOfMemory>
    ensures { IfOk result (λ name. string_bytes name ≡ spec.contest_name contest.now) }
{
    format!(in alloc; "contest-{contest}")
}

/// A candidate of a contest, by its option's number.
pub fn candidate_name(alloc: Global, contest: &str, option: usize) -> Result<String, OutOfMemory>
    ensures { IfOk result (λ name. string_bytes name ≡ spec.candidate_name contest.now option) }
{
    format!(in alloc; "candidate-{contest}-{option}")
}

/// What may be selected in a contest, by its option's number.
pub fn selection_name(alloc: Global, contest: &str, option: usize) -> Result<String, OutOfMemory>
    ensures { IfOk result (λ name. string_bytes name ≡ spec.selection_name contest.now option) }
{
    format!(in alloc; "selection-{contest}-{option}")
}

/// A sheet: its batch and its number.
pub fn sheet_name(alloc: Global, key: &Key) -> Result<String, OutOfMemory>
    ensures { IfOk result (λ name. string_bytes name ≡ spec.sheet_name key.now) }
{
    let batch = key.batch.as_str();
    format!(in alloc; "{batch}-{}", key.number)
}
