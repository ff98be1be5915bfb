//! The lines of texts, which are batches and names that were written in, and the line that says how much waits.

ghost use Rattle.std.specs.Prelude.{◌≡◌, ◌++◌, OnOk, string_bytes};
ghost use Rattle.std.specs.List.{flat_map};
ghost use Rattle.vx_results.specs.Results.{waiting_line};
ghost use Rattle.vx_results.specs.Summary as lines;
ghost use Rattle.vx_results.specs.Sums.{kept_texts, sum_at};

use crate::sums::Sums;
use vx_base::OutOfMemory;

/// Adds the line of a batch.
fn push_batch(
    text: &mut String,
    batch: &str,
    sheets: &Sums,
    waits: &Sums,
) -> Result<(), OutOfMemory>
    ensures { OnOk result (string_bytes text.new ≡ string_bytes text.old
        ++ lines.batch_text (sum_at sheets.now) (sum_at waits.now) batch.now) }
{
    let (count, waiting) = (sheets.sum(batch), waits.sum(batch));
    write!(text, "batch {batch} sheets {count} waiting {waiting}\n")
}

/// Adds the lines of the batches.
pub(crate) fn push_batches(
    text: &mut String,
    sheets: &Sums,
    waits: &Sums,
) -> Result<(), OutOfMemory>
    ensures { OnOk result (string_bytes text.new ≡ string_bytes text.old
        ++ flat_map (lines.batch_text (sum_at sheets.now) (sum_at waits.now)) (kept_texts sheets.now)) }
{
    for place in 0..sheets.len() {
        push_batch(text, sheets.text_at(place), sheets, waits)?;
    }
    Ok(())
}

/// Adds the line of a name.
fn push_name(text: &mut String, contest: &str, name: &str, names: &Sums) -> Result<(), OutOfMemory>
    ensures { OnOk result (string_bytes text.new ≡ string_bytes text.old
        ++ lines.name_text contest.now (sum_at names.now) name.now) }
{
    let votes = names.sum(name);
    write!(text, "named {contest} {name} {votes}\n")
}

/// Adds the lines of the names that were written into a contest.
pub(crate) fn push_names(text: &mut String, contest: &str, names: &Sums) -> Result<(), OutOfMemory>
    ensures { OnOk result (string_bytes text.new ≡ string_bytes text.old
        ++ flat_map (lines.name_text contest.now (sum_at names.now)) (kept_texts names.now)) }
{
    for place in 0..names.len() {
        push_name(text, contest, names.text_at(place), names)?;
    }
    Ok(())
}

/// Adds the line that says how many contests wait.
pub(crate) fn push_waiting(text: &mut String, count: u64) -> Result<(), OutOfMemory>
    ensures { OnOk result (string_bytes text.new ≡ string_bytes text.old ++ waiting_line count) }
{
    write!(text, "waiting {count}\n")
}
