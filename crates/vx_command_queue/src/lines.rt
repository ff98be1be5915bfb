ghost use Rattle.std.specs.Prelude.{◌≡◌, ◌++◌, OnOk, string_bytes};
ghost use Rattle.vx_command_queue.specs.Queue as lines;
ghost use Rattle.vx_command_queue.specs.Queue.{reasons_word, wait_line};

use vx_base::OutOfMemory;
use vx_election_model::{Reason, ReasonSet};
use vx_events::Key;
use vx_rules::reason_word;

/// Adds a word behind a comma, or without one where it is the first.
fn push_word(text: &mut String, first: bool, word: &str) -> Result<(), OutOfMemory>
    ensures { OnOk result (string_bytes text.new ≡ string_bytes text.old ++ lines.further first word.now) }
{
    if first {
        text.push_str(word)
    } else {
        write!(text, ",{word}")
    }
}

/// Adds the reasons of a set, in their order, with commas between.
fn push_reasons(text: &mut String, set: ReasonSet) -> Result<(), OutOfMemory>
    ensures { OnOk result (string_bytes text.new ≡ string_bytes text.old ++ reasons_word set) }
{
    let mut first = true;
    for reason in [
        Reason::Overvote,
        Reason::Undervote,
        Reason::MarginalMark,
        Reason::BlankBallot,
        Reason::WriteIn,
    ] {
        if set.has(reason) {
            push_word(text, first, reason_word(reason))?;
            first = false;
        }
    }
    Ok(())
}

/// Adds who holds a sheet.
fn push_holder(text: &mut String, holder: Option<u32>) -> Result<(), OutOfMemory>
    ensures { OnOk result (string_bytes text.new ≡ string_bytes text.old ++ lines.holder_word holder) }
{
    match holder {
        None => text.push_str("-"),
        Some(station) => write!(text, "{station}"),
    }
}

/// Adds the line of a contest that waits.
pub(crate) fn push_wait(
    text: &mut String,
    key: &Key,
    contest: &str,
    reasons: ReasonSet,
    holder: Option<u32>,
) -> Result<(), OutOfMemory>
    ensures { OnOk result (string_bytes text.new
        ≡ string_bytes text.old ++ wait_line key.now contest.now reasons holder) }
{
    let batch = key.batch.as_str();
    write!(text, "wait {batch} {} {contest} ", key.number)?;
    push_reasons(text, reasons)?;
    text.push_str(" holder ")?;
    push_holder(text, holder)?;
    text.push_str("\n")?;
    Ok(())
}

/// Adds the last line: how many wait.
pub(crate) fn push_count(text: &mut String, count: usize) -> Result<(), OutOfMemory>
    ensures { OnOk result (string_bytes text.new ≡ string_bytes text.old ++ lines.count_line count) }
{
    write!(text, "waiting {count}\n")
}
