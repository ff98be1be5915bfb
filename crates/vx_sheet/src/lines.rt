ghost use Rattle.std.specs.Prelude.{◌≡◌, ◌++◌, ◌<◌, ◌+◌, ◌^◌, OnOk, Some, length, slice_get, string_bytes, true};
ghost use Rattle.std.specs.List.{flat_map, list_all};
ghost use Rattle.std.specs.Option.{option_copied};
ghost use Rattle.vx_election_model.specs.Options.{options_of};
ghost use Rattle.vx_events.specs.Fits.{is_read};
ghost use Rattle.vx_sheet.specs.Lines as lines;
ghost use Rattle.vx_sheet.specs.Shows.{IsReadAll};

use crate::came::Came;
use crate::events::NUMBER_LIMIT;
use vx_base::OutOfMemory;
use vx_election_model::{Contest, Election, Reason, ReasonSet};
use vx_rules::{ContestMarks, SheetMarks, is_blank, reason_word, reasons};

/// Adds the line of a reason of a contest.
fn push_reason(
    text: &mut String,
    batch: &str,
    number: u64,
    contest: &str,
    reason: Reason,
) -> Result<(), OutOfMemory>
    ensures { OnOk result (string_bytes text.new
        ≡ string_bytes text.old ++ lines.reason_line batch.now number contest.now reason) }
{
    let reason = reason_word(reason);
    write!(text, "reason {batch} {number} {contest} {reason}\n")
}

/// Adds the line of a reason, if a set has it.
fn push_if_held(
    text: &mut String,
    batch: &str,
    number: u64,
    contest: &str,
    set: ReasonSet,
    reason: Reason,
) -> Result<(), OutOfMemory>
    ensures { OnOk result (string_bytes text.new
        ≡ string_bytes text.old ++ lines.line_if_held batch.now number contest.now set reason) }
{
    if set.has(reason) {
        push_reason(text, batch, number, contest, reason)?;
    }
    Ok(())
}

/// Adds a line for each reason of a set.
fn push_reasons(
    text: &mut String,
    batch: &str,
    number: u64,
    contest: &str,
    set: ReasonSet,
) -> Result<(), OutOfMemory>
    ensures { OnOk result (string_bytes text.new
        ≡ string_bytes text.old ++ lines.reason_lines batch.now number contest.now set) }
{
    push_if_held(text, batch, number, contest, set, Reason::Overvote)?;
    push_if_held(text, batch, number, contest, set, Reason::Undervote)?;
    push_if_held(text, batch, number, contest, set, Reason::MarginalMark)?;
    push_if_held(text, batch, number, contest, set, Reason::BlankBallot)?;
    push_if_held(text, batch, number, contest, set, Reason::WriteIn)?;
    Ok(())
}

/// The contest that was read.
fn contest_of<'e>(election: &'e Election, marks: &ContestMarks) -> Option<&'e Contest>
    ensures { slice_get election.now.contests marks.now.contest ≡ option_copied result }
{
    election.contests.as_slice().get(marks.contest as usize)
}

/// Adds a line for each enabled reason of a contest that was read so.
fn push_marks(
    text: &mut String,
    election: &Election,
    batch: &str,
    number: u64,
    blank: bool,
    marks: &ContestMarks,
    contest: &Contest,
) -> Result<(), OutOfMemory>
    requires { length marks.now.states ≡ options_of contest.now }
    ensures { OnOk result (string_bytes text.new ≡ string_bytes text.old
        ++ lines.lines_of_contest election.now batch.now number blank marks.now (Some contest.now)) }
{
    let set = reasons(contest, &marks.states, blank, election.reasons);
    push_reasons(text, batch, number, contest.id.as_str(), set)?;
    Ok(())
}

/// Adds a line for each enabled reason of a contest of a sheet.
fn push_contest(
    text: &mut String,
    election: &Election,
    batch: &str,
    number: u64,
    blank: bool,
    marks: &ContestMarks,
) -> Result<(), OutOfMemory>
    requires { is_read election.now marks.now ≡ true }
    ensures { OnOk result (string_bytes text.new
        ≡ string_bytes text.old ++ lines.contest_lines election.now batch.now number blank marks.now) }
{
    match contest_of(election, marks) {
        None => Ok(()),
        Some(contest) => {
            push_marks(text, election, batch, number, blank, marks, contest)?;
            Ok(())
        }
    }
}

/// Adds a line for each enabled reason of each of these contests of a sheet.
fn push_contests(
    text: &mut String,
    election: &Election,
    batch: &str,
    number: u64,
    blank: bool,
    contests: &[ContestMarks],
) -> Result<(), OutOfMemory>
    requires { list_all (is_read election.now) contests.now ≡ true }
    ensures { OnOk result (string_bytes text.new ≡ string_bytes text.old
        ++ flat_map (lines.contest_lines election.now batch.now number blank) contests.now) }
{
    for marks in contests {
        push_contest(text, election, batch, number, blank, marks)?;
    }
    Ok(())
}

/// Adds the lines of the reasons of a sheet.
fn push_sheet(
    text: &mut String,
    election: &Election,
    batch: &str,
    number: u64,
    sheet: &SheetMarks,
) -> Result<(), OutOfMemory>
    requires { list_all (is_read election.now) sheet.now.contests ≡ true }
    ensures { OnOk result (string_bytes text.new ≡ string_bytes text.old
        ++ lines.sheet_reasons election.now batch.now number sheet.now) }
{
    let contests = sheet.contests.as_slice();
    push_contests(text, election, batch, number, is_blank(sheet), contests)
}

/// Adds what a sheet came to, and the line's end.
fn push_came(text: &mut String, came: &Came) -> Result<(), OutOfMemory>
    ensures { OnOk result (string_bytes text.new
        ≡ string_bytes text.old ++ lines.came_text came.now) }
{
    match came {
        Came::Added(sheet) => {
            let (card, front) = (sheet.card, u64::from(sheet.front));
            write!(text, " added card {card} pages {front} {}\n", front + 1)
        }
        Came::Repeated => text.push_str(" repeated\n"),
        Came::Unread(image, fault) => write!(text, " unread {image} {fault}\n"),
        Came::Unpaired(fault) => write!(text, " unpaired {fault}\n"),
        Came::Single => text.push_str(" single\n"),
        Came::Full(count) => write!(text, " full {count}\n"),
        Came::Beyond => {
            let most = NUMBER_LIMIT;
            write!(text, " beyond {most}\n")
        }
    }
}

/// Adds the lines of the reasons of a sheet that was added.
fn push_reasons_told(
    text: &mut String,
    election: &Election,
    batch: &str,
    number: u64,
    came: &Came,
) -> Result<(), OutOfMemory>
    requires { IsReadAll election.now came.now }
    ensures { OnOk result (string_bytes text.new ≡ string_bytes text.old
        ++ lines.reasons_told election.now batch.now number came.now) }
{
    match came {
        Came::Added(sheet) => push_sheet(text, election, batch, number, sheet),
        _ => Ok(()),
    }
}

/// Adds the lines of the sheet with a number of a batch: what it came to, and where it was added a line
/// for each enabled reason of each of its contests.
#[tactic(auto, unfolding(crate::specs::Lines::lines_of))]
pub fn push_lines(
    text: &mut String,
    election: &Election,
    batch: &str,
    number: u64,
    came: &Came,
) -> Result<(), OutOfMemory>
    requires { IsReadAll election.now came.now }
    ensures { OnOk result (string_bytes text.new
        ≡ string_bytes text.old ++ lines.lines_of election.now batch.now number came.now) }
{
    write!(text, "sheet {batch} {number}")?;
    push_came(text, came)?;
    push_reasons_told(text, election, batch, number, came)?;
    Ok(())
}

/// Adds the last line of a count: how many sheets were added, were there before, and all others.
#[tactic(auto, unfolding(crate::specs::Lines::counted_line))]
pub fn push_counted(
    text: &mut String,
    added: u64,
    repeated: u64,
    unread: u64,
) -> Result<(), OutOfMemory>
    ensures { OnOk result (string_bytes text.new
        ≡ string_bytes text.old ++ lines.counted_line added repeated unread) }
{
    write!(
        text,
        "counted {added} added {repeated} repeated {unread} unread\n"
    )
}
