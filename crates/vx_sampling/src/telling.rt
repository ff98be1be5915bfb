//! The text of `risk`.

ghost use Rattle.std.specs.Prelude.{◌≡◌, ◌++◌, ◌<◌, ◌^◌, IfOk, OnOk, length, string_bytes};
ghost use Rattle.std.specs.List.{flat_map};
ghost use Rattle.vx_sampling.specs.Text as lines;

use crate::rows::{Figures, Row, Told};
use std::alloc::Global;
use vx_base::OutOfMemory;

/// Adds millionths as a fraction with six decimals.
fn push_fraction(text: &mut String, millionths: u32) -> Result<(), OutOfMemory>
    ensures { OnOk result (string_bytes text.new ≡ string_bytes text.old ++ lines.fraction_text millionths) }
{
    let (whole, first, second) = (
        millionths / 1_000_000,
        millionths / 100_000 % 10,
        millionths / 10_000 % 10,
    );
    let (third, fourth, fifth) = (
        millionths / 1_000 % 10,
        millionths / 100 % 10,
        millionths / 10 % 10,
    );
    let sixth = millionths % 10;
    write!(text, "{whole}.{first}{second}{third}{fourth}{fifth}{sixth}")
}

/// Adds whether the risk is at most the limit.
fn push_met(text: &mut String, is_met: bool) -> Result<(), OutOfMemory>
    ensures { OnOk result (string_bytes text.new ≡ string_bytes text.old ++ lines.met_text is_met) }
{
    if is_met {
        text.push_str(" met")
    } else {
        text.push_str(" open")
    }
}

/// Adds the counts of a contest's figures.
#[tactic(auto, unfolding(crate::specs::Text::counts_text))]
fn push_counts(text: &mut String, figures: Figures) -> Result<(), OutOfMemory>
    ensures { OnOk result (string_bytes text.new ≡ string_bytes text.old ++ lines.counts_text figures) }
{
    let Figures {
        margin,
        one,
        two,
        missing,
        ..
    } = figures;
    write!(
        text,
        " margin {margin} one {one} two {two} missing {missing} risk "
    )
}

/// Adds the figures of a contest.
fn push_figures(text: &mut String, figures: Figures) -> Result<(), OutOfMemory>
    ensures { OnOk result (string_bytes text.new ≡ string_bytes text.old ++ lines.told_text (Told.Risk figures)) }
{
    push_counts(text, figures)?;
    push_fraction(text, figures.millionths)?;
    push_met(text, figures.is_met)?;
    Ok(())
}

/// Adds what is told of a contest.
fn push_told(text: &mut String, told: Told) -> Result<(), OutOfMemory>
    ensures { OnOk result (string_bytes text.new ≡ string_bytes text.old ++ lines.told_text told) }
{
    match told {
        Told::Tie => text.push_str(" tie"),
        Told::WriteIn => text.push_str(" write-in"),
        Told::Risk(figures) => push_figures(text, figures),
    }
}

/// Adds the line of a contest.
fn push_row(text: &mut String, row: &Row) -> Result<(), OutOfMemory>
    ensures { OnOk result (string_bytes text.new ≡ string_bytes text.old ++ lines.row_line row.now) }
{
    write!(text, "contest {}", row.name.as_str())?;
    push_told(text, row.told)?;
    text.push_str("\n")?;
    Ok(())
}

/// Adds the lines of all contests.
fn push_rows(text: &mut String, rows: &[Row]) -> Result<(), OutOfMemory>
    ensures { OnOk result (string_bytes text.new ≡ string_bytes text.old ++ flat_map lines.row_line rows.now) }
{
    for row in rows {
        push_row(text, row)?;
    }
    Ok(())
}

/// Adds how many draws are enough for a contest.
fn push_number(text: &mut String, name: &str, enough: Option<u32>) -> Result<(), OutOfMemory>
    ensures { OnOk result (string_bytes text.new ≡ string_bytes text.old ++ lines.number_line name.now enough) }
{
    match enough {
        None => write!(text, "enough {name} none\n"),
        Some(number) => write!(text, "enough {name} {number}\n"),
    }
}

/// Adds that of a contest that has a figure.
fn push_enough(text: &mut String, row: &Row) -> Result<(), OutOfMemory>
    ensures { OnOk result (string_bytes text.new ≡ string_bytes text.old ++ lines.enough_line row.now) }
{
    match row.told {
        Told::Tie => Ok(()),
        Told::WriteIn => Ok(()),
        Told::Risk(figures) => push_number(text, row.name.as_str(), figures.enough),
    }
}

/// Adds those of all contests.
fn push_enoughs(text: &mut String, rows: &[Row]) -> Result<(), OutOfMemory>
    ensures { OnOk result (string_bytes text.new ≡ string_bytes text.old ++ flat_map lines.enough_line rows.now) }
{
    for row in rows {
        push_enough(text, row)?;
    }
    Ok(())
}

/// Whether a contest's risk is at most the limit.
fn is_met(told: Told) -> bool
    ensures { result ≡ lines.is_met told }
{
    match told {
        Told::Risk(figures) => figures.is_met,
        _ => false,
    }
}

/// Whether it is more.
fn is_unmet(told: Told) -> bool
    ensures { result ≡ lines.is_unmet told }
{
    match told {
        Told::Risk(figures) => !figures.is_met,
        _ => false,
    }
}

fn is_tie(told: Told) -> bool
    ensures { result ≡ lines.is_tie told }
{
    matches!(told, Told::Tie)
}

fn is_write_in(told: Told) -> bool
    ensures { result ≡ lines.is_write_in told }
{
    matches!(told, Told::WriteIn)
}

/// How many contests have a risk that is at most the limit.
fn met_in(rows: &[Row]) -> usize
    ensures { result ≡ lines.how_many lines.is_met rows.now }
{
    rows.iter().filter(|row| is_met(row.told)).count()
}

/// How many have one that is more.
fn unmet_in(rows: &[Row]) -> usize
    ensures { result ≡ lines.how_many lines.is_unmet rows.now }
{
    rows.iter().filter(|row| is_unmet(row.told)).count()
}

/// How many have a tie.
fn ties_in(rows: &[Row]) -> usize
    ensures { result ≡ lines.how_many lines.is_tie rows.now }
{
    rows.iter().filter(|row| is_tie(row.told)).count()
}

/// How many have write-in votes that reach a winner's.
fn write_ins_in(rows: &[Row]) -> usize
    ensures { result ≡ lines.how_many lines.is_write_in rows.now }
{
    rows.iter().filter(|row| is_write_in(row.told)).count()
}

/// Adds how many draws and records there are.
#[tactic(auto, unfolding(crate::specs::Text::draws_text))]
fn push_draws(text: &mut String, size: u32, records: usize) -> Result<(), OutOfMemory>
    ensures { OnOk result (string_bytes text.new ≡ string_bytes text.old ++ lines.draws_text size records) }
{
    write!(text, "draws {size} records {records}")
}

/// Adds how many contests have a risk.
#[tactic(auto, unfolding(crate::specs::Text::decided_text))]
fn push_decided(text: &mut String, rows: &[Row]) -> Result<(), OutOfMemory>
    ensures { OnOk result (string_bytes text.new ≡ string_bytes text.old ++ lines.decided_text rows.now) }
{
    let met = met_in(rows);
    let unmet = unmet_in(rows);
    write!(text, " met {met} open {unmet}")
}

/// Adds how many have none.
#[tactic(auto, unfolding(crate::specs::Text::undecided_text))]
fn push_undecided(text: &mut String, rows: &[Row]) -> Result<(), OutOfMemory>
    ensures { OnOk result (string_bytes text.new ≡ string_bytes text.old ++ lines.undecided_text rows.now) }
{
    let ties = ties_in(rows);
    let written = write_ins_in(rows);
    write!(text, " tie {ties} write-in {written}\n")
}

/// Adds the last line.
fn push_last(text: &mut String, size: u32, records: usize, rows: &[Row]) -> Result<(), OutOfMemory>
    ensures { OnOk result (string_bytes text.new ≡ string_bytes text.old ++ lines.last_line size records rows.now) }
{
    push_draws(text, size, records)?;
    push_decided(text, rows)?;
    push_undecided(text, rows)?;
    Ok(())
}

/// What `risk` writes of the rows of all contests.
#[tactic(auto, unfolding(crate::specs::Text::text_of_rows))]
pub(crate) fn text_of_rows(
    alloc: Global,
    size: u32,
    records: usize,
    rows: &[Row],
) -> Result<String, OutOfMemory>
    ensures { IfOk result (λ text. string_bytes text ≡ lines.text_of_rows size records rows.now) }
{
    let mut text = String::new(alloc);
    push_rows(&mut text, rows)?;
    push_enoughs(&mut text, rows)?;
    push_last(&mut text, size, records, rows)?;
    Ok(text)
}
