ghost use Rattle.std.specs.Prelude.{◌≡◌, ◌++◌, ◌+◌, ◌^◌, ◌<◌, ◌≤◌, OnOk, IfOk, string_bytes};
ghost use Rattle.vx_layout.specs.Lines.{size_of};
ghost use Rattle.vx_layout.specs.Blocks as blocks;
ghost use Rattle.vx_grid.specs.Paper.{last_row};
ghost use Rattle.vx_layout.specs.Blocks.{HasSizes, LabelsFit, seats_line, lines_of_options, block_lines, block_bubbles};

use crate::bubbles::{Bubble, Bubbles};
use crate::lines::TextLines;
use crate::typing::{lay_text, rows_of};
use std::alloc::Global;
use vx_base::OutOfMemory;
use vx_election_model::Contest;
use vx_grid::Paper;

/// What stands beside the bubble of a write-in slot.
const WRITE_IN: &str = "Write-in";

/// What a contest asks beside its title: only a yes/no contest asks anything.
fn description_of(contest: &Contest) -> &str
    requires { HasSizes contest.now }
    ensures exact { result.now ≡ blocks.description_of contest.now }
    ensures fits { size_of result.now ≤ 10000 }
{
    if contest.is_yes_no {
        contest.description.as_str()
    } else {
        ""
    }
}

/// The rows of a block above those of its options.
fn heading_rows(contest: &Contest) -> u32
    requires { HasSizes contest.now }
    ensures exact { result ≡ blocks.heading_rows contest.now }
    ensures few { result ≤ 200 }
{
    rows_of(contest.title.as_str()) + rows_of(description_of(contest)) + 1
}

/// The rows of a block.
pub(crate) fn height_of(contest: &Contest) -> u32
    requires { HasSizes contest.now }
    ensures { result ≡ blocks.height_of contest.now }
{
    heading_rows(contest) + contest.options()
}

/// What stands beside the bubble of an option.
fn label_at(contest: &Contest, option: u32) -> &str
    requires { LabelsFit contest.now }
    ensures exact { result.now ≡ blocks.label_at contest.now option }
    ensures fits { size_of result.now ≤ 58 }
{
    match contest.choices.as_slice().get(option as usize) {
        Some(choice) => choice.label.as_str(),
        None => WRITE_IN,
    }
}

/// Lays the lines of the options of a block whose first row is `row`.
fn lay_options(
    alloc: Global,
    texts: &mut TextLines,
    paper: Paper,
    contest: &Contest,
    col: u32,
    row: u32,
) -> Result<(), OutOfMemory>
    requires col { col ≤ 33 }
    requires row { row + blocks.height_of contest.now ≤ last_row paper }
    requires sizes { HasSizes contest.now }
    requires labels { LabelsFit contest.now }
    ensures { OnOk result (texts.new ≡ texts.old ++ lines_of_options paper contest.now col row) }
{
    let first = row + heading_rows(contest);
    for option in 0..contest.options() {
        lay_text(
            alloc,
            texts,
            paper,
            col,
            first + option,
            label_at(contest, option),
        )?;
    }
    Ok(())
}

/// How many options a voter may mark, in words.
fn seats_of(alloc: Global, contest: &Contest) -> Result<String, OutOfMemory>
    requires { HasSizes contest.now }
    ensures exact { IfOk result (λ line. string_bytes line ≡ seats_line contest.now) }
    ensures fits { size_of (seats_line contest.now) ≤ 58 }
{
    format!(in alloc; "Vote for {}", contest.seats)
}

/// Lays the lines of a block whose first row is `row`, right of the bubbles of grid column `col`.
pub(crate) fn lay_block(
    alloc: Global,
    texts: &mut TextLines,
    paper: Paper,
    contest: &Contest,
    col: u32,
    row: u32,
) -> Result<(), OutOfMemory>
    requires col { col ≤ 33 }
    requires row { row + blocks.height_of contest.now ≤ last_row paper }
    requires sizes { HasSizes contest.now }
    requires labels { LabelsFit contest.now }
    ensures { OnOk result (texts.new ≡ texts.old ++ block_lines paper contest.now col row) }
{
    let described = row + rows_of(contest.title.as_str());
    let seated = described + rows_of(description_of(contest));
    let seats = seats_of(alloc, contest)?;
    lay_text(alloc, texts, paper, col, row, contest.title.as_str())?;
    lay_text(alloc, texts, paper, col, described, description_of(contest))?;
    lay_text(alloc, texts, paper, col, seated, seats.as_str())?;
    lay_options(alloc, texts, paper, contest, col, row)
}

/// Adds the bubbles of a block whose first row is `row`, one for each option.
pub(crate) fn add_bubbles(
    bubbles: &mut Bubbles,
    number: u32,
    contest: &Contest,
    col: u32,
    row: u32,
) -> Result<(), OutOfMemory>
    requires row { row + blocks.height_of contest.now < 2 ^ 32 }
    requires sizes { HasSizes contest.now }
    ensures { OnOk result (bubbles.new ≡ bubbles.old ++ block_bubbles number contest.now col row) }
{
    let first = row + heading_rows(contest);
    let count = contest.options();
    for option in 0..count {
        bubbles.push(Bubble {
            contest: number,
            option,
            col,
            row: first + option,
        })?;
    }
    Ok(())
}
