ghost use Rattle.std.specs.Prelude.{◌≡◌};
ghost use Rattle.vx_base.specs.Refusals.{Gives};
ghost use Rattle.vx_readings.specs.Faults.{is_no_memory};
ghost use Rattle.vx_readings.specs.Lines as lines;
ghost use Rattle.vx_readings.specs.Readings as readings;

use crate::border::border_in;
use crate::bubbles::read_bubbles;
use crate::fault::ReadingsFault;
use crate::head::{FirstLine, Head, first_in};
use crate::lines::Lines;
use crate::said::{SaidPage, SaidReading};
use std::alloc::Global;
use vx_grid::{Border, Paper};
use vx_scan_model::PageReading;

/// What the next line says as the first one of the page with this number.
fn next_first<'b>(
    paper: Paper,
    tag: u32,
    page: u32,
    left: &Lines<'b>,
) -> Result<(FirstLine, Lines<'b>), ReadingsFault>
    ensures { result ≡ readings.next_line (lines.first_in paper tag page) left.now.number left.now.lines }
{
    let at = left.number();
    let (line, behind) = left.split()?;
    match first_in(paper, tag, page, line) {
        Some(first) => Ok((first, behind)),
        None => Err(ReadingsFault::Line(at)),
    }
}

/// The border that the next line says.
fn next_border<'b>(paper: Paper, left: &Lines<'b>) -> Result<(Border, Lines<'b>), ReadingsFault>
    ensures { result ≡ readings.next_line (lines.border_in paper) left.now.number left.now.lines }
{
    let at = left.number();
    let (line, behind) = left.split()?;
    match border_in(paper, line) {
        Some(border) => Ok((border, behind)),
        None => Err(ReadingsFault::Line(at)),
    }
}

/// The reading of a block, by the lines behind its first.
#[tactic(auto, unfolding(crate::specs::Readings::block_in))]
fn read_block<'b>(
    alloc: Global,
    paper: Paper,
    head: Head,
    left: &Lines<'b>,
) -> Result<(SaidPage, Lines<'b>), ReadingsFault>
    ensures { Gives is_no_memory result (readings.block_in paper head left.now) }
{
    let Head { code, turned } = head;
    let (border, left) = next_border(paper, left)?;
    let first_bubble = left.number();
    let (bubbles, left) = read_bubbles(alloc, &left)?;
    let reading = PageReading {
        code,
        border,
        scores: bubbles.scores,
        states: bubbles.states,
        turned,
    };
    let said = SaidReading {
        first_bubble,
        names: bubbles.names,
        reading,
    };
    Ok((SaidPage::Reading(said), left))
}

/// The next page, which has to have this number, with the lines behind it.
pub(crate) fn read_page<'b>(
    alloc: Global,
    paper: Paper,
    tag: u32,
    page: u32,
    left: &Lines<'b>,
) -> Result<(SaidPage, Lines<'b>), ReadingsFault>
    ensures { Gives is_no_memory result (readings.page_by paper tag page left.now) }
{
    let (first, left) = next_first(paper, tag, page, left)?;
    match first {
        FirstLine::Fault => Ok((SaidPage::NoReading, left)),
        FirstLine::Block(head) => read_block(alloc, paper, head, &left),
    }
}
