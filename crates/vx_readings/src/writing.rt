ghost use Rattle.std.specs.Prelude.{◌≡◌, ◌++◌, false, OnOk, length, string_bytes};
ghost use Rattle.vx_scan_model.specs.Faults.{is_no_memory as is_page_no_memory};
ghost use Rattle.vx_readings.specs.ReadingText as reading;
ghost use Rattle.vx_readings.specs.ReadingText.{page_line, border_line, bubble_line, bubble_lines, block_text, fault_line};

use vx_base::OutOfMemory;
use vx_code::PageCode;
use vx_grid::{Border, State, kind_word, marks};
use vx_layout::Bubble;
use vx_scan_model::{PageFault, PageReading};

/// What a bubble is read as, in a word.
pub(crate) fn state_word(state: State) -> &'static str
    ensures { result.now ≡ reading.state_word state }
{
    match state {
        State::Marked => "marked",
        State::Marginal => "marginal",
        State::Clear => "clear",
    }
}

/// Adds the first line of a reading.
fn push_page(
    text: &mut String,
    number: u64,
    code: PageCode,
    turned: bool,
) -> Result<(), OutOfMemory>
    ensures { OnOk result (string_bytes text.new
        ≡ string_bytes text.old ++ page_line number code turned) }
{
    let (card, page) = (code.card, code.page);
    let kind = kind_word(code.kind, code.test);
    if turned {
        write!(
            text,
            "page {number} card {card} side {page} kind {kind} turned\n"
        )
    } else {
        write!(text, "page {number} card {card} side {page} kind {kind}\n")
    }
}

/// Adds the line of the places of the timing marks.
fn push_border(text: &mut String, border: &Border) -> Result<(), OutOfMemory>
    ensures { OnOk result (string_bytes text.new
        ≡ string_bytes text.old ++ border_line border.now.places) }
{
    text.push_str("border")?;
    for k in 0..marks(border.paper()) {
        let place = border.at(k);
        write!(text, " {},{}", place.u, place.v)?;
    }
    text.push_str("\n")
}

/// Adds the line of a bubble.
fn push_bubble(
    text: &mut String,
    number: usize,
    bubble: Bubble,
    score: u32,
    state: State,
) -> Result<(), OutOfMemory>
    ensures { OnOk result (string_bytes text.new
        ≡ string_bytes text.old ++ bubble_line number bubble score state) }
{
    let (contest, option) = (bubble.contest, bubble.option);
    let word = state_word(state);
    write!(text, "bubble {number} {contest} {option} {score} {word}\n")
}

/// Adds a line for each bubble of a page.
fn push_bubbles(
    text: &mut String,
    bubbles: &[Bubble],
    scores: &[u32],
    states: &[State],
) -> Result<(), OutOfMemory>
    requires scores { length scores.now ≡ length bubbles.now }
    requires states { length states.now ≡ length bubbles.now }
    ensures { OnOk result (string_bytes text.new
        ≡ string_bytes text.old ++ bubble_lines bubbles.now scores.now states.now) }
{
    for number in 0..bubbles.len() {
        push_bubble(
            text,
            number,
            bubbles[number],
            scores[number],
            states[number],
        )?;
    }
    Ok(())
}

/// Adds the block of a reading of a page with these bubbles, by its image's number.
pub fn push_block(
    text: &mut String,
    number: u64,
    bubbles: &[Bubble],
    reading: &PageReading,
) -> Result<(), OutOfMemory>
    requires scores { length reading.now.scores ≡ length bubbles.now }
    requires states { length reading.now.states ≡ length bubbles.now }
    ensures { OnOk result (string_bytes text.new
        ≡ string_bytes text.old ++ block_text number bubbles.now reading.now) }
{
    push_page(text, number, reading.code, reading.turned)?;
    push_border(text, &reading.border)?;
    push_bubbles(
        text,
        bubbles,
        reading.scores.as_slice(),
        reading.states.as_slice(),
    )?;
    text.push_str("end\n")
}

/// Adds the line of a fault, unless it is want of memory.
pub fn push_fault(text: &mut String, number: u64, fault: PageFault) -> Result<(), OutOfMemory>
    ensures known { OnOk result (is_page_no_memory fault ≡ false) }
    ensures line { OnOk result (string_bytes text.new
        ≡ string_bytes text.old ++ fault_line number fault) }
{
    match fault {
        PageFault::OutOfMemory => Err(OutOfMemory),
        _ => write!(text, "page {number} fault {fault}\n"),
    }
}
