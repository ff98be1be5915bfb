ghost use Rattle.std.specs.Prelude.{◌≡◌, ◌++◌, ◌∷◌, ◌≤◌, ◌<◌, ◌+◌, ◌-◌, ◌*◌, ◌/◌, ◌%◌, ◌^◌, [], length, chars, take, drop, encode_utf8_all, IfOk, OnOk};
ghost use Rattle.vx_layout.specs.Lines as text_lines;
ghost use Rattle.vx_grid.specs.Grid as grid;
ghost use Rattle.vx_grid.specs.Paper.{last_row};
ghost use Rattle.vx_layout.specs.Lines.{size_of, lines_at};

use crate::lines::{TextLine, TextLines};
use std::alloc::Global;
use vx_base::OutOfMemory;
use vx_grid::{Paper, x_of, y_of};
use vx_json::{Text, characters_of};

/// How many characters a line of a block has.
const LINE: usize = 29;

/// How many characters a row of a block has.
const ROW: usize = 58;

/// How many rows a text takes.
pub(crate) fn rows_of(text: &str) -> u32
    requires { size_of text.now < 2 ^ 32 }
    ensures { result ≡ text_lines.rows_of text.now }
{
    ((characters_of(text) + ROW - 1) / ROW) as u32
}

/// The first characters of a text, so many of them.
pub(crate) fn front_of(alloc: Global, text: &str, count: usize) -> Result<Text, OutOfMemory>
    ensures { IfOk result (λ front. front ≡ encode_utf8_all (take count (chars text.now))) }
{
    Ok(Text::from_string(text.chars().take(count).collect(alloc)?))
}

/// Adds line `k` of a text whose first row is `row`, right of the bubbles of grid column `col`.
fn put_line(
    texts: &mut TextLines,
    paper: Paper,
    col: u32,
    row: u32,
    k: u32,
    text: Text,
) -> Result<(), OutOfMemory>
    requires col { col ≤ 33 }
    requires row { row + k / 2 ≤ last_row paper }
    ensures { OnOk result (texts.new ≡ texts.old ++ record {
      x = grid.x_of col + 40;
      y = grid.y_of paper (row + k / 2) - 18 + 20 * (k % 2);
      text = text;
    } ∷ []) }
{
    texts.push(TextLine {
        x: x_of(col) as u32 + 40,
        y: y_of(paper, row + k / 2) as u32 - 18 + 20 * (k % 2),
        text,
    })
}

/// How many bytes the next line of a text has.
fn line_bytes(text: &str) -> usize
    ensures { result ≡ length (encode_utf8_all (take 29 (chars text.now))) }
{
    text.chars().take(LINE).map(|c| c.len_utf8()).sum()
}

/// The next line of a text, and what follows it.
fn cut_line(text: &str) -> (&str, &str)
    ensures line { result.0.now ≡ encode_utf8_all (take 29 (chars text.now)) }
    ensures rest { result.1.now ≡ encode_utf8_all (drop 29 (chars text.now)) }
{
    text.split_at(line_bytes(text))
}

/// Lays a text in rows of the paper's grid from `row` on, right of the bubbles of grid column `col`.
pub(crate) fn lay_text(
    alloc: Global,
    texts: &mut TextLines,
    paper: Paper,
    col: u32,
    row: u32,
    text: &str,
) -> Result<(), OutOfMemory>
    requires col { col ≤ 33 }
    requires rows { row + text_lines.rows_of text.now ≤ last_row paper }
    ensures { OnOk result (texts.new ≡ texts.old ++ lines_at paper col row text.now) }
{
    let count = ((characters_of(text) + LINE - 1) / LINE) as u32;
    let mut rest = text;
    for k in 0..count {
        let (line, after) = cut_line(rest);
        put_line(texts, paper, col, row, k, Text::from_str(alloc, line)?)?;
        rest = after;
    }
    Ok(())
}
