ghost use Rattle.std.specs.Prelude.{◌≡◌, take, MatchOption, None, Some};
ghost use Rattle.vx_grid.specs.Marks.{marks as marks_of};
ghost use Rattle.vx_readings.specs.Lines as lines;
ghost use Rattle.vx_readings.specs.Numbers as numbers;
ghost use Rattle.vx_readings.specs.Words as reading;

use crate::numbers::signed_in;
use crate::words::{Parts, behind};
use vx_grid::{Border, Paper, Point, marks};

/// What the first of some parts spells, and the parts behind it.
fn coordinate_first<'a>(parts: Parts<'a>) -> Option<(i32, Parts<'a>)>
    ensures { result ≡ reading.first_as numbers.signed_in parts.entry }
{
    let (part, rest) = parts.split()?;
    let value = signed_in(part)?;
    Some((value, rest))
}

/// What the last part spells, if it is the only one.
fn last_coordinate(parts: Parts<'_>) -> Option<i32>
    ensures { result ≡ reading.last_as numbers.signed_in parts.entry }
{
    let (part, rest) = parts.split()?;
    if rest.split().is_some() {
        return None;
    }
    signed_in(part)
}

/// The place that a word spells: `U,V`.
#[tactic(auto, unfolding(crate::specs::Lines::place_in))]
fn place_in(word: &[u8]) -> Option<Point>
    ensures { result ≡ lines.place_in word.now }
{
    let (u, rest) = coordinate_first(Parts::of(b',', word))?;
    let v = last_coordinate(rest)?;
    Some(Point { u, v })
}

/// The places that words spell, of as many words as the paper has timing marks.
fn places_in(paper: Paper, words: Parts<'_>) -> Option<[Point; 168]>
    ensures { MatchOption result (lines.border_by paper words.entry ≡ None)
        (λ places. lines.border_by paper words.entry
        ≡ Some (record { paper = paper; places = take (marks_of paper) places })) }
{
    let mut places = [Point { u: 0, v: 0 }; 168];
    let mut rest = words;
    for k in 0..marks(paper) {
        let (word, more) = rest.split()?;
        places[k as usize] = place_in(word)?;
        rest = more;
    }
    match rest.split() {
        None => Some(places),
        Some(_) => None,
    }
}

/// The border that a line says.
#[tactic(auto, unfolding(crate::specs::Lines::border_in))]
pub(crate) fn border_in(paper: Paper, line: &[u8]) -> Option<Border>
    ensures { result ≡ lines.border_in paper line.now }
{
    let words = behind(Parts::of(b' ', line), b"border")?;
    let places = places_in(paper, words)?;
    Some(Border::new(paper, places))
}
