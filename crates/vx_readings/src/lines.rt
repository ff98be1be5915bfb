ghost use Rattle.std.specs.Prelude.{◌≡◌, ◌≢◌, ◌∷◌, ◌<◌, ◌+◌, ◌^◌, [], length, MatchBool, MatchOption, MatchResult};
ghost use Rattle.vx_readings.specs.Parts.{parts_of, lines_of};
ghost use Rattle.vx_readings.specs.declared.fault.ReadingsFault.TheVariants as faults;

use crate::fault::ReadingsFault;
use memchr::memchr;
use std::marker::Model;

/// The part of a text before the first place of a byte, and the text behind it, where it has one.
pub(crate) fn split_at<'a>(at: u8, text: &'a [u8]) -> Option<(&'a [u8], &'a [u8])>
    ensures { MatchOption result
        (parts_of at text.now ≡ text.now ∷ [])
        (λ found. parts_of at text.now ≡ found.0.now ∷ parts_of at found.1.now) }
{
    // Words are short: looking at one byte after another is cheaper than `memchr`.
    for place in 0..text.len() {
        if text[place] == at {
            return Some((&text[..place], &text[place + 1..]));
        }
    }
    None
}

/// The first line of a text that isn't empty, and the text behind it.
fn split_line<'a>(text: &'a [u8]) -> (&'a [u8], &'a [u8])
    requires { 0 < length text.now }
    ensures lines { lines_of text.now ≡ result.0.now ∷ lines_of result.1.now }
    ensures less { length result.1.now < length text.now }
{
    match memchr(b'\n', text) {
        Some(place) => (&text[..place], &text[place + 1..]),
        None => (text, &text[text.len()..]),
    }
}

/// The lines of a text that are left, and the number of the first of them, counted from 1.
#[derive(Drop)]
pub(crate) struct Lines<'b> {
    text: &'b [u8],
    number: u32,
}

impl<'b> Model for Lines<'b> {
    ghost use Rattle.std.specs.Prelude.{◌+◌, ◌<◌, ◌^◌, length};
    ghost use Rattle.vx_readings.specs.Parts.{lines_of};
    ghost use Rattle.vx_readings.specs.Left.{LinesLeft};

    ghost Value = { LinesLeft };

    ghost view = { λ a. record { number = a.number; lines = lines_of a.text.now } };

    ghost invariant = { λ a. a.number + length a.text.now < 2 ^ 32 };
}

impl<'b> Lines<'b> {
    /// All lines of a text.
    pub(crate) fn new(text: &'b [u8]) -> Lines<'b>
        requires { length text.now < 2 ^ 31 }
        ensures { result ≡ record { number = 1; lines = lines_of text.now } }
    {
        Lines { text, number: 1 }
    }

    /// The same lines.
    pub(crate) fn again(&self) -> Lines<'b>
        ensures { result ≡ self.now }
    {
        Lines {
            text: self.text,
            number: self.number,
        }
    }

    /// The number of the next line.
    pub(crate) fn number(&self) -> u32
        ensures { result ≡ self.now.number }
    {
        self.number
    }

    /// Whether no line is left.
    pub(crate) fn is_empty(&self) -> bool
        ensures { MatchBool result (self.now.lines ≡ []) (self.now.lines ≢ []) }
    {
        self.text.is_empty()
    }

    /// The next line, and those behind it; or its number, where the text ends.
    pub(crate) fn split(&self) -> Result<(&'b [u8], Lines<'b>), ReadingsFault>
        ensures { MatchResult result
            (λ found. (self.now.lines ≡ found.0.now ∷ found.1.lines) × (found.1.number ≡ self.now.number + 1))
            (λ fault. (self.now.lines ≡ []) × (fault ≡ faults.Line self.now.number)) }
    {
        if self.text.is_empty() {
            return Err(ReadingsFault::Line(self.number));
        }
        let (line, text) = split_line(self.text);
        let number = self.number + 1;
        Ok((line, Lines { text, number }))
    }
}
