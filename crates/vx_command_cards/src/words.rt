//! The words round the end of a printed line.

ghost use Rattle.std.specs.Prelude.{◌≡◌, ◌≤◌, ◌*◌, length, IfOk, encode_utf8_all, string_bytes};
ghost use Rattle.std.specs.Fork.{slice_chunk};
ghost use Rattle.std.specs.List.{after_last, before_first};
ghost use Rattle.vx_command_cards.specs.Drawn as drawn;

use crate::drawn::{LINE, is_blank};
use std::alloc::Global;
use vx_base::OutOfMemory;

/// The characters of a printed line, by its number from 0.
fn line_at(characters: &[char], line: usize) -> &[char]
    requires { line * 29 ≤ length characters.now }
    ensures { result.now ≡ slice_chunk characters.now 29 line }
{
    let rest = &characters[line * LINE..];
    &rest[..rest.len().min(LINE)]
}

/// Those behind the last one that is drawn as a blank.
fn behind_blanks(characters: &[char]) -> &[char]
    ensures { result.now ≡ after_last drawn.is_blank characters.now }
{
    match characters.iter().rposition(|c| is_blank(*c)) {
        Some(place) => &characters[place + 1..],
        None => characters,
    }
}

/// Those before the first one that is drawn as a blank.
fn before_blanks(characters: &[char]) -> &[char]
    ensures { result.now ≡ before_first drawn.is_blank characters.now }
{
    match characters.iter().position(|c| is_blank(*c)) {
        Some(place) => &characters[..place],
        None => characters,
    }
}

/// Characters as a text.
fn text_of(alloc: Global, characters: &[char]) -> Result<String, OutOfMemory>
    ensures { IfOk result (λ text. string_bytes text ≡ encode_utf8_all characters.now) }
{
    characters.iter().copied().collect(alloc)
}

/// The word at the end of a printed line.
pub(crate) fn end_word(
    alloc: Global,
    characters: &[char],
    line: usize,
) -> Result<String, OutOfMemory>
    requires { line * 29 ≤ length characters.now }
    ensures { IfOk result (λ word. string_bytes word ≡ drawn.end_word (slice_chunk characters.now 29 line)) }
{
    text_of(alloc, behind_blanks(line_at(characters, line)))
}

/// The word at the front of a printed line.
pub(crate) fn front_word(
    alloc: Global,
    characters: &[char],
    line: usize,
) -> Result<String, OutOfMemory>
    requires { line * 29 ≤ length characters.now }
    ensures { IfOk result (λ word. string_bytes word ≡ drawn.front_word (slice_chunk characters.now 29 line)) }
{
    text_of(alloc, before_blanks(line_at(characters, line)))
}
