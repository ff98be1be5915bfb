//! What characters show on paper, by the dots that the font draws for them.

ghost use Rattle.std.specs.Prelude.{◌≡◌, ◌&&◌, ◌<◌, ◌+◌, ◌*◌, ◌-◌, length, not, slice_index, slice_index_or};
ghost use Rattle.std.specs.List.{list_all};
ghost use Rattle.vx_command_cards.specs.Drawn as drawn;

use vx_font::dots;

/// How many characters a line of a block has.
pub(crate) const LINE: usize = 29;

/// A character that the font hasn't; the hollow box is drawn for it as for all others that it hasn't.
const MISSING: char = '\u{fffd}';

/// Whether the same dots are drawn for two characters.
fn is_drawn_as(c: char, other: char) -> bool
    ensures { result ≡ drawn.is_drawn_as c other }
{
    dots(c) == dots(other)
}

/// Whether a character is drawn as the hollow box.
fn is_hollow(c: char) -> bool
    ensures { result ≡ drawn.is_hollow c }
{
    is_drawn_as(c, MISSING)
}

/// Whether a character is drawn as a blank.
pub(crate) fn is_blank(c: char) -> bool
    ensures { result ≡ drawn.is_blank c }
{
    is_drawn_as(c, ' ')
}

/// Whether each of some characters is drawn as a blank.
fn are_blank(characters: &[char]) -> bool
    ensures { result ≡ list_all drawn.is_blank characters.now }
{
    characters.iter().all(|c| is_blank(*c))
}

/// Whether characters show nothing: there is one at least, and each is drawn as a blank.
pub(crate) fn shows_nothing(characters: &[char]) -> bool
    ensures { result ≡ drawn.shows_nothing characters.now }
{
    !characters.is_empty() && are_blank(characters)
}

/// Whether a hollow character stands at a place, and at none before it.
pub(crate) fn is_new_hollow(characters: &[char], place: usize) -> bool
    requires { place < length characters.now }
    ensures { result ≡ drawn.is_new_hollow characters.now place }
{
    let c = characters[place];
    is_hollow(c) && !characters[..place].contains(&c)
}

/// Whether neither of the characters at the end of a line and behind it is a blank. The line's number
/// is from 0.
pub(crate) fn ends_within(characters: &[char], line: usize) -> bool
    requires { 29 * (line + 1) < length characters.now }
    ensures { result ≡ (not (drawn.is_blank (slice_index characters.now (29 * (line + 1) - 1)))
        && not (drawn.is_blank (slice_index characters.now (29 * (line + 1))))) }
{
    let end = LINE * (line + 1);
    !is_blank(characters[end - 1]) && !is_blank(characters[end])
}

/// The character in a cell; a blank behind the last one.
fn character_at(characters: &[char], place: usize) -> char
    ensures { result ≡ slice_index_or characters.now place 32 }
{
    match characters.get(place) {
        Some(c) => *c,
        None => ' ',
    }
}

/// Whether the same dots are in a cell of two rows of characters.
fn is_same_cell(first: &[char], second: &[char], place: usize) -> bool
    ensures { result ≡ drawn.is_same_cell first.now second.now place }
{
    is_drawn_as(character_at(first, place), character_at(second, place))
}

/// Whether two rows of characters look alike: the same dots are in each cell.
pub(crate) fn are_same_cells(first: &[char], second: &[char]) -> bool
    ensures { result ≡ drawn.are_same_cells first.now second.now }
{
    for place in 0..first.len().max(second.len()) {
        if !is_same_cell(first, second, place) {
            return false;
        }
    }
    true
}
