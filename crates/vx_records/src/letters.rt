ghost use Rattle.std.specs.Prelude.{◌≡◌, ◌≤◌, true, length, IfOk, MatchResult};
ghost use Rattle.std.specs.List.{list_all, prefix_len};
ghost use Rattle.vx_records.specs.Letters.{is_letter as is_letter_of};
ghost use Rattle.vx_records.specs.Parts.{found, letters_in};
ghost use Rattle.vx_records.specs.Stops.{Stops};

use crate::parts::{Stop, split};

/// Kinds of letters.
#[derive(Clone, Copy)]
pub(crate) enum Letters {
    /// The characters of a batch's name.
    Batch,
    /// The letters of states.
    States,
    /// Lower-case hex digits.
    Hex,
}

fn is_letter(letters: Letters, byte: u8) -> bool
    ensures { result ≡ is_letter_of letters byte }
{
    match letters {
        Letters::Batch => { matches!(byte, b'A'..=b'Z' | b'a'..=b'z' | b'0'..=b'9' | b'_' | b'-') }
        Letters::States => matches!(byte, b'm' | b'g' | b'c'),
        Letters::Hex => matches!(byte, b'0'..=b'9' | b'a'..=b'f'),
    }
}

/// How many letters stand at the front.
fn letters_here(text: &[u8], letters: Letters) -> usize
    ensures exact { result ≡ prefix_len (is_letter_of letters) text.now }
    ensures within { result ≤ length text.now }
{
    let mut count = 0;
    let mut rest = text;
    while let Some((byte, further)) = split(rest) {
        if !is_letter(letters, byte) {
            return count;
        }
        count += 1;
        rest = further;
    }
    count
}

/// All the letters that stand here, from `least` to `most` of them.
pub(crate) fn letters_at(
    text: &[u8],
    letters: Letters,
    least: usize,
    most: usize,
) -> Result<(&[u8], &[u8]), Stop>
    ensures exact { MatchResult result
        (λ x. letters_in (is_letter_of letters) least most text.now ≡ found x.0.now x.1.now)
        (λ stop. Stops stop (letters_in (is_letter_of letters) least most text.now)) }
    ensures letters { IfOk result (λ x. list_all (is_letter_of letters) x.0.now ≡ true) }
{
    let count = letters_here(text, letters);
    if count < least {
        return Err(Stop::Left(text.len() - count));
    }
    if most < count {
        return Err(Stop::Left(text.len() - most));
    }
    Ok(text.split_at(count))
}
