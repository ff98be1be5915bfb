//! Words of a record, told by plain tables: whether they are whole, and whether they begin one.

use std::alloc::{AllocError, Global};

/// What a word of a record may be.
#[derive(Clone, Copy)]
pub(crate) enum Field {
    /// A number from one to another.
    Number(u64, u64),
    /// An odd number below 64.
    Front,
    /// 1 to 32 characters of a batch.
    Batch,
    /// One of these words.
    Word(&'static [&'static [u8]]),
    /// A blank-free list of options, or a dash.
    Options,
    /// A contest from a number on and its states.
    Marks(u64),
    /// Words to the record's end.
    Text,
}

/// The parts of a text between marks.
pub(crate) fn split(alloc: Global, text: &[u8], mark: u8) -> Result<Vec<&[u8]>, AllocError> {
    let mut parts = Vec::with_capacity(alloc, 12)?;
    let mut start = 0usize;
    for (place, byte) in text.iter().enumerate() {
        if *byte == mark {
            parts.push(text.get(start..place).unwrap_or(&[]))?;
            start = place.saturating_add(1);
        }
    }
    parts.push(text.get(start..).unwrap_or(&[]))?;
    Ok(parts)
}

/// The value of at most nine digits, the first of several not a zero.
pub(crate) fn value_of(word: &[u8]) -> Option<u64> {
    if word.is_empty() || word.len() > 9 || word.len() > 1 && word.starts_with(b"0") {
        return None;
    }
    let mut value = 0u64;
    for digit in word {
        if *digit < b'0' || *digit > b'9' {
            return None;
        }
        value = value
            .wrapping_mul(10)
            .wrapping_add(u64::from(*digit - b'0'));
    }
    Some(value)
}

/// Whether a number has this value, or its first digits have.
fn begins_in(value: u64, least: u64, most: u64) -> bool {
    if value == 0 {
        return least == 0;
    }
    let (mut low, mut high) = (value, value);
    for _digits in 0..7 {
        if low <= most && high >= least {
            return true;
        }
        low = low.wrapping_mul(10);
        high = high.wrapping_mul(10).wrapping_add(9);
    }
    false
}

fn begins_number(word: &[u8], least: u64, most: u64) -> bool {
    match value_of(word) {
        Some(value) => begins_in(value, least, most),
        None => word.is_empty() && least <= most,
    }
}

fn is_number(word: &[u8], least: u64, most: u64) -> bool {
    match value_of(word) {
        Some(value) => least <= value && value <= most,
        None => false,
    }
}

/// Whether one of the odd numbers below 64 has this value, or has it as its first digit.
fn begins_front(word: &[u8]) -> bool {
    let Some(value) = value_of(word) else {
        return word.is_empty();
    };
    for half in 0..32u64 {
        let odd = half * 2 + 1;
        if odd == value || value > 0 && odd / 10 == value {
            return true;
        }
    }
    false
}

fn is_front(word: &[u8]) -> bool {
    match value_of(word) {
        Some(value) => value % 2 == 1 && value < 64,
        None => false,
    }
}

/// Whether all characters are among those of a table, and there are no more than so many.
fn are_among(word: &[u8], table: &[u8], most: usize) -> bool {
    for character in word {
        if !table.contains(character) {
            return false;
        }
    }
    word.len() <= most
}

const BATCH: &[u8] = b"ABCDEFGHIJKLMNOPQRSTUVWXYZabcdefghijklmnopqrstuvwxyz0123456789_-";

/// Whether a word is one of a table, or begins one.
fn is_in(word: &[u8], table: &[&[u8]], is_whole: bool) -> bool {
    for one in table {
        if one.starts_with(word) && (!is_whole || one.len() == word.len()) {
            return true;
        }
    }
    false
}

/// Whether a list of options is whole, or begins one.
fn are_options(alloc: Global, word: &[u8], is_whole: bool) -> Result<bool, AllocError> {
    if word == b"-".as_slice() {
        return Ok(true);
    }
    let parts = split(alloc, word, b',')?;
    let mut least = 0u64;
    let mut left = parts.len();
    for part in parts.as_slice() {
        left = left.saturating_sub(1);
        let is_right = if is_whole || left > 0 {
            is_number(part, least, 999)
        } else {
            begins_number(part, least, 999)
        };
        if !is_right {
            return Ok(false);
        }
        least = value_of(part).unwrap_or(0).wrapping_add(1);
    }
    Ok(true)
}

/// Whether a contest and its states are whole, or begin such.
fn are_marks(alloc: Global, word: &[u8], least: u64, is_whole: bool) -> Result<bool, AllocError> {
    let parts = split(alloc, word, b':')?;
    match parts.as_slice() {
        [number] => Ok(!is_whole && begins_number(number, least, 499)),
        [number, states] => {
            let are_states = are_among(states, b"mgc", 150) && !(is_whole && states.is_empty());
            Ok(are_states && is_number(number, least, 499))
        }
        _ => Ok(false),
    }
}

/// The first bytes of characters, from one to another; which bytes may come second; how many bytes
/// stand behind the first.
const CHARACTERS: [(u8, u8, u8, u8, usize); 9] = [
    (0x20, 0x7e, 0, 0, 0),
    (0xc2, 0xdf, 0x80, 0xbf, 1),
    (0xe0, 0xe0, 0xa0, 0xbf, 2),
    (0xe1, 0xec, 0x80, 0xbf, 2),
    (0xed, 0xed, 0x80, 0x9f, 2),
    (0xee, 0xef, 0x80, 0xbf, 2),
    (0xf0, 0xf0, 0x90, 0xbf, 3),
    (0xf1, 0xf3, 0x80, 0xbf, 3),
    (0xf4, 0xf4, 0x80, 0x8f, 3),
];

/// What may stand behind the first byte of a character: the least and the greatest second byte, and
/// how many bytes.
fn behind(first: u8) -> Option<(u8, u8, usize)> {
    for (from, to, least, most, count) in CHARACTERS {
        if from <= first && first <= to {
            return Some((least, most, count));
        }
    }
    None
}

/// Whether a text is whole, or begins one: 1 to 256 bytes of characters that aren't control ones.
fn is_text(text: &[u8], is_whole: bool) -> bool {
    let (mut least, mut most, mut left) = (0u8, 0u8, 0usize);
    for byte in text {
        if left == 0 {
            let Some((from, to, count)) = behind(*byte) else {
                return false;
            };
            (least, most, left) = (from, to, count);
        } else if least <= *byte && *byte <= most {
            (least, most, left) = (0x80, 0xbf, left.saturating_sub(1));
        } else {
            return false;
        }
    }
    let is_ended = left == 0 && !text.is_empty();
    text.len().saturating_add(left) <= 256 && (is_ended || !is_whole)
}

/// Whether a word is all that a field may be, or where it needn't be whole, begins such.
pub(crate) fn is_field(
    alloc: Global,
    field: Field,
    word: &[u8],
    is_whole: bool,
) -> Result<bool, AllocError> {
    match field {
        Field::Number(least, most) if is_whole => Ok(is_number(word, least, most)),
        Field::Number(least, most) => Ok(begins_number(word, least, most)),
        Field::Front if is_whole => Ok(is_front(word)),
        Field::Front => Ok(begins_front(word)),
        Field::Batch => Ok(are_among(word, BATCH, 32) && !(is_whole && word.is_empty())),
        Field::Word(table) => Ok(is_in(word, table, is_whole)),
        Field::Options => are_options(alloc, word, is_whole),
        Field::Marks(least) => are_marks(alloc, word, least, is_whole),
        Field::Text => Ok(is_text(word, is_whole)),
    }
}
