ghost use Rattle.std.specs.Prelude.{◌≡◌, ◌<◌, ◌≤◌, ◌↔◌, IsTrue, MatchOption, length, slice_index};
ghost use Rattle.std.specs.Str.Parse.{AllDigits, digits_value};
ghost use Rattle.vx_readings.specs.Numbers as numbers;

/// The number that a word of digits alone writes, of which it has at most ten.
fn value_of(word: &[u8]) -> Option<u64>
    requires { length word.now ≤ 10 }
    ensures { MatchOption result
        (¬ AllDigits 10 word.now)
        (λ value. AllDigits 10 word.now × (value ≡ digits_value 10 word.now)) }
{
    let mut value = 0u64;
    for place in 0..word.len() {
        let byte = word[place];
        if byte < b'0' || byte > b'9' {
            return None;
        }
        value = 10 * value + u64::from(byte - b'0');
    }
    Some(value)
}

/// Whether a word has more than a `0` that it begins with.
fn has_leading_zero(word: &[u8]) -> bool
    ensures { IsTrue result ↔ ((slice_index word.now 0 ≡ 48) × (1 < length word.now)) }
{
    word.len() > 1 && word[0] == b'0'
}

/// The number of 32 bits that a word spells.
pub(crate) fn number_in(word: &[u8]) -> Option<u32>
    ensures { result ≡ numbers.number_in word.now }
{
    if word.is_empty() || word.len() > 10 || has_leading_zero(word) {
        return None;
    }
    match value_of(word) {
        Some(value) => {
            if value <= u64::from(u32::MAX) {
                Some(value as u32)
            } else {
                None
            }
        }
        None => None,
    }
}

/// A number behind a minus.
fn negative_of(number: Option<u32>) -> Option<i32>
    ensures { result ≡ numbers.negative_of number }
{
    match number {
        None => None,
        Some(0) => None,
        Some(most) => {
            let less = most - 1;
            if less < 1 << 31 {
                Some(-(less as i32) - 1)
            } else {
                None
            }
        }
    }
}

/// A number without a sign.
fn positive_of(number: Option<u32>) -> Option<i32>
    ensures { result ≡ numbers.positive_of number }
{
    match number {
        None => None,
        Some(value) => {
            if value < 1 << 31 {
                Some(value as i32)
            } else {
                None
            }
        }
    }
}

/// The number of 32 bits with a sign that a word spells.
pub(crate) fn signed_in(word: &[u8]) -> Option<i32>
    ensures { result ≡ numbers.signed_in word.now }
{
    if word.is_empty() {
        return None;
    }
    if word[0] == b'-' {
        negative_of(number_in(&word[1..]))
    } else {
        positive_of(number_in(word))
    }
}
