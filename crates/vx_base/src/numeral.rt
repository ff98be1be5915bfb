ghost use Rattle.std.specs.Prelude.{◌≡◌, ◌≢◌, ◌≤◌, ◌↔◌, ℕ, IsTrue, MatchOption};
ghost use Rattle.std.specs.Fmt.{decimal};
ghost use Rattle.vx_base.specs.Numeral.{StartsNumeral};

/// Whether a text starts as a number in its one spelling does: with a digit, and with `0` only
/// where that is all.
fn starts_numeral(text: &[u8]) -> bool
    ensures { IsTrue result ↔ StartsNumeral text.now }
{
    match text {
        [] => false,
        [b'0'] => true,
        [first, ..] => b'1' <= *first && *first <= b'9',
    }
}

/// The number of at most `most` that the word spells: digits without a sign and without a leading
/// zero, but `0` itself.
pub fn read_number(word: &str, most: u32) -> Option<u32>
    ensures { MatchOption result
        ((n : ℕ) → n ≤ most → word.now ≢ decimal n)
        (λ n. (n ≤ most) × (word.now ≡ decimal n)) }
{
    if !starts_numeral(word.as_bytes()) {
        return None;
    }
    match word.parse::<u32>() {
        Ok(value) => { if value <= most { Some(value) } else { None } }
        Err(_) => None,
    }
}
