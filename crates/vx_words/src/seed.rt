ghost use Rattle.std.specs.Prelude.{◌≡◌, ◌≢◌, ◌<◌, ◌^◌, ◌↔◌, ℕ, IsTrue, MatchOption};
ghost use Rattle.std.specs.Fmt.{decimal};
ghost use Rattle.vx_base.specs.Numeral.{StartsNumeral};

/// Whether a text starts as a number in its one spelling does: with a digit, and with `0` only
/// where that is all.
fn starts_numeral(text: &[u8]) -> bool
    ensures { IsTrue result ↔ StartsNumeral text.now }
{
    match text {
        [] => false,
        [b'0'] => true,
        [first, ..] => b'1' <= *first && *first <= b'9',
    }
}

/// The number below 2^64 that the word spells: digits without a sign and without a leading zero, but
/// `0` itself.
pub fn read_seed(word: &str) -> Option<u64>
    ensures { MatchOption result
        ((n : ℕ) → n < 2 ^ 64 → word.now ≢ decimal n)
        (λ n. (n < 2 ^ 64) × (word.now ≡ decimal n)) }
{
    if !starts_numeral(word.as_bytes()) {
        return None;
    }
    match word.parse::<u64>() {
        Ok(value) => Some(value),
        Err(_) => None,
    }
}
