//! Seeds and sizes of a sample, and limits of risk, among the words.

ghost use Rattle.std.specs.Prelude.{◌≡◌, ℕ, List, MatchOption};
ghost use Rattle.std.specs.List.{list_all};
ghost use Rattle.vx_words.specs.Samples.{IsLimit, IsSeed, IsSize, is_lower_digit};

use hex::FromHex;
use vx_base::read_number;

/// The most words that a sample draws.
const MOST_WORDS: u32 = 10_000;

/// The greatest risk that may be allowed, in thousandths.
const MOST_RISK: u32 = 999;

fn is_lower_digit(byte: u8) -> bool
    ensures { result ≡ is_lower_digit byte }
{
    (48 <= byte && byte <= 57) || (97 <= byte && byte <= 102)
}

fn are_lower_digits(word: &[u8]) -> bool
    ensures { result ≡ list_all is_lower_digit word.now }
{
    word.iter().all(|byte| is_lower_digit(*byte))
}

/// The seed that a word spells: 64 hexadecimal digits, in lower case.
pub fn sample_seed(word: &str) -> Option<[u8; 32]>
    ensures { MatchOption result ((seed : List ℕ) → IsSeed word.now seed → ⊥) (λ seed. IsSeed word.now seed) }
{
    if !are_lower_digits(word.as_bytes()) {
        return None;
    }
    match <[u8; 32] as FromHex>::from_hex(word) {
        Ok(seed) => Some(seed),
        Err(_) => None,
    }
}

/// How many words are drawn: 1 to 10,000.
#[tactic(auto, using(std::proofs::lemmas::Fmt::decimal_injective))]
pub fn sample_size(word: &str) -> Option<u32>
    ensures { MatchOption result ((size : ℕ) → IsSize word.now size → ⊥) (λ size. IsSize word.now size) }
{
    match read_number(word, MOST_WORDS) {
        None => None,
        Some(size) => { if size == 0 { None } else { Some(size) } }
    }
}

/// The risk that is allowed: 1 to 999 thousandths.
#[tactic(auto, using(std::proofs::lemmas::Fmt::decimal_injective))]
pub fn risk_limit(word: &str) -> Option<u32>
    ensures { MatchOption result ((limit : ℕ) → IsLimit word.now limit → ⊥) (λ limit. IsLimit word.now limit) }
{
    match read_number(word, MOST_RISK) {
        None => None,
        Some(limit) => { if limit == 0 { None } else { Some(limit) } }
    }
}
