ghost use Rattle.std.specs.Prelude.{◌↔◌, ℕ, List, IsTrue, MatchBool, MatchOption};
ghost use Rattle.vx_words.specs.Words.{IsArgument};
ghost use Rattle.vx_audit.specs.Words.{HasAuditForm, SpellsTotals};

use vx_io::Words;

/// Whether a word may be an argument: it isn't empty and doesn't begin with `-`.
fn is_argument(word: &str) -> bool
    ensures { IsTrue result ↔ IsArgument word.now }
{
    match word.as_bytes() {
        [] => false,
        [first, ..] => *first != b'-',
    }
}

/// The report of a `totals`, if the words are one.
pub(crate) fn totals_in(words: &Words) -> Option<&str>
    ensures { MatchOption result ((report : List ℕ) → SpellsTotals words.now report → ⊥)
        (λ report. SpellsTotals words.now report.now) }
{
    if words.count() != 2 {
        return None;
    }
    if words.word(0) != "totals" {
        return None;
    }
    if !is_argument(words.word(1)) {
        return None;
    }
    Some(words.word(1))
}

/// Whether the words are as many as those of an `audit`, with its name in front, and name a report and what hands read.
pub(crate) fn is_audit_form(words: &Words) -> bool
    ensures { MatchBool result (HasAuditForm words.now) (HasAuditForm words.now → ⊥) }
{
    if words.count() != 5 {
        return false;
    }
    if words.word(0) != "audit" {
        return false;
    }
    if !is_argument(words.word(1)) {
        return false;
    }
    is_argument(words.word(4))
}
