ghost use Rattle.std.specs.Prelude.{◌↔◌, IsTrue, MatchOption};
ghost use Rattle.vx_words.specs.Words.{IsArgument};
ghost use Rattle.vx_ranked.specs.Words.{NoRanked, SpellsRanked};

use vx_io::Words;

/// Whether a word may be an argument: it isn't empty and doesn't begin with `-`.
fn is_argument(word: &str) -> bool
    ensures { IsTrue result ↔ IsArgument word.now }
{
    match word.as_bytes() {
        [] => false,
        [first, ..] => *first != b'-',
    }
}

/// The names of the election and of the file of ranked contests, where the words are a `ranked`.
pub(crate) fn ranked_words(words: &Words) -> Option<(&str, &str)>
    ensures { MatchOption result (NoRanked words.now)
        (λ names. SpellsRanked words.now names.0.now names.1.now) }
{
    if words.count() != 3 || words.word(0) != "ranked" {
        return None;
    }
    let (election, ranked) = (words.word(1), words.word(2));
    if is_argument(election) && is_argument(ranked) {
        Some((election, ranked))
    } else {
        None
    }
}
