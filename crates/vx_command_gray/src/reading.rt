ghost use Rattle.std.specs.Prelude.{◌≤◌, ◌↔◌, All, IsTrue, MatchBool, drop, length};
ghost use Rattle.vx_words.specs.Words.{IsArgument};
ghost use Rattle.vx_command_gray.specs.Words.{NoGray, SpellsGray};

use vx_io::Words;

/// Whether a word may be an argument: it isn't empty and doesn't begin with `-`.
fn is_argument(word: &str) -> bool
    ensures { IsTrue result ↔ IsArgument word.now }
{
    match word.as_bytes() {
        [] => false,
        [first, ..] => *first != b'-',
    }
}

/// Whether all words from 1 on may be arguments.
fn are_arguments(words: &Words) -> bool
    requires { 1 ≤ length words.now }
    ensures { IsTrue result ↔ All IsArgument (drop 1 words.now) }
{
    for index in 1..words.count() {
        if !is_argument(words.word(index)) {
            return false;
        }
    }
    true
}

/// Whether the words are a `gray`.
pub(crate) fn is_gray(words: &Words) -> bool
    ensures { MatchBool result (SpellsGray words.now (drop 1 words.now)) (NoGray words.now) }
{
    let count = words.count();
    if count < 2 || count > 65 {
        return false;
    }
    words.word(0) == "gray" && are_arguments(words)
}
