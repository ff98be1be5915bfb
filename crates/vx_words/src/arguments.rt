//! The words behind a command's name.

ghost use Rattle.std.specs.Prelude.{◌≡◌, ◌↔◌, ◌<◌, ◌≤◌, [], All, ◌^◌, IsTrue, IfOk, OnOk, drop, length, map};
ghost use Rattle.vx_words.specs.Words.{IsArgument};

use std::alloc::{AllocError, Global};
use vx_io::Words;
use vx_json::{Text, Texts};

/// Whether a word may be an argument.
fn is_argument(word: &str) -> bool
    ensures { IsTrue result ↔ IsArgument word.now }
{
    match word.as_bytes() {
        [] => false,
        [first, ..] => *first != b'-',
    }
}

/// Whether all words from one on may be arguments.
pub fn are_arguments(words: &Words, from: u32) -> bool
    requires { from ≤ length words.now }
    ensures { IsTrue result ↔ All IsArgument (drop from words.now) }
{
    for index in from..words.count() {
        if !is_argument(words.word(index)) {
            return false;
        }
    }
    true
}

/// The words in a row, lent.
pub fn row_of<'w>(alloc: Global, words: &'w Words) -> Result<Vec<&'w str>, AllocError>
    ensures row { IfOk result (λ row. map (λ word. word.now) row.items ≡ words.now) }
    ensures few { OnOk result (length words.now < 2 ^ 32) }
{
    let mut row = Vec::new(alloc);
    for index in 0..words.count() {
        row.push(words.word(index))?;
    }
    Ok(row)
}

/// The words from one on, as texts of their own.
pub fn texts_from(alloc: Global, words: &[&str], from: usize) -> Result<Texts, AllocError>
    requires { from ≤ length words.now }
    ensures { IfOk result (λ texts. texts ≡ drop from (map (λ word. word.now) words.now)) }
{
    let mut texts = Texts::new(alloc);
    for index in from..words.len() {
        texts.push(Text::from_str(alloc, words[index])?)?;
    }
    Ok(texts)
}
