//! The words of a line, which one blank parts.

ghost use Rattle.std.specs.Prelude.{◌≡◌, ◌∷◌, ◌==◌, [], MatchOption, length};
ghost use Rattle.vx_audit.specs.Hand.{is_dash, words_of};

use std::marker::Model;

/// The words of a line that are still to be read. Contracts see the list of them.
#[derive(Drop)]
pub(crate) struct Words<'t> {
    text: &'t str,
    ended: bool,
}

impl<'t> Model for Words<'t> {
    ghost use Rattle.std.specs.Prelude.{List, ℕ, [], if◌then◌else◌};
    ghost use Rattle.vx_audit.specs.Hand.{words_of};

    ghost Value = { List (List ℕ) };

    ghost view = { λ words. if words.ended then [] else words_of words.text.now };
}

impl<'t> Words<'t> {
    /// The words of a line.
    pub(crate) fn of(text: &'t str) -> Words<'t>
        ensures { result ≡ words_of text.now }
    {
        Words { text, ended: false }
    }

    /// The word in front, which is then read.
    pub(crate) fn next(&mut self) -> Option<&'t str>
        ensures { MatchOption result ((self.old ≡ []) × (self.new ≡ []))
            (λ word. self.old ≡ word.now ∷ self.new) }
    {
        if self.ended {
            return None;
        }
        match self.text.split_once(' ') {
            None => {
                self.ended = true;
                Some(self.text)
            }
            Some((word, behind)) => {
                self.text = behind;
                Some(word)
            }
        }
    }

    /// Whether no word is left.
    pub(crate) fn are_read(&self) -> bool
        ensures { result ≡ (length self.now == 0) }
    {
        self.ended
    }

    /// Whether one word is left, `-`.
    pub(crate) fn are_dash(&self) -> bool
        ensures { result ≡ is_dash self.now }
    {
        !self.ended && self.text == "-"
    }
}
