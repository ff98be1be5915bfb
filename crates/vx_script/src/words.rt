ghost use Rattle.std.specs.Prelude.{◌≡◌, ◌∷◌, ◌==◌, [], MatchOption, length};
ghost use Rattle.std.specs.List.{join_with_byte};
ghost use Rattle.vx_script.specs.Script.{first_read, verb_in as verb_in_word, words_of};
ghost use Rattle.vx_script.specs.Options.{number_in};
ghost use Rattle.std.specs.Prelude.{Some, None};

use crate::verbs::Verb;
use std::marker::Model;
use vx_base::read_number;

/// The words of a line that are still to be read. Contracts see the list of them.
#[derive(Drop)]
pub(crate) struct Words<'t> {
    text: &'t str,
    ended: bool,
}

impl<'t> Model for Words<'t> {
    ghost use Rattle.std.specs.Prelude.{List, ℕ, [], if◌then◌else◌};
    ghost use Rattle.vx_script.specs.Script.{words_of};

    ghost Value = { List (List ℕ) };

    ghost view = { λ words. if words.ended then [] else words_of words.text.now };
}

/// What a word asks for.
fn verb_in(word: &str) -> Option<Verb>
    ensures { result ≡ verb_in_word word.now }
{
    if word == "claim" {
        Some(Verb::Claim)
    } else if word == "release" {
        Some(Verb::Release)
    } else if word == "select" {
        Some(Verb::Select)
    } else if word == "overvote" {
        Some(Verb::Overvote)
    } else if word == "accept" {
        Some(Verb::Accept)
    } else if word == "name" {
        Some(Verb::Name)
    } else {
        None
    }
}

/// The number of at most `most` that a word spells.
fn number(word: &str, most: u32) -> Option<u32>
    ensures { result ≡ number_in most word.now }
{
    read_number(word, most)
}

impl<'t> Words<'t> {
    /// The words of a line.
    pub(crate) fn of(text: &'t str) -> Words<'t>
        ensures { result ≡ words_of text.now }
    {
        Words { text, ended: false }
    }

    /// The word in front, which is then read.
    pub(crate) fn next(&mut self) -> Option<&'t str>
        ensures { MatchOption result ((self.old ≡ []) × (self.new ≡ []))
            (λ word. self.old ≡ word.now ∷ self.new) }
    {
        if self.ended {
            return None;
        }
        match self.text.split_once(' ') {
            None => {
                self.ended = true;
                Some(self.text)
            }
            Some((word, behind)) => {
                self.text = behind;
                Some(word)
            }
        }
    }

    /// Whether no word is left.
    pub(crate) fn are_read(&self) -> bool
        ensures { result ≡ (length self.now == 0) }
    {
        self.ended
    }

    /// The rest of the line, as it stands.
    pub(crate) fn rest(&self) -> &'t str
        ensures { result.now ≡ join_with_byte 32 self.now }
    {
        if self.ended { "" } else { self.text }
    }

    /// The verb in front.
    pub(crate) fn verb(&mut self) -> Option<Verb>
        ensures { MatchOption result (first_read verb_in_word self.old ≡ None)
            (λ verb. first_read verb_in_word self.old ≡ Some (verb, self.new)) }
    {
        match self.next() {
            None => None,
            Some(word) => verb_in(word),
        }
    }

    /// The number of at most `most` in front.
    pub(crate) fn number(&mut self, most: u32) -> Option<u32>
        ensures { MatchOption result (first_read (number_in most) self.old ≡ None)
            (λ number. first_read (number_in most) self.old ≡ Some (number, self.new)) }
    {
        match self.next() {
            None => None,
            Some(word) => number(word, most),
        }
    }
}
