ghost use Rattle.std.specs.Prelude.{◌≡◌, ◌∷◌, [], MatchOption};
ghost use Rattle.vx_readings.specs.Lines.{goes_on, turned_in};
ghost use Rattle.vx_readings.specs.Parts.{parts_of};
ghost use Rattle.vx_readings.specs.Words as reading;

use crate::lines::split_at;
use crate::numbers::number_in;
use std::marker::Model;

/// The parts of a text that are left, of which a byte stands between each two.
#[derive(Drop)]
pub(crate) struct Parts<'a> {
    at: u8,
    some: bool,
    text: &'a [u8],
}

impl<'a> Model for Parts<'a> {
    ghost use Rattle.std.specs.Prelude.{List, ℕ, [], if◌then◌else◌};
    ghost use Rattle.vx_readings.specs.Parts.{parts_of};

    ghost Value = { List (List ℕ) };

    ghost view = { λ a. if a.some then parts_of a.at a.text.now else [] };
}

impl<'a> Parts<'a> {
    /// The parts of a text before, between and behind the places of a byte.
    pub(crate) fn of(at: u8, text: &'a [u8]) -> Parts<'a>
        ensures { result ≡ parts_of at text.now }
    {
        Parts {
            at,
            some: true,
            text,
        }
    }

    /// The first part, and those behind it.
    pub(crate) fn split(self) -> Option<(&'a [u8], Parts<'a>)>
        ensures { MatchOption result (self.entry ≡ []) (λ found. self.entry ≡ found.0.now ∷ found.1) }
    {
        let Parts { at, some, text } = self;
        if !some {
            return None;
        }
        match split_at(at, text) {
            Some((part, behind)) => Some((
                part,
                Parts {
                    at,
                    some: true,
                    text: behind,
                },
            )),
            None => Some((
                text,
                Parts {
                    at,
                    some: false,
                    text,
                },
            )),
        }
    }
}

/// The words behind a first one that has to be there.
pub(crate) fn behind<'a>(words: Parts<'a>, wanted: &[u8]) -> Option<Parts<'a>>
    ensures { result ≡ reading.behind wanted.now words.entry }
{
    let (word, rest) = words.split()?;
    if word == wanted { Some(rest) } else { None }
}

/// A number and the words behind it.
pub(crate) fn number_first<'a>(words: Parts<'a>) -> Option<(u32, Parts<'a>)>
    ensures { result ≡ reading.number_first words.entry }
{
    let (word, rest) = words.split()?;
    let number = number_in(word)?;
    Some((number, rest))
}

/// A number behind its name, and the words behind it.
#[tactic(auto, unfolding(crate::specs::Words::named_number))]
pub(crate) fn named_number<'a>(words: Parts<'a>, name: &[u8]) -> Option<(u32, Parts<'a>)>
    ensures { result ≡ reading.named_number name.now words.entry }
{
    let rest = behind(words, name)?;
    number_first(rest)
}
