ghost use Rattle.std.specs.Prelude.{◌≡◌, ◌∷◌, [], MatchOption, MatchResult};
ghost use Rattle.vx_records.specs.Parts.{ended_at, first_is, found, next_is, word_in, done};
ghost use Rattle.vx_records.specs.Stops.{Stops};

use std::alloc::{AllocError, AllocFailed};

/// Why nothing was read.
#[derive(Clone, Copy)]
pub(crate) enum Stop {
    /// So many bytes are left where the text no longer begins what is looked for.
    Left(usize),
    NoMemory,
}

impl From<AllocError> for Stop {
    ghost use Rattle.vx_records.specs.declared.parts.Stop.TheVariants as stops;

    ghost from_gives = { λ _ stop. stop ≡ stops.NoMemory };

    fn from(_error: AllocError) -> Self {
        Stop::NoMemory
    }
}

impl<T: Drop> From<AllocFailed<T>> for Stop {
    ghost use Rattle.vx_records.specs.declared.parts.Stop.TheVariants as stops;

    ghost from_gives = { λ _ stop. stop ≡ stops.NoMemory };

    fn from(_error: AllocFailed<T>) -> Self {
        Stop::NoMemory
    }
}

/// The first byte and the text behind it.
pub(crate) fn split(text: &[u8]) -> Option<(u8, &[u8])>
    ensures { MatchOption result (text.now ≡ []) (λ x. text.now ≡ x.0 ∷ x.1.now) }
{
    match text {
        [first, rest @ ..] => Some((*first, rest)),
        [] => None,
    }
}

/// Whether the text begins with this byte.
pub(crate) fn is_first(text: &[u8], byte: u8) -> bool
    ensures { result ≡ first_is byte text.now }
{
    match split(text) {
        None => false,
        Some((first, _)) => byte == first,
    }
}

/// One byte.
pub(crate) fn byte(text: &[u8], wanted: u8) -> Result<&[u8], Stop>
    ensures { MatchResult result
        (λ rest. next_is wanted done text.now ≡ found done rest.now)
        (λ stop. Stops stop (next_is wanted done text.now)) }
{
    match text {
        [first, rest @ ..] => {
            if *first == wanted {
                Ok(rest)
            } else {
                Err(Stop::Left(text.len()))
            }
        }
        [] => Err(Stop::Left(0)),
    }
}

/// Nothing more.
pub(crate) fn end(text: &[u8]) -> Result<(), Stop>
    ensures { MatchResult result
        (λ _. text.now ≡ []) (λ stop. Stops stop (ended_at done text.now)) }
{
    if text.is_empty() {
        Ok(())
    } else {
        Err(Stop::Left(text.len()))
    }
}

/// A word that is written out.
pub(crate) fn word<'a>(text: &'a [u8], word: &[u8]) -> Result<&'a [u8], Stop>
    ensures { MatchResult result
        (λ rest. word_in word.now text.now ≡ found done rest.now) (λ stop. Stops stop (word_in word.now text.now)) }
{
    let mut rest = text;
    for wanted in word {
        rest = byte(rest, *wanted)?;
    }
    Ok(rest)
}
