ghost use Rattle.std.specs.Prelude.{◌≡◌, ◌≤◌, nat_eq, IfOk, Some, None, OnOk};
ghost use Rattle.std.specs.List.{list_any};
ghost use Rattle.vx_script.specs.Options.{numbers_in, options_in, options_of as options_among};

use crate::words::Words;
use std::alloc::Global;
use vx_base::{ListOf, OutOfMemory};
use vx_events::Options;

/// All numbers of at most `most` that words spell, none where one spells none.
fn numbers(
    alloc: Global,
    words: &mut Words<'_>,
    most: u32,
) -> Result<Option<ListOf<u32>>, OutOfMemory>
    ensures { IfOk result (λ found. found ≡ numbers_in most words.old) }
{
    let mut list = ListOf::new(alloc);
    while !words.are_read() {
        match words.number(most) {
            None => return Ok(None),
            Some(number) => list.push(number)?,
        }
    }
    Ok(Some(list))
}

/// Whether a number is among some.
fn is_among(number: u32, numbers: &[u32]) -> bool
    ensures { result ≡ list_any (nat_eq number) numbers.now }
{
    numbers.iter().any(|other| number == *other)
}

/// The set of the options below 1,000 that are among some numbers.
fn options_of(alloc: Global, numbers: &[u32]) -> Result<Options, OutOfMemory>
    ensures { IfOk result (λ options. options ≡ options_among numbers.now) }
{
    let mut list = Vec::new(alloc);
    for option in 0..1_000u32 {
        if is_among(option, numbers) {
            list.push(option)?;
        }
    }
    Ok(Options::from_ascending(list))
}

/// The options that words spell, each once; none where a word spells none.
pub(crate) fn selections(
    alloc: Global,
    words: &mut Words<'_>,
) -> Result<Option<Options>, OutOfMemory>
    ensures { IfOk result (λ found. found ≡ options_in words.old) }
{
    match numbers(alloc, words, 999)? {
        None => Ok(None),
        Some(numbers) => Ok(Some(options_of(alloc, numbers.as_slice())?)),
    }
}
