//! What is asked where an input isn't there: each input before it, whole and in order, then its size, and nothing
//! behind it; and what stands then is what was done before it was asked for.

use crate::devices::{Answer, Failing};
use crate::failing_fronts::stand_of;
use crate::failing_trials::{COUNTS, Day, JOURNALS, READERS, Trial, make_day, run_over, run_trial};
use crate::rows::ONE_SHEET;
use std::alloc::{AllocError, Global};
use std::process::Abort;
use std::test::Fail;
use std::thread::Threads;
use vx_town::{asked_in_order, records_of};

/// A seed of a sample.
const SEED: &str = "d23f87b5801cc23d64ca7e118fbd3c46554d139db14b7b29c7e984000fe120dc";

/// Further commands, over the records of one sheet, and the inputs that they take, in order.
const FURTHER: [(&[&str], &[&str]); 8] = [
    (&["cards", "e"], &["e"]),
    (&["try", "e", "s", "t", "s"], &["e", "s", "t", "s"]),
    (&["results", "e"], &["e"]),
    (&["summary", "e"], &["e"]),
    (&["sample", "e", SEED, "20", "d"], &["e", "d"]),
    (&["board", "e", SEED, "20"], &["e"]),
    (&["risk", "e", SEED, "20", "d", "50"], &["e", "d"]),
    (&["desk", "e", "b1", "s", "t"], &["e", "s", "t"]),
];

/// The place among a command's words of the input that it takes behind so many others.
fn place_of(words: &[&str], asks: &[&str], behind: usize) -> usize {
    let mut found = 0;
    for place in 1..words.len() {
        if found < asks.len() && words[place] == asks[found] {
            if found == behind {
                return place;
            }
            found += 1;
        }
    }
    words.len()
}

/// The words with the name of no input in a place.
fn renamed<'w>(alloc: Global, words: &[&'w str], place: usize) -> Result<Vec<&'w str>, AllocError> {
    let mut renamed = Vec::from_slice(alloc, words)?;
    if place < renamed.len() {
        renamed[place] = "none";
    }
    Ok(renamed)
}

/// What is asked of inputs of which that behind so many others isn't there.
fn asked_before(alloc: Global, asks: &[&str], behind: usize) -> Result<String, AllocError> {
    let mut asked = asked_in_order(alloc, &asks[..asks.len().min(behind)])?;
    asked.push_str("size none\n")?;
    Ok(asked)
}

/// The command ended for want of the input of a word, and asked what it should have.
fn assert_refused<R: AllocGlobal + Abort>(
    rt: &R,
    words: &[&str],
    asks: &[&str],
    behind: usize,
    answer: &Answer,
) -> Result<(), Fail> {
    let status = format!(in rt.alloc(); "no input {}", place_of(words, asks, behind))?;
    assert_eq!(rt; answer.status.as_str(), status.as_str(), "{:?}", words);
    let asked = asked_before(rt.alloc(), asks, behind)?;
    assert_eq!(rt; answer.asked.as_str(), asked.as_str(), "{:?}", words);
    Ok(())
}

/// What the command of a trial answers where the input that it takes behind so many others isn't there.
fn answer_without<R: Threads + Sync + AllocGlobal>(
    rt: &R,
    day: &Day,
    words: &[&str],
    asks: &[&str],
    before: &[&str],
    behind: usize,
) -> Result<Answer, Fail> {
    let renamed = renamed(rt.alloc(), words, place_of(words, asks, behind))?;
    let records = records_of(rt.alloc(), before)?;
    run_over(rt, day, &records, renamed.as_slice(), Failing::NONE)
}

/// Without one of its inputs the command does what it did before it asked for that, and asks nothing behind it.
fn assert_stops<R: Threads + Sync + AllocGlobal + Abort>(
    rt: &R,
    day: &Day,
    trial: &Trial,
    whole: &Answer,
    behind: usize,
    acts: usize,
) -> Result<(), Fail> {
    let now = answer_without(rt, day, trial.words, trial.asks, trial.before, behind)?;
    assert_refused(rt, trial.words, trial.asks, behind, &now)?;
    let stand = stand_of(trial.acts, trial.before.len(), whole, &now);
    assert_eq!(rt; stand, Some(acts), "{:?}", trial.words);
    Ok(())
}

/// Each input of each of these commands isn't there.
fn each_input_is_missing<R: Threads + Sync + AllocGlobal + Abort>(
    rt: &R,
    trials: &[Trial],
) -> Result<(), Fail> {
    let day = make_day(rt)?;
    for trial in trials {
        let whole = run_trial(rt, &day, trial, Failing::NONE)?;
        for (behind, acts) in trial.takes.iter().enumerate() {
            assert_stops(rt, &day, trial, &whole, behind, *acts)?;
        }
    }
    Ok(())
}

/// Each input of a further command isn't there.
fn each_is_missing<R: Threads + Sync + AllocGlobal + Abort>(
    rt: &R,
    day: &Day,
    words: &[&str],
    asks: &[&str],
) -> Result<(), Fail> {
    for behind in 0..asks.len() {
        let answer = answer_without(rt, day, words, asks, ONE_SHEET, behind)?;
        assert_refused(rt, words, asks, behind, &answer)?;
    }
    Ok(())
}

#[test]
fn nothing_is_asked_behind_an_input_that_is_not_there(rt: HostRuntime) -> Result<(), Fail> {
    each_input_is_missing(&rt, &READERS)?;
    each_input_is_missing(&rt, &COUNTS)?;
    each_input_is_missing(&rt, &JOURNALS)
}

#[test]
fn further_commands_ask_nothing_behind_an_input_that_is_not_there(
    rt: HostRuntime,
) -> Result<(), Fail> {
    let day = make_day(&rt)?;
    for (words, asks) in FURTHER {
        each_is_missing(&rt, &day, words, asks)?;
    }
    Ok(())
}
