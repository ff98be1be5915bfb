ghost use Rattle.std.specs.Prelude.{◌≡◌, [], MatchResult};
ghost use Rattle.vx_records.specs.Parts.{found};
ghost use Rattle.vx_records.specs.Reading.{candidate_in, decide_in, decision_in, name_in, select_in, text_name_in, written_in};
ghost use Rattle.vx_records.specs.Stops.{Stops};

use crate::acts::Ruling;
use crate::characters::words;
use crate::keys::{key_before, station};
use crate::numbers::{Numbers, last_number, number, number_before};
use crate::options::options;
use crate::parts::{Stop, end, is_first, word};
use std::alloc::Global;
use vx_events::{Decision, Event, WriteInName};

/// Options that are selected.
#[tactic(auto, unfolding(crate::specs::Reading::select_in))]
fn select(alloc: Global, text: &[u8]) -> Result<Decision, Stop>
    ensures { MatchResult result
        (λ x. select_in text.now ≡ found x []) (λ stop. Stops stop (select_in text.now)) }
{
    let rest = word(text, b" ")?;
    let options = options(alloc, rest)?;
    Ok(Decision::Selections(options))
}

/// Words that were written in.
#[tactic(auto, unfolding(crate::specs::Reading::text_name_in))]
fn text_name(alloc: Global, text: &[u8]) -> Result<WriteInName, Stop>
    ensures { MatchResult result
        (λ x. text_name_in text.now ≡ found x []) (λ stop. Stops stop (text_name_in text.now)) }
{
    let rest = word(text, b"text ")?;
    let words = words(alloc, rest)?;
    Ok(WriteInName::Words(words))
}

/// A candidate who was written in.
#[tactic(auto, unfolding(crate::specs::Reading::candidate_in))]
fn candidate(text: &[u8]) -> Result<WriteInName, Stop>
    ensures { MatchResult result
        (λ x. candidate_in text.now ≡ found x []) (λ stop. Stops stop (candidate_in text.now)) }
{
    let rest = word(text, b"candidate ")?;
    let number = last_number(rest, Numbers::Between(0, 999))?;
    Ok(WriteInName::Candidate(number))
}

/// Whom a slot names.
#[tactic(auto, unfolding(crate::specs::Reading::written_in))]
fn written(alloc: Global, text: &[u8]) -> Result<WriteInName, Stop>
    ensures { MatchResult result
        (λ x. written_in text.now ≡ found x []) (λ stop. Stops stop (written_in text.now)) }
{
    if is_first(text, b't') {
        text_name(alloc, text)
    } else {
        candidate(text)
    }
}

/// A write-in slot, and whom it names.
#[tactic(auto, unfolding(crate::specs::Reading::name_in))]
fn name(alloc: Global, text: &[u8]) -> Result<Decision, Stop>
    ensures { MatchResult result
        (λ x. name_in text.now ≡ found x []) (λ stop. Stops stop (name_in text.now)) }
{
    let rest = word(text, b" ")?;
    let (slot, rest) = number_before(rest, Numbers::Between(0, 999), b' ')?;
    let name = written(alloc, rest)?;
    Ok(Decision::NameWriteIn { slot, name })
}

/// What stands behind the contest.
fn decision(alloc: Global, ruling: Ruling, text: &[u8]) -> Result<Decision, Stop>
    ensures { MatchResult result
        (λ x. decision_in ruling text.now ≡ found x []) (λ stop. Stops stop (decision_in ruling text.now)) }
{
    match ruling {
        Ruling::Select => select(alloc, text),
        Ruling::Overvote => {
            end(text)?;
            Ok(Decision::RuledOvervote)
        }
        Ruling::Accept => {
            end(text)?;
            Ok(Decision::AcceptRead)
        }
        Ruling::Name => name(alloc, text),
    }
}

/// What a station decides of a contest.
#[tactic(auto, unfolding(crate::specs::Reading::decide_in))]
pub(crate) fn decide(alloc: Global, ruling: Ruling, text: &[u8]) -> Result<Event, Stop>
    ensures { MatchResult result
        (λ x. decide_in ruling text.now ≡ found x []) (λ stop. Stops stop (decide_in ruling text.now)) }
{
    let (station, rest) = station(text)?;
    let (key, rest) = key_before(alloc, rest)?;
    let (contest, rest) = number(rest, Numbers::Between(0, 499))?;
    let decision = decision(alloc, ruling, rest)?;
    Ok(Event::Decide {
        station,
        key,
        contest,
        decision,
    })
}
