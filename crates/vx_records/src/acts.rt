ghost use Rattle.std.specs.Prelude.{◌≡◌, min, MatchResult};
ghost use Rattle.vx_records.specs.Parts.{choice_from, choice_in, found};
ghost use Rattle.vx_records.specs.Reading.{act_word as act_word_of, acts};
ghost use Rattle.vx_records.specs.Stops.{Stops};

use crate::parts::{Stop, word};

/// What is decided of a contest.
#[derive(Clone, Copy)]
pub(crate) enum Ruling {
    Select,
    Overvote,
    Accept,
    Name,
}

/// The kinds of records.
#[derive(Clone, Copy)]
pub(crate) enum Act {
    AddSheet,
    ClaimSheet,
    ReleaseSheet,
    DecideContest(Ruling),
}

const ACTS: [Act; 7] = [
    Act::AddSheet,
    Act::ClaimSheet,
    Act::ReleaseSheet,
    Act::DecideContest(Ruling::Select),
    Act::DecideContest(Ruling::Overvote),
    Act::DecideContest(Ruling::Accept),
    Act::DecideContest(Ruling::Name),
];

/// How a record of the kind begins.
fn act_word(act: Act) -> &'static str
    ensures { result.now ≡ act_word_of act }
{
    match act {
        Act::AddSheet => "1 add ",
        Act::ClaimSheet => "1 claim ",
        Act::ReleaseSheet => "1 release ",
        Act::DecideContest(Ruling::Select) => "1 select ",
        Act::DecideContest(Ruling::Overvote) => "1 overvote ",
        Act::DecideContest(Ruling::Accept) => "1 accept ",
        Act::DecideContest(Ruling::Name) => "1 name ",
    }
}

/// The kind whose word stands at the front; else the word that is begun furthest tells where.
fn act_among<'a>(text: &'a [u8], among: &[Act]) -> Result<(Act, &'a [u8]), Stop>
    ensures { MatchResult result
        (λ x. choice_in act_word_of among.now text.now ≡ found x.0 x.1.now)
        (λ stop. Stops stop (choice_in act_word_of among.now text.now)) }
{
    let mut left = text.len();
    for act in among {
        match word(text, act_word(*act).as_bytes()) {
            Ok(rest) => return Ok((*act, rest)),
            Err(Stop::Left(other)) => left = left.min(other),
            Err(Stop::NoMemory) => return Err(Stop::NoMemory),
        }
    }
    Err(Stop::Left(left))
}

/// What kind of record this is, and what stands behind its first word.
pub(crate) fn first_word(text: &[u8]) -> Result<(Act, &[u8]), Stop>
    ensures { MatchResult result
        (λ x. choice_in act_word_of acts text.now ≡ found x.0 x.1.now)
        (λ stop. Stops stop (choice_in act_word_of acts text.now)) }
{
    act_among(text, &ACTS)
}
