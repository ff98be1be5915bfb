ghost use Rattle.std.specs.Prelude.{◌≡◌, [], MatchResult};
ghost use Rattle.vx_grid.specs.Kinds.{kind_word as kind_word_of};
ghost use Rattle.vx_records.specs.Parts.{choice_from, choice_in, found};
ghost use Rattle.vx_records.specs.Reading.{add_in, head_in, kind_text, kinds};
ghost use Rattle.vx_records.specs.Stops.{Stops};

use crate::contests::contests;
use crate::keys::key_before;
use crate::numbers::{Numbers, number_before};
use crate::parts::{Stop, word};
use std::alloc::Global;
use vx_events::{Event, Key};
use vx_grid::{Kind, kind_word};
use vx_rules::SheetMarks;

/// What an added sheet's record says before its contests.
#[derive(Drop)]
pub(crate) struct Head {
    pub(crate) key: Key,
    pub(crate) card: u32,
    pub(crate) front: u32,
    pub(crate) kind: Kind,
    pub(crate) test: bool,
}

/// Where a contest stands in a record: the least that it may be, and the bytes that are left.
#[derive(Clone, Copy)]
pub(crate) struct Room {
    pub(crate) least: u32,
    pub(crate) room: usize,
}

const KINDS: [(Kind, bool); 8] = [
    (Kind::Precinct, false),
    (Kind::Absentee, false),
    (Kind::Provisional, false),
    (Kind::Other, false),
    (Kind::Precinct, true),
    (Kind::Absentee, true),
    (Kind::Provisional, true),
    (Kind::Other, true),
];

/// The kind whose word stands here; else the word that is begun furthest tells where.
fn kind_among<'a>(text: &'a [u8], among: &[(Kind, bool)]) -> Result<((Kind, bool), &'a [u8]), Stop>
    ensures { MatchResult result
        (λ x. choice_in kind_text among.now text.now ≡ found x.0 x.1.now)
        (λ stop. Stops stop (choice_in kind_text among.now text.now)) }
{
    let mut left = text.len();
    for kind in among {
        match word(text, kind_word(kind.0, kind.1).as_bytes()) {
            Ok(rest) => return Ok((*kind, rest)),
            Err(Stop::Left(other)) => left = left.min(other),
            Err(Stop::NoMemory) => return Err(Stop::NoMemory),
        }
    }
    Err(Stop::Left(left))
}

/// A kind of ballots.
fn kind_here(text: &[u8]) -> Result<((Kind, bool), &[u8]), Stop>
    ensures { MatchResult result
        (λ x. choice_in kind_text kinds text.now ≡ found x.0 x.1.now)
        (λ stop. Stops stop (choice_in kind_text kinds text.now)) }
{
    kind_among(text, &KINDS)
}

/// What an added sheet's record says before its contests.
#[tactic(auto, unfolding(crate::specs::Reading::head_in))]
fn front_part(alloc: Global, text: &[u8]) -> Result<(Head, &[u8]), Stop>
    ensures { MatchResult result
        (λ x. head_in text.now ≡ found x.0 x.1.now) (λ stop. Stops stop (head_in text.now)) }
{
    let (key, rest) = key_before(alloc, text)?;
    let (card, rest) = number_before(rest, Numbers::Between(0, 1_023), b' ')?;
    let (front, rest) = number_before(rest, Numbers::Fronts, b' ')?;
    let ((kind, test), rest) = kind_here(rest)?;
    Ok((
        Head {
            key,
            card,
            front,
            kind,
            test,
        },
        rest,
    ))
}

/// An added sheet.
#[tactic(auto, unfolding(crate::specs::Reading::add_in))]
pub(crate) fn add(alloc: Global, text: &[u8]) -> Result<Event, Stop>
    ensures { MatchResult result
        (λ x. add_in text.now ≡ found x []) (λ stop. Stops stop (add_in text.now)) }
{
    let (head, rest) = front_part(alloc, text)?;
    let room = 16_378usize.saturating_sub(text.len().saturating_sub(rest.len()));
    let contests = contests(alloc, rest, room)?;
    let Head {
        key,
        card,
        front,
        kind,
        test,
    } = head;
    Ok(Event::Add {
        key,
        sheet: SheetMarks {
            card,
            front,
            kind,
            test,
            contests,
        },
    })
}
