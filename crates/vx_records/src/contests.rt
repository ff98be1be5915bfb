ghost use Rattle.std.specs.Prelude.{◌≡◌, [], ◌≤◌, ◌<◌, map, IfOk, MatchResult};
ghost use Rattle.vx_records.specs.Parts.{behind, each_in, found};
ghost use Rattle.vx_records.specs.Reading.{contest_in, most_contest as most_contest_of, next_room, states_in, state_of as state_of_letter};
ghost use Rattle.vx_records.specs.Stops.{Stops};

use crate::letters::{Letters, letters_at};
use crate::numbers::{Numbers, number_before};
use crate::parts::{Stop, end, word};
use crate::sheets::Room;
use std::alloc::Global;
use vx_base::OutOfMemory;
use vx_grid::{State, States};
use vx_rules::{ContestMarks, ContestMarksList};

/// What a letter says.
fn state_of(letter: u8) -> State
    ensures { result ≡ state_of_letter letter }
{
    match letter {
        b'm' => State::Marked,
        b'g' => State::Marginal,
        _ => State::Clear,
    }
}

/// What letters say.
fn states_of(alloc: Global, letters: &[u8]) -> Result<States, OutOfMemory>
    ensures { IfOk result (λ states. states ≡ map state_of_letter letters.now) }
{
    let mut states = Vec::with_capacity(alloc, letters.len())?;
    for letter in letters {
        states.push(state_of(*letter))?;
    }
    Ok(States::from_vec(states))
}

/// The states of a contest in at most `room` bytes.
#[tactic(auto, unfolding(crate::specs::Reading::states_in))]
fn states(alloc: Global, text: &[u8], room: usize) -> Result<(States, &[u8]), Stop>
    ensures { MatchResult result
        (λ x. states_in room text.now ≡ found x.0 x.1.now) (λ stop. Stops stop (states_in room text.now)) }
{
    let (letters, rest) = letters_at(text, Letters::States, 1, room.min(150))?;
    let states = states_of(alloc, letters)?;
    Ok((states, rest))
}

/// The greatest contest that there is room for, with a blank, a colon and a state.
fn most_contest(room: usize) -> u32
    ensures exact { result ≡ most_contest_of room }
    ensures small { result ≤ 499 }
{
    match room {
        4 => 9,
        5 => 99,
        _ => 499,
    }
}

/// A contest from `least` on, behind a blank, in at most `room` bytes.
#[tactic(auto, unfolding(crate::specs::Reading::contest_in))]
fn contest(alloc: Global, text: &[u8], place: Room) -> Result<(ContestMarks, &[u8]), Stop>
    ensures exact { MatchResult result
        (λ x. contest_in place text.now ≡ found x.0 x.1.now) (λ stop. Stops stop (contest_in place text.now)) }
    ensures small { IfOk result (λ x. x.0.contest < 500) }
{
    let most = most_contest(place.room);
    if place.room < 4 || most < place.least {
        return Err(Stop::Left(text.len()));
    }
    let start = word(text, b" ")?;
    let (contest, rest) = number_before(start, Numbers::Between(place.least, most), b':')?;
    let room = (place.room - 1).saturating_sub(start.len().saturating_sub(rest.len()));
    let (states, rest) = states(alloc, rest, room)?;
    Ok((ContestMarks { contest, states }, rest))
}

/// Adds the contests that stand here in at most `room` bytes, and nothing more.
fn further_contests(
    list: &mut Vec<ContestMarks>,
    alloc: Global,
    text: &[u8],
    place: Room,
) -> Result<(), Stop>
    ensures { MatchResult result
        (λ _. behind list.old.items (each_in contest_in next_room 500 place text.now) ≡ found list.new.items [])
        (λ stop. Stops stop (behind list.old.items (each_in contest_in next_room 500 place text.now))) }
{
    let mut rest = text;
    let mut next = place;
    for _left in 0..500u32 {
        if rest.is_empty() {
            return Ok(());
        }
        let (marks, further) = contest(alloc, rest, next)?;
        let spent = rest.len().saturating_sub(further.len());
        next = Room {
            least: marks.contest + 1,
            room: next.room.saturating_sub(spent),
        };
        list.push(marks)?;
        rest = further;
    }
    end(rest)
}

/// The contests of a sheet in at most `room` bytes, and nothing more.
pub(crate) fn contests(alloc: Global, text: &[u8], room: usize) -> Result<ContestMarksList, Stop>
    ensures { MatchResult result
        (λ x. each_in contest_in next_room 500 (record { least = 0; room = room }) text.now ≡ found x [])
        (λ stop. Stops stop (each_in contest_in next_room 500 (record { least = 0; room = room }) text.now)) }
{
    let mut list = Vec::new(alloc);
    further_contests(&mut list, alloc, text, Room { least: 0, room })?;
    Ok(ContestMarksList::from_vec(list))
}
