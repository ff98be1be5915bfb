//! Short histories of a town, with the answers that they must get.

ghost use Rattle.vx_election_model.specs.Valid.{IsValid};

use crate::alike::answer_of;
use crate::drawing::options_in;
use std::alloc::Global;
use std::process::Abort;
use std::test::Fail;
use vx_base::OutOfMemory;
use vx_center::{Center, Decision, Event, Key, Reply, WriteInName};
use vx_election::read_election;
use vx_election_model::Election;
use vx_grid::{Kind, State, States};
use vx_json::Text;
use vx_rules::{ContestMarks, ContestMarksList, SheetMarks};

/// A town with one contest of two candidates.
pub(crate) const TOWN: &str =
    r#"{"title":"Town","date":"2024-11-05","districts":[{"id":"d","name":"Town"}],"precincts":[{"id":"p","name":"North"}],"contests":[{"id":"mayor","type":"candidate","districtId":"d","title":"Mayor","seats":1,"candidates":[{"id":"a","name":"Ada"},{"id":"b","name":"Bo"}]}],"ballotStyles":[{"id":"s","precincts":["p"],"districts":["d"]}]}"#;

fn key(alloc: Global, number: u32) -> Result<Key, OutOfMemory> {
    Ok(Key {
        batch: Text::from_str(alloc, "b1")?,
        number,
    })
}

/// What is done to the sheets of the town, of which one is there.
#[derive(Clone, Copy)]
enum Act {
    /// The sheet is added: its first option was read as marked, its second so.
    Add(State),
    /// A station takes the sheet with a number.
    Claim(u32, u32),
    Release(u32),
    /// A station accepts what was read.
    Accept(u32),
    /// Station 1 selects from one option on, up to the last that stands above the one before it.
    Select(u32, u32),
    /// Station 1 says that write-in slot 0 names a candidate.
    Name(u32),
}

/// The sheet, whose second option was read so.
fn sheet(alloc: Global, second: State) -> Result<SheetMarks, OutOfMemory> {
    let marks = ContestMarks {
        contest: 0,
        states: States::from_vec(vec![in alloc; State::Marked, second]?),
    };
    Ok(SheetMarks {
        card: 0,
        front: 1,
        kind: Kind::Precinct,
        test: false,
        contests: ContestMarksList::from_vec(vec![in alloc; marks]?),
    })
}

/// A decision of the sheet's one contest.
fn decided(alloc: Global, station: u32, decision: Decision) -> Result<Event, OutOfMemory> {
    Ok(Event::Decide {
        station,
        key: key(alloc, 1)?,
        contest: 0,
        decision,
    })
}

fn event_of(alloc: Global, act: Act) -> Result<Event, OutOfMemory> {
    match act {
        Act::Add(second) => Ok(Event::Add {
            key: key(alloc, 1)?,
            sheet: sheet(alloc, second)?,
        }),
        Act::Claim(station, number) => Ok(Event::Claim {
            station,
            key: key(alloc, number)?,
        }),
        Act::Release(station) => Ok(Event::Release {
            station,
            key: key(alloc, 1)?,
        }),
        Act::Accept(station) => decided(alloc, station, Decision::AcceptRead),
        Act::Select(first, second) => {
            let options = options_in(alloc, first, second, 0)?;
            decided(alloc, 1, Decision::Selections(options))
        }
        Act::Name(candidate) => {
            let name = WriteInName::Candidate(candidate);
            decided(alloc, 1, Decision::NameWriteIn { slot: 0, name })
        }
    }
}

/// A sheet that two stations take in turn.
const TURNS: [(Act, Reply); 9] = [
    (Act::Add(State::Clear), Reply::Done),
    (Act::Claim(1, 1), Reply::Done),
    (Act::Claim(2, 1), Reply::HeldBy(1)),
    (Act::Accept(2), Reply::HeldBy(1)),
    (Act::Release(1), Reply::Done),
    (Act::Claim(2, 1), Reply::Done),
    (Act::Release(2), Reply::Done),
    (Act::Release(2), Reply::NotHeld),
    (Act::Claim(1, 2), Reply::NoSheet),
];

/// A marginal option stands against the read marks.
const MARGINAL: [(Act, Reply); 3] = [
    (Act::Add(State::Marginal), Reply::Done),
    (Act::Claim(1, 1), Reply::Done),
    (Act::Accept(1), Reply::StillMarginal(1)),
];

/// Decisions keep to the contest, which has two options, one seat and no write-ins.
const DECISIONS: [(Act, Reply); 5] = [
    (Act::Add(State::Clear), Reply::Done),
    (Act::Claim(1, 1), Reply::Done),
    (Act::Select(0, 1), Reply::OverSeats(2, 1)),
    (Act::Select(2, 0), Reply::NotAnOption(2)),
    (Act::Name(0), Reply::NoWriteIn(0)),
];

/// Hands a center what is done, and compares the answer. What is done is kept.
fn compare<R: Abort>(
    rt: &R,
    alloc: Global,
    center: &mut Center<'_>,
    act: Act,
    reply: Reply,
) -> Result<(), Fail> {
    let event = event_of(alloc, act)?;
    compare_event(rt, alloc, center, &event, reply)
}

/// Hands a center an event, and compares the answer.
fn compare_event<R: Abort>(
    rt: &R,
    alloc: Global,
    center: &mut Center<'_>,
    event: &Event,
    reply: Reply,
) -> Result<(), Fail> {
    let kept = center.events().len();
    let answer = answer_of(alloc, center, event)?;
    assert_eq!(rt; answer, Some(reply), "{event:?}");
    let more = if reply == Reply::Done { 1 } else { 0 };
    assert_eq!(rt;
        center.events().len(),
        kept.saturating_add(more),
        "{event:?}"
    );
    Ok(())
}

/// Does to a new center what a table says.
fn compare_all<R: Abort>(
    rt: &R,
    alloc: Global,
    election: &Election,
    table: &[(Act, Reply)],
) -> Result<(), Fail>
    requires { IsValid election.now }
{
    let mut center = Center::new(alloc, election);
    for (act, reply) in table {
        compare(rt, alloc, &mut center, *act, *reply)?;
    }
    Ok(())
}

#[test]
fn short_histories_get_their_answers(rt: HostRuntime) -> Result<(), Fail> {
    let alloc = rt.alloc();
    let election = read_election(alloc, TOWN.as_bytes())?;
    compare_all(&rt, alloc, &election, &TURNS)?;
    compare_all(&rt, alloc, &election, &MARGINAL)?;
    compare_all(&rt, alloc, &election, &DECISIONS)
}

/// Hands a center an event so many times, which is done each time.
fn fill<R: Abort>(
    rt: &R,
    alloc: Global,
    center: &mut Center<'_>,
    event: &Event,
    count: u32,
) -> Result<(), Fail> {
    for _step in 0..count {
        let answer = answer_of(alloc, center, event)?;
        assert!(rt; answer == Some(Reply::Done));
    }
    Ok(())
}

/// Fills a center by an add and by claims, and hands it both again.
fn fill_up<R: Abort>(
    rt: &R,
    alloc: Global,
    election: &Election,
    add: &Event,
    claim: &Event,
) -> Result<(), Fail>
    requires { IsValid election.now }
{
    let mut center = Center::new(alloc, election);
    fill(rt, alloc, &mut center, add, 1)?;
    fill(rt, alloc, &mut center, claim, 999_999)?;
    for event in [claim, add] {
        let answer = answer_of(alloc, &mut center, event)?;
        assert!(rt; answer == Some(Reply::Full(1_000_000)), "{answer:?}");
    }
    Ok(())
}

#[test]
fn a_full_center_is_full_before_all_else(rt: HostRuntime) -> Result<(), Fail> {
    let alloc = rt.alloc();
    let election = read_election(alloc, TOWN.as_bytes())?;
    let add = event_of(alloc, Act::Add(State::Clear))?;
    let claim = event_of(alloc, Act::Claim(1, 1))?;
    fill_up(&rt, alloc, &election, &add, &claim)
}
