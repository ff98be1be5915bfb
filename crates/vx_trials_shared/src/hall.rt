//! A hall's election of one contest, and what is done to its one sheet.

ghost use Rattle.std.specs.Prelude.{IfOk};
ghost use Rattle.vx_election_model.specs.Valid.{IsValid};

use std::alloc::{AllocError, Global};
use std::test::Fail;
use vx_base::OutOfMemory;
use vx_center::{Event, Key};
use vx_election::read_election;
use vx_election_model::Election;
use vx_grid::{Kind, State, States};
use vx_json::Text;
use vx_rules::{ContestMarks, ContestMarksList, SheetMarks};

/// One contest of two candidates.
const HALL: &str =
    r#"{"title":"Hall","date":"2026-11-03","districts":[{"id":"1","name":"Hall"}],"precincts":[{"id":"2","name":"House"}],"contests":[{"id":"3","type":"candidate","districtId":"1","title":"Chair","seats":1,"candidates":[{"id":"4","name":"Cy"},{"id":"5","name":"Di"}]}],"ballotStyles":[{"id":"6","precincts":["2"],"districts":["1"]}]}"#;

/// The hall's election.
pub fn hall(alloc: Global) -> Result<Election, Fail>
    ensures { IfOk result IsValid }
{
    Ok(read_election(alloc, HALL.as_bytes())?)
}

fn key(alloc: Global) -> Result<Key, OutOfMemory> {
    Ok(Key {
        batch: Text::from_str(alloc, "b1")?,
        number: 1,
    })
}

/// The first candidate's bubble is marked.
fn marks(alloc: Global) -> Result<ContestMarksList, AllocError> {
    let marks = ContestMarks {
        contest: 0,
        states: States::from_vec(vec![in alloc; State::Marked, State::Clear]?),
    };
    Ok(ContestMarksList::from_vec(vec![in alloc; marks]?))
}

/// The sheet is added, with the first candidate marked.
pub fn added(alloc: Global) -> Result<Event, OutOfMemory> {
    let key = key(alloc)?;
    let sheet = SheetMarks {
        card: 0,
        front: 1,
        kind: Kind::Precinct,
        test: false,
        contests: marks(alloc)?,
    };
    Ok(Event::Add { key, sheet })
}

/// A station claims the sheet.
pub fn claimed(alloc: Global, station: u32) -> Result<Event, OutOfMemory> {
    Ok(Event::Claim {
        station,
        key: key(alloc)?,
    })
}
