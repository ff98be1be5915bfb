use std::alloc::Global;
use std::test::Fail;
use vx_base::OutOfMemory;
use vx_events::*;
use vx_grid::{Kind, State, States};
use vx_json::Text;
use vx_rules::{ContestMarks, ContestMarksList, SheetMarks};

#[test]
fn sheets_are_copied(rt: HostRuntime) -> Result<(), Fail> {
    let mut states = Vec::new(rt.alloc());
    states.push(State::Marked)?;
    let marks = ContestMarks {
        contest: 4,
        states: States::from_vec(states),
    };
    assert!(rt; marks.copy(rt.alloc())?.states.len() == 1);
    let mut contests = Vec::new(rt.alloc());
    contests.push(marks)?;
    let sheet = SheetMarks {
        card: 1,
        front: 3,
        kind: Kind::Absentee,
        test: true,
        contests: ContestMarksList::from_vec(contests),
    };
    assert!(rt; sheet.copy(rt.alloc())?.contests.len() == 1);
    Ok(())
}

/// A copy of a key.
fn key_of(alloc: Global) -> Result<Key, OutOfMemory> {
    let key = Key {
        batch: Text::from_str(alloc, "b1")?,
        number: 7,
    };
    key.copy(alloc)
}

/// A copy of a decision, whose name is a copy.
fn decision_of(alloc: Global) -> Result<Decision, OutOfMemory> {
    let name = WriteInName::Candidate(2);
    let decision = Decision::NameWriteIn {
        slot: 1,
        name: name.copy(alloc)?,
    };
    decision.copy(alloc)
}

/// A decision of a sheet.
fn decided(alloc: Global) -> Result<Event, OutOfMemory> {
    Ok(Event::Decide {
        station: 3,
        key: key_of(alloc)?,
        contest: 4,
        decision: decision_of(alloc)?,
    })
}

#[test]
fn events_are_copied(rt: HostRuntime) -> Result<(), Fail> {
    let mut numbers = Vec::new(rt.alloc());
    numbers.push(2)?;
    let options = Options::from_ascending(numbers);
    assert!(rt; options.copy(rt.alloc())?.as_slice().len() == 1);
    let event = decided(rt.alloc())?;
    let _copy = event.copy(rt.alloc())?;
    Ok(())
}
