//! Reports of a few sheets, byte by byte beside those that another program made.

ghost use Rattle.std.specs.Prelude.{◌≡◌, IfOk, OnOk};
ghost use Rattle.vx_election_model.specs.Valid.{IsValid};

use crate::worked::TOWN;
use std::alloc::Global;
use std::process::Abort;
use std::test::Fail;
use vx_base::OutOfMemory;
use vx_center::{Center, Decision, Event, Key, Options, WriteInName};
use vx_cvr::report;
use vx_election::read_election;
use vx_election_model::Election;
use vx_grid::{Kind, State, States};
use vx_json::Text;
use vx_rules::{ContestMarks, ContestMarksList, SheetMarks};

const MOMENT: &str = "2024-11-06T08:00:00Z";

const DEVICE: &str = "00000000-0000-4000-8000-000000000001";

/// The town's report where both were marked on one sheet, and a station gave the contest to Bo; made by
/// another program.
const REPORT: &str =
    r#"{"@type":"CVR.CastVoteRecordReport","CVR":[{"@type":"CVR.CVR","BallotSheetId":"1","BallotStyleId":"s","BallotStyleUnitId":"precinct-p","BatchId":"b1","CVRSnapshot":[{"@id":"snapshot-b1-1","@type":"CVR.CVRSnapshot","CVRContest":[{"@type":"CVR.CVRContest","CVRContestSelection":[{"@type":"CVR.CVRContestSelection","ContestSelectionId":"selection-mayor-1","SelectionPosition":[{"@type":"CVR.SelectionPosition","HasIndication":"yes","IsAllocable":"yes","NumberVotes":1}]}],"ContestId":"contest-mayor","Overvotes":0,"Status":[],"Undervotes":0,"WriteIns":0}],"Type":"modified"}],"CurrentSnapshotId":"snapshot-b1-1","ElectionId":"election","UniqueId":"b1-1"}],"Election":[{"@id":"election","@type":"CVR.Election","Candidate":[{"@id":"candidate-mayor-0","@type":"CVR.Candidate","Name":"Ada"},{"@id":"candidate-mayor-1","@type":"CVR.Candidate","Name":"Bo"}],"Contest":[{"@id":"contest-mayor","@type":"CVR.CandidateContest","ContestSelection":[{"@id":"selection-mayor-0","@type":"CVR.CandidateSelection","CandidateIds":["candidate-mayor-0"]},{"@id":"selection-mayor-1","@type":"CVR.CandidateSelection","CandidateIds":["candidate-mayor-1"]}],"Name":"Mayor","VotesAllowed":1}],"ElectionScopeId":"scope","Name":"Town"}],"GeneratedDate":"2024-11-06T08:00:00Z","GpUnit":[{"@id":"scope","@type":"CVR.GpUnit","Name":"Town","Type":"other"},{"@id":"precinct-p","@type":"CVR.GpUnit","Name":"North","Type":"precinct"}],"ReportGeneratingDeviceIds":["device-00000000-0000-4000-8000-000000000001"],"ReportingDevice":[{"@id":"device-00000000-0000-4000-8000-000000000001","@type":"CVR.ReportingDevice"}],"Version":"1.0.0"}
"#;

/// A town with a contest of one candidate and a write-in slot, whose names have a quote, a backslash,
/// U+007F, U+2028 and a character outside the first plane.
const ODD_TOWN: &str =
    r#"{"title":"T\"\\\u007f\u2028\ud835\udfd8","date":"2024-11-05","districts":[{"id":"d","name":"D"}],"precincts":[{"id":"p","name":"P\"\\\u007f\u2028\ud835\udfd8"}],"contests":[{"id":"mayor","type":"candidate","districtId":"d","title":"M\"\\\u007f\u2028\ud835\udfd8","seats":1,"allowWriteIns":true,"candidates":[{"id":"a","name":"A\"\\\u007f\u2028\ud835\udfd8"}]}],"ballotStyles":[{"id":"s","precincts":["p"],"districts":["d"]}]}"#;

/// Its report where the slot was marked on one sheet, and a station named someone of such a name; made
/// by another program.
const ODD_REPORT: &str =
    "{\"@type\":\"CVR.CastVoteRecordReport\",\"CVR\":[{\"@type\":\"CVR.CVR\",\"BallotSheetId\":\"1\",\"BallotStyleId\":\"s\",\"BallotStyleUnitId\":\"precinct-p\",\"BatchId\":\"b1\",\"CVRSnapshot\":[{\"@id\":\"snapshot-b1-1\",\"@type\":\"CVR.CVRSnapshot\",\"CVRContest\":[{\"@type\":\"CVR.CVRContest\",\"CVRContestSelection\":[{\"@type\":\"CVR.CVRContestSelection\",\"ContestSelectionId\":\"selection-mayor-1\",\"SelectionPosition\":[{\"@type\":\"CVR.SelectionPosition\",\"CVRWriteIn\":{\"@type\":\"CVR.CVRWriteIn\",\"Text\":\"\\\"\\\\\u{2028}\u{1d7d8}\"},\"HasIndication\":\"yes\",\"IsAllocable\":\"yes\",\"NumberVotes\":1}]}],\"ContestId\":\"contest-mayor\",\"Overvotes\":0,\"Status\":[],\"Undervotes\":0,\"WriteIns\":1}],\"Type\":\"modified\"}],\"CurrentSnapshotId\":\"snapshot-b1-1\",\"ElectionId\":\"election\",\"UniqueId\":\"b1-1\"}],\"Election\":[{\"@id\":\"election\",\"@type\":\"CVR.Election\",\"Candidate\":[{\"@id\":\"candidate-mayor-0\",\"@type\":\"CVR.Candidate\",\"Name\":\"A\\\"\\\\\u{7f}\u{2028}\u{1d7d8}\"}],\"Contest\":[{\"@id\":\"contest-mayor\",\"@type\":\"CVR.CandidateContest\",\"ContestSelection\":[{\"@id\":\"selection-mayor-0\",\"@type\":\"CVR.CandidateSelection\",\"CandidateIds\":[\"candidate-mayor-0\"]},{\"@id\":\"selection-mayor-1\",\"@type\":\"CVR.CandidateSelection\",\"IsWriteIn\":true}],\"Name\":\"M\\\"\\\\\u{7f}\u{2028}\u{1d7d8}\",\"VotesAllowed\":1}],\"ElectionScopeId\":\"scope\",\"Name\":\"T\\\"\\\\\u{7f}\u{2028}\u{1d7d8}\"}],\"GeneratedDate\":\"2024-11-06T08:00:00Z\",\"GpUnit\":[{\"@id\":\"scope\",\"@type\":\"CVR.GpUnit\",\"Name\":\"T\\\"\\\\\u{7f}\u{2028}\u{1d7d8}\",\"Type\":\"other\"},{\"@id\":\"precinct-p\",\"@type\":\"CVR.GpUnit\",\"Name\":\"P\\\"\\\\\u{7f}\u{2028}\u{1d7d8}\",\"Type\":\"precinct\"}],\"ReportGeneratingDeviceIds\":[\"device-00000000-0000-4000-8000-000000000001\"],\"ReportingDevice\":[{\"@id\":\"device-00000000-0000-4000-8000-000000000001\",\"@type\":\"CVR.ReportingDevice\"}],\"Version\":\"1.0.0\"}\n";

fn key(alloc: Global) -> Result<Key, OutOfMemory> {
    Ok(Key {
        batch: Text::from_str(alloc, "b1")?,
        number: 1,
    })
}

/// A sheet on which the two options of the one contest were read so.
fn added(alloc: Global, first: State, second: State) -> Result<Event, OutOfMemory> {
    let marks = ContestMarks {
        contest: 0,
        states: States::from_vec(vec![in alloc; first, second]?),
    };
    let sheet = SheetMarks {
        card: 0,
        front: 1,
        kind: Kind::Precinct,
        test: false,
        contests: ContestMarksList::from_vec(vec![in alloc; marks]?),
    };
    Ok(Event::Add {
        key: key(alloc)?,
        sheet,
    })
}

fn claimed(alloc: Global) -> Result<Event, OutOfMemory> {
    Ok(Event::Claim {
        station: 1,
        key: key(alloc)?,
    })
}

fn decided(alloc: Global, decision: Decision) -> Result<Event, OutOfMemory> {
    Ok(Event::Decide {
        station: 1,
        key: key(alloc)?,
        contest: 0,
        decision,
    })
}

fn released(alloc: Global) -> Result<Event, OutOfMemory> {
    Ok(Event::Release {
        station: 1,
        key: key(alloc)?,
    })
}

/// Adds what a station does: it claims the sheet, decides its contest so and releases it.
fn push_acts(
    alloc: Global,
    events: &mut Vec<Event>,
    decision: Decision,
) -> Result<(), OutOfMemory> {
    let decide = decided(alloc, decision)?;
    events.push(claimed(alloc)?)?;
    events.push(decide)?;
    events.push(released(alloc)?)?;
    Ok(())
}

/// Both candidates are marked, and a station gives the contest to the second.
fn events_of_town(alloc: Global) -> Result<Vec<Event>, OutOfMemory> {
    let second = Options::from_ascending(vec![in alloc; 1u32]?);
    let mut events = Vec::new(alloc);
    events.push(added(alloc, State::Marked, State::Marked)?)?;
    push_acts(alloc, &mut events, Decision::Selections(second))?;
    Ok(events)
}

/// The write-in slot is marked, and a station says who was written in.
fn events_of_odd_town(alloc: Global) -> Result<Vec<Event>, OutOfMemory> {
    let name = WriteInName::Words(Text::from_str(alloc, "\"\\\u{2028}\u{1d7d8}")?);
    let mut events = Vec::new(alloc);
    events.push(added(alloc, State::Clear, State::Marked)?)?;
    push_acts(alloc, &mut events, Decision::NameWriteIn { slot: 0, name })?;
    Ok(events)
}

/// Hands an event to the center.
fn hand(alloc: Global, center: &mut Center<'_>, event: &Event) -> Result<(), OutOfMemory>
    ensures { OnOk result (center.new.election ≡ center.old.election) }
{
    if center.fits(event) {
        let _reply = center.apply(alloc, event)?;
    }
    Ok(())
}

/// A center that was handed the events.
fn counted<'e>(
    alloc: Global,
    election: &'e Election,
    events: &[Event],
) -> Result<Center<'e>, OutOfMemory>
    requires { IsValid election.now }
    ensures { IfOk result (λ center. center.election ≡ election.now) }
{
    let mut center = Center::new(alloc, election);
    for event in events {
        hand(alloc, &mut center, event)?;
    }
    Ok(center)
}

/// The four events are kept, and this is their report.
fn assert_report<R: AllocGlobal + Abort>(
    rt: &R,
    election: &Election,
    events: &[Event],
    expected: &str,
) -> Result<(), Fail>
    requires { IsValid election.now }
{
    let center = counted(rt.alloc(), election, events)?;
    assert_eq!(rt; center.events().len(), 4);
    let text = report(rt.alloc(), election, &center, MOMENT, DEVICE)?;
    assert_eq!(rt; text.as_slice(), expected.as_bytes());
    Ok(())
}

#[test]
fn an_adjudicated_sheet_is_reported(rt: HostRuntime) -> Result<(), Fail> {
    let election = read_election(rt.alloc(), TOWN.as_bytes())?;
    let events = events_of_town(rt.alloc())?;
    assert_report(&rt, &election, events.as_slice(), REPORT)
}

#[test]
fn names_are_written_whole(rt: HostRuntime) -> Result<(), Fail> {
    let election = read_election(rt.alloc(), ODD_TOWN.as_bytes())?;
    let events = events_of_odd_town(rt.alloc())?;
    assert_report(&rt, &election, events.as_slice(), ODD_REPORT)
}
