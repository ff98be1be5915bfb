//! Reports from outside: what they say, and which fault comes first.

ghost use Rattle.std.specs.Prelude.{IfOk};
ghost use Rattle.vx_tally.specs.Totals.{AreCountable};

use std::alloc::{AllocError, Global};
use std::process::Abort;
use std::test::*;
use vx_tally::{CvrRecord, Report, ReportContest, drop_report, read_report};

// A report with a part of each kind.
const VALID: &str =
    r#"{"CVR":[{"UniqueId":"b1-1","BallotStyleUnitId":"u1","CVRSnapshot":[{"CVRContest":[{"ContestId":"c1","Overvotes":0,"Undervotes":1,"CVRContestSelection":[{"ContestSelectionId":"s1","SelectionPosition":[{"NumberVotes":1}]}]}]}]},{"UniqueId":"b1-2","BallotStyleUnitId":"u2","CVRSnapshot":[{"CVRContest":[]},7]}],
"Election":[{"Contest":[{"@id":"c1","ContestSelection":[{"@id":"s1"},{"@id":"s2"}]},{"@id":"c2","ContestSelection":[{"@id":"t1"}]}]},8],
"GpUnit":[{"@id":"u1"},{"@id":"u2"}]}"#;

// One row a line: a part of the valid report, what stands there instead, and what is then answered.
// Members named `was` are passed over. `~a257~` stands for 257 times `a`, `~z3~` for `0,0,0`.
const ROWS: &str = r#""GpUnit":[ -> "was":[ -> 2 GpUnit
"GpUnit":[ -> "GpUnit":7,"was":[ -> 3 GpUnit
{"@id":"u1"} -> {} -> 2 GpUnit[0].@id
{"@id":"u1"} -> 7 -> 3 GpUnit[0]
{"@id":"u1"} -> {"@id":7} -> 3 GpUnit[0].@id
{"@id":"u1"} -> {"@id":""} -> 4 GpUnit[0].@id
{"@id":"u1"} -> {"@id":"a,b"} -> 4 GpUnit[0].@id
{"@id":"u1"} -> {"@id":"a b"} -> 4 GpUnit[0].@id
{"@id":"u1"} -> {"@id":"\u00e9"} -> 4 GpUnit[0].@id
{"@id":"u1"} -> {"@id":"\u007f"} -> 4 GpUnit[0].@id
{"@id":"u1"} -> {"@id":"~a257~"} -> 4 GpUnit[0].@id
{"@id":"u1"} -> {"@id":"~a256~"} -> 6 CVR[0].BallotStyleUnitId u1
{"@id":"u1"} -> {"@id":"!"} -> 6 CVR[0].BallotStyleUnitId u1
{"@id":"u2"} -> {"@id":"u1"} -> 5 GpUnit[1].@id u1
{"@id":"u1"},{"@id":"u2"} ->  -> 6 CVR[0].BallotStyleUnitId u1
{"@id":"u1"},{"@id":"u2"} -> ~z1000001~ -> 4 GpUnit
{"@id":"u1"},{"@id":"u2"} -> ~z1000000~ -> 3 GpUnit[0]
"Election":[ -> "was":[ -> 2 Election
"Election":[ -> "Election":{},"was":[ -> 3 Election
"Election":[ -> "Election":[],"was":[ -> 4 Election
"Election":[ -> "Election":[7],"was":[ -> 3 Election[0]
"Election":[ -> "Election":[{}],"was":[ -> 2 Election[0].Contest
"Election":[ -> "Election":[{"Contest":{}}],"was":[ -> 3 Election[0].Contest
"Election":[ -> "Election":[{"Contest":[]}],"was":[ -> 6 CVR[0].CVRSnapshot[0].CVRContest[0].ContestId c1
{"@id":"c2", -> {"@id":"c1", -> 5 Election[0].Contest[1].@id c1
{"@id":"c2", -> { -> 2 Election[0].Contest[1].@id
{"@id":"c2", -> {"@id":[], -> 3 Election[0].Contest[1].@id
{"@id":"c2", -> {"@id":"c,2", -> 4 Election[0].Contest[1].@id
{"@id":"c2","ContestSelection":[{"@id":"t1"}]} -> 7 -> 3 Election[0].Contest[1]
{"@id":"s2"} -> {"@id":"s1"} -> 5 Election[0].Contest[0].ContestSelection[1].@id s1
{"@id":"t1"} -> {"@id":"s2"} -> 5 Election[0].Contest[1].ContestSelection[0].@id s2
{"@id":"s2"} -> {} -> 2 Election[0].Contest[0].ContestSelection[1].@id
{"@id":"s2"} -> 7 -> 3 Election[0].Contest[0].ContestSelection[1]
{"@id":"s2"} -> {"@id":null} -> 3 Election[0].Contest[0].ContestSelection[1].@id
{"@id":"s2"} -> {"@id":"s 2"} -> 4 Election[0].Contest[0].ContestSelection[1].@id
"ContestSelection":[{"@id":"t1"}] -> "ContestSelection":7 -> 3 Election[0].Contest[1].ContestSelection
"ContestSelection":[{"@id":"t1"}] -> "was":0 -> 2 Election[0].Contest[1].ContestSelection
"ContestSelection":[{"@id":"t1"}] -> "ContestSelection":[] -> ok
"CVR":[ -> "was":[ -> 2 CVR
"CVR":[ -> "CVR":"x","was":[ -> 3 CVR
"CVR":[ -> "CVR":[],"was":[ -> ok
"CVR":[ -> "CVR":[7, -> 3 CVR[0]
"UniqueId":"b1-1", ->  -> 2 CVR[0].UniqueId
"UniqueId":"b1-1" -> "UniqueId":[] -> 3 CVR[0].UniqueId
"UniqueId":"b1-1" -> "UniqueId":"" -> 4 CVR[0].UniqueId
"UniqueId":"b1-2" -> "UniqueId":"b1-1" -> 5 CVR[1].UniqueId b1-1
"BallotStyleUnitId":"u2", ->  -> 2 CVR[1].BallotStyleUnitId
"BallotStyleUnitId":"u2" -> "BallotStyleUnitId":2 -> 3 CVR[1].BallotStyleUnitId
"BallotStyleUnitId":"u2" -> "BallotStyleUnitId":"u 2" -> 4 CVR[1].BallotStyleUnitId
"BallotStyleUnitId":"u2" -> "BallotStyleUnitId":"u3" -> 6 CVR[1].BallotStyleUnitId u3
"CVRSnapshot":[{"CVRContest":[]},7] -> "was":0 -> 2 CVR[1].CVRSnapshot
"CVRSnapshot":[{"CVRContest":[]},7] -> "CVRSnapshot":{} -> 3 CVR[1].CVRSnapshot
"CVRSnapshot":[{"CVRContest":[]},7] -> "CVRSnapshot":[] -> 4 CVR[1].CVRSnapshot
"CVRSnapshot":[{"CVRContest":[]},7] -> "CVRSnapshot":[7] -> 3 CVR[1].CVRSnapshot[0]
"CVRSnapshot":[{"CVRContest":[]},7] -> "CVRSnapshot":[{}] -> 2 CVR[1].CVRSnapshot[0].CVRContest
"CVRSnapshot":[{"CVRContest":[]},7] -> "CVRSnapshot":[{"CVRContest":{}}] -> 3 CVR[1].CVRSnapshot[0].CVRContest
{"CVRContest":[]},7 -> {"CVRContest":[~z1001~]} -> 4 CVR[1].CVRSnapshot[0].CVRContest
{"CVRContest":[]},7 -> {"CVRContest":[~z1000~]} -> 3 CVR[1].CVRSnapshot[0].CVRContest[0]
"CVRContest":[{ -> "CVRContest":[{"ContestId":"c1","Overvotes":0,"Undervotes":0,"CVRContestSelection":[]},{ -> 5 CVR[0].CVRSnapshot[0].CVRContest[1].ContestId c1
"ContestId":"c1" -> "ContestId":"c3" -> 6 CVR[0].CVRSnapshot[0].CVRContest[0].ContestId c3
"ContestId":"c1" -> "was":0 -> 2 CVR[0].CVRSnapshot[0].CVRContest[0].ContestId
"ContestId":"c1" -> "ContestId":true -> 3 CVR[0].CVRSnapshot[0].CVRContest[0].ContestId
"ContestId":"c1" -> "ContestId":"" -> 4 CVR[0].CVRSnapshot[0].CVRContest[0].ContestId
"Overvotes":0, ->  -> 2 CVR[0].CVRSnapshot[0].CVRContest[0].Overvotes
"Overvotes":0 -> "Overvotes":-1 -> 3 CVR[0].CVRSnapshot[0].CVRContest[0].Overvotes
"Overvotes":0 -> "Overvotes":51 -> 4 CVR[0].CVRSnapshot[0].CVRContest[0].Overvotes
"Overvotes":0 -> "Overvotes":50 -> ok
"Undervotes":1, ->  -> 2 CVR[0].CVRSnapshot[0].CVRContest[0].Undervotes
"Undervotes":1 -> "Undervotes":"1" -> 3 CVR[0].CVRSnapshot[0].CVRContest[0].Undervotes
"Undervotes":1 -> "Undervotes":51 -> 4 CVR[0].CVRSnapshot[0].CVRContest[0].Undervotes
"CVRContestSelection":[ -> "was":[ -> 2 CVR[0].CVRSnapshot[0].CVRContest[0].CVRContestSelection
"CVRContestSelection":[ -> "CVRContestSelection":7,"was":[ -> 3 CVR[0].CVRSnapshot[0].CVRContest[0].CVRContestSelection
"CVRContestSelection":[ -> "CVRContestSelection":[],"was":[ -> ok
"CVRContestSelection":[ -> "CVRContestSelection":[~z1001~],"was":[ -> 4 CVR[0].CVRSnapshot[0].CVRContest[0].CVRContestSelection
"CVRContestSelection":[ -> "CVRContestSelection":[~z1000~],"was":[ -> 3 CVR[0].CVRSnapshot[0].CVRContest[0].CVRContestSelection[0]
"ContestSelectionId":"s1" -> "was":0 -> 2 CVR[0].CVRSnapshot[0].CVRContest[0].CVRContestSelection[0].ContestSelectionId
"ContestSelectionId":"s1" -> "ContestSelectionId":1 -> 3 CVR[0].CVRSnapshot[0].CVRContest[0].CVRContestSelection[0].ContestSelectionId
"ContestSelectionId":"s1" -> "ContestSelectionId":"s,1" -> 4 CVR[0].CVRSnapshot[0].CVRContest[0].CVRContestSelection[0].ContestSelectionId
"ContestSelectionId":"s1" -> "ContestSelectionId":"s3" -> 6 CVR[0].CVRSnapshot[0].CVRContest[0].CVRContestSelection[0].ContestSelectionId s3
"ContestSelectionId":"s1" -> "ContestSelectionId":"t1" -> 6 CVR[0].CVRSnapshot[0].CVRContest[0].CVRContestSelection[0].ContestSelectionId t1
"ContestSelectionId":"s1" -> "ContestSelectionId":"s2" -> ok
"SelectionPosition":[{"NumberVotes":1}] -> "SelectionPosition":[] -> 4 CVR[0].CVRSnapshot[0].CVRContest[0].CVRContestSelection[0].SelectionPosition
"SelectionPosition":[{"NumberVotes":1}] -> "was":0 -> 2 CVR[0].CVRSnapshot[0].CVRContest[0].CVRContestSelection[0].SelectionPosition
"SelectionPosition":[{"NumberVotes":1}] -> "SelectionPosition":{} -> 3 CVR[0].CVRSnapshot[0].CVRContest[0].CVRContestSelection[0].SelectionPosition
"SelectionPosition":[{"NumberVotes":1}] -> "SelectionPosition":[7] -> 3 CVR[0].CVRSnapshot[0].CVRContest[0].CVRContestSelection[0].SelectionPosition[0]
"SelectionPosition":[{"NumberVotes":1}] -> "SelectionPosition":[{"NumberVotes":1},7] -> ok
{"NumberVotes":1} -> {} -> 2 CVR[0].CVRSnapshot[0].CVRContest[0].CVRContestSelection[0].SelectionPosition[0].NumberVotes
"NumberVotes":1 -> "NumberVotes":-1 -> 3 CVR[0].CVRSnapshot[0].CVRContest[0].CVRContestSelection[0].SelectionPosition[0].NumberVotes
"NumberVotes":1 -> "NumberVotes":51 -> 4 CVR[0].CVRSnapshot[0].CVRContest[0].CVRContestSelection[0].SelectionPosition[0].NumberVotes
"NumberVotes":1 -> "NumberVotes":1.0 -> 3 CVR[0].CVRSnapshot[0].CVRContest[0].CVRContestSelection[0].SelectionPosition[0].NumberVotes
"NumberVotes":1 -> "NumberVotes":1e0 -> 3 CVR[0].CVRSnapshot[0].CVRContest[0].CVRContestSelection[0].SelectionPosition[0].NumberVotes
"NumberVotes":1 -> "NumberVotes":99,"NumberVotes":1 -> ok
"Undervotes":1 -> "Undervotes":01 -> 1
"Undervotes":1 -> "was":~[200~7~]200~,"Undervotes":1 -> 1
"Undervotes":1 -> "was":~[100~7~]100~,"Undervotes":1 -> ok"#;

pub(crate) const WORKED: &str =
    r#"{"@type":"CVR.CastVoteRecordReport","CVR":[{"@type":"CVR.CVR","BallotSheetId":"1","BallotStyleId":"s","BallotStyleUnitId":"precinct-p","BatchId":"b1","CVRSnapshot":[{"@id":"snapshot-b1-1","@type":"CVR.CVRSnapshot","CVRContest":[{"@type":"CVR.CVRContest","CVRContestSelection":[{"@type":"CVR.CVRContestSelection","ContestSelectionId":"selection-mayor-1","SelectionPosition":[{"@type":"CVR.SelectionPosition","HasIndication":"yes","IsAllocable":"yes","NumberVotes":1}]}],"ContestId":"contest-mayor","Overvotes":0,"Status":[],"Undervotes":0,"WriteIns":0}],"Type":"modified"}],"CurrentSnapshotId":"snapshot-b1-1","ElectionId":"election","UniqueId":"b1-1"}],"Election":[{"@id":"election","@type":"CVR.Election","Candidate":[{"@id":"candidate-mayor-0","@type":"CVR.Candidate","Name":"Ada"},{"@id":"candidate-mayor-1","@type":"CVR.Candidate","Name":"Bo"}],"Contest":[{"@id":"contest-mayor","@type":"CVR.CandidateContest","ContestSelection":[{"@id":"selection-mayor-0","@type":"CVR.CandidateSelection","CandidateIds":["candidate-mayor-0"]},{"@id":"selection-mayor-1","@type":"CVR.CandidateSelection","CandidateIds":["candidate-mayor-1"]}],"Name":"Mayor","VotesAllowed":1}],"ElectionScopeId":"scope","Name":"Town"}],"GeneratedDate":"2024-11-06T08:00:00Z","GpUnit":[{"@id":"scope","@type":"CVR.GpUnit","Name":"Town","Type":"other"},{"@id":"precinct-p","@type":"CVR.GpUnit","Name":"North","Type":"precinct"}],"ReportGeneratingDeviceIds":["device-00000000-0000-4000-8000-000000000001"],"ReportingDevice":[{"@id":"device-00000000-0000-4000-8000-000000000001","@type":"CVR.ReportingDevice"}],"Version":"1.0.0"}
"#;

fn answer(alloc: Global, bytes: &[u8]) -> Result<String, AllocError> {
    match read_report(alloc, bytes) {
        Ok(report) => {
            drop_report(report);
            String::from_str(alloc, "ok")
        }
        Err(fault) => format!(in alloc; "{fault}"),
    }
}

// One of many elements of a list, or of many characters.
fn piece(kind: char, index: u32) -> &'static str {
    match kind {
        'z' if index == 0 => "0",
        'z' => ",0",
        '[' => "[",
        ']' => "]",
        _ => "a",
    }
}

fn push_many(text: &mut String, token: &str) -> Result<(), AllocError> {
    let mut letters = token.chars();
    let Some(kind) = letters.next() else {
        return Ok(());
    };
    let count = letters.as_str().parse::<u32>().unwrap_or(0);
    for index in 0..count {
        text.push_str(piece(kind, index))?;
    }
    Ok(())
}

// The text, with `~a257~` for 257 times `a` and the like.
fn push_expanded(text: &mut String, from: &str) -> Result<(), AllocError> {
    let mut is_token = false;
    for part in from.split('~') {
        if is_token {
            push_many(text, part)?;
        } else {
            text.push_str(part)?;
        }
        is_token = !is_token;
    }
    Ok(())
}

// The valid report with another part in the place of one.
fn with_part(alloc: Global, old: &str, new: &str) -> Result<String, Fail> {
    let (front, back) = VALID.split_once(old).ok_or("the part is there")?;
    let mut text = String::from_str(alloc, front)?;
    push_expanded(&mut text, new)?;
    text.push_str(back)?;
    Ok(text)
}

// Whether a row's answer is the one that it names.
fn holds(alloc: Global, row: &str) -> Result<bool, Fail> {
    let (old, rest) = row.split_once(" -> ").ok_or("a row")?;
    let (new, wanted) = rest.split_once(" -> ").ok_or("a row")?;
    let text = with_part(alloc, old, new)?;
    Ok(answer(alloc, text.as_bytes())?.as_str() == wanted)
}

#[test]
fn each_rule_of_each_member(rt: HostRuntime) -> Result<(), Fail> {
    let mut count = 0u32;
    for row in ROWS.lines() {
        assert!(rt; holds(rt.alloc(), row)?, "{row}");
        count = count.saturating_add(1);
    }
    assert_eq!(rt; count, 95);
    Ok(())
}

// Bytes that are no report, and what is then answered.
const OTHERS: [(&[u8], &str); 5] = [
    (b"[]", "3 "),
    (b"7", "3 "),
    (b"{}", "2 GpUnit"),
    (b"", "1"),
    (b"{\"x\":\"\xff\"}", "1"),
];

fn assert_text<R: Abort>(rt: &R, found: &str, wanted: &str) {
    assert_eq!(rt; found, wanted);
}

// Bytes are answered so.
fn assert_answer<R: Abort>(
    rt: &R,
    alloc: Global,
    bytes: &[u8],
    wanted: &str,
) -> Result<(), AllocError> {
    let found = answer(alloc, bytes)?;
    assert_text(rt, found.as_str(), wanted);
    Ok(())
}

#[test]
fn other_values_are_refused(rt: HostRuntime) -> Result<(), Fail> {
    assert_answer(&rt, rt.alloc(), VALID.as_bytes(), "ok")?;
    for (bytes, wanted) in OTHERS {
        assert_answer(&rt, rt.alloc(), bytes, wanted)?;
    }
    Ok(())
}

// The report that a text is.
pub(crate) fn report_of(alloc: Global, text: &str) -> Result<Report, Fail>
    ensures { IfOk result (λ report. AreCountable report.records) }
{
    match read_report(alloc, text.as_bytes()) {
        Ok(report) => Ok(report),
        Err(_) => Err(Fail::from("no report")),
    }
}

// The lines of a contest and its selections.
fn push_contest(text: &mut String, contest: &ReportContest) -> Result<(), AllocError> {
    write!(text, "contest {}\n", contest.id.as_str())?;
    for id in contest.selections.as_slice() {
        write!(text, "selection {}\n", id.as_str())?;
    }
    Ok(())
}

// The ids and numbers of a report, one line for each unit, contest, selection, record and row.
fn told(alloc: Global, report: &Report) -> Result<String, AllocError> {
    let mut text = String::new(alloc);
    for unit in report.units.as_slice() {
        write!(text, "unit {}\n", unit.as_str())?;
    }
    for contest in report.contests.as_slice() {
        push_contest(&mut text, contest)?;
    }
    Ok(text)
}

// The first record is that of the worked report.
fn assert_record<R: Abort>(rt: &R, records: &[CvrRecord]) -> Result<(), Fail> {
    let record = records.first().ok_or("a record")?;
    assert_eq!(rt; (record.unique.as_str(), record.unit), ("b1-1", 1));
    let contest = record.contests.as_slice().first().ok_or("a contest")?;
    assert_eq!(rt; (contest.contest, contest.over, contest.under), (0, 0, 0));
    let row = contest.votes.as_slice().first().ok_or("a row")?;
    assert_eq!(rt; (row.selection, row.votes), (1, 1));
    Ok(())
}

// What the worked report tells.
const WORKED_TOLD: &str = "unit scope\nunit precinct-p\ncontest contest-mayor\n\
    selection selection-mayor-0\nselection selection-mayor-1\n";

// It is the worked report.
fn assert_worked<R: Abort>(rt: &R, alloc: Global, report: &Report) -> Result<(), Fail> {
    let found = told(alloc, report)?;
    assert_text(rt, found.as_str(), WORKED_TOLD);
    assert_eq!(rt; report.records.len(), 1);
    assert_record(rt, report.records.as_slice())
}

#[test]
fn the_worked_report_is_read(rt: HostRuntime) -> Result<(), Fail> {
    let report = report_of(rt.alloc(), WORKED)?;
    let done = assert_worked(&rt, rt.alloc(), &report);
    drop_report(report);
    done
}
