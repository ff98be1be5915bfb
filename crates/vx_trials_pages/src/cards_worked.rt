//! Elections worked by hand, an input that isn't there, and devices that fail.

use std::alloc::{AllocError, Global};
use std::test::*;
use vx_base::{Bytes, ListOf};
use vx_command::{Halt, status_of};
use vx_command_cards::cards;
use vx_io::{MemInputs, MemSink, NamedBytes};

/// Two cards; names and a question with characters that the font hasn't, a title that is cut behind
/// `300,`, and two pairs of names that look alike, of which one has a blank at its end.
const TOWN: &str =
    r#"{"title":"T","date":"2025-05-06","districts":[{"id":"d","name":"D"}],"precincts":[{"id":"p","name":"North Side"},{"id":"q","name":"Süd"}],"contests":[{"id":"mayor","type":"candidate","districtId":"d","title":"Mayor","seats":1,"allowWriteIns":true,"candidates":[{"id":"a","name":"José"},{"id":"b","name":"Josü"},{"id":"c","name":"Ada"},{"id":"e","name":"Ada "}]},{"id":"bond","type":"yesno","districtId":"d","title":"Shall the village borrow 300,000 dollars","description":"Ö, Ä, Ö or 😀?"}],"ballotStyles":[{"id":"s","precincts":["p","q"],"districts":["d"]}]}"#;

const TOWN_TEXT: &str = "card 0 style s precinct p pages 2 contests 2 North Side
card 1 style s precinct q pages 2 contests 2 Süd
hollow * precinct q U+00FC
hollow mayor option a U+00E9
hollow mayor option b U+00FC
hollow bond description U+00D6 U+00C4 U+1F600
cut bond title 1 300, 000
alike mayor a b
alike mayor c e
cards 2 hollow 4 blank 0 cut 1 alike 2
";

/// One card, which can't be planned: a name has 59 characters, so three lines of which two are cut. The
/// title shows nothing.
const LONG: &str =
    r#"{"title":"\u007f","date":"2025-05-06","districts":[{"id":"d","name":"D"}],"precincts":[{"id":"p","name":"N"}],"contests":[{"id":"c","type":"candidate","districtId":"d","title":"Mayor","seats":1,"candidates":[{"id":"a","name":"xxxxxxxxxxxxxxxxxxxxxxxxxxxxxxxxxxxxxxxxxxxxxxxxxxxxxxxxxxx"}]}],"ballotStyles":[{"id":"s","precincts":["p"],"districts":["d"]}]}"#;

const LONG_TEXT: &str = "card 0 style s precinct p layout 2 c 59 contests 1 N
blank * title
cut c option a 1 xxxxxxxxxxxxxxxxxxxxxxxxxxxxx xxxxxxxxxxxxxxxxxxxxxxxxxxxxx
cut c option a 2 xxxxxxxxxxxxxxxxxxxxxxxxxxxxx x
cards 1 hollow 0 blank 1 cut 2 alike 0
";

/// An accented title, a precinct's name with a line feed, a backslash and two more control characters,
/// and one of blanks alone; a contest with a blank title and two blank names; a title whose word of
/// hollow characters is cut, a description whose cut word stands between control characters, and a name
/// with a control character at the end of its line, which is no cut.
const ODD: &str =
    r#"{"title":"Année","date":"2025-05-06","districts":[{"id":"d","name":"D"}],"precincts":[{"id":"p","name":"A\nB\\C\u007f\u0001é"},{"id":"q","name":" \t"}],"contests":[{"id":"c","type":"candidate","districtId":"d","title":" ","seats":1,"candidates":[{"id":"a","name":"\t\u007f"},{"id":"b","name":"Ada"},{"id":"e","name":" "}]},{"id":"bond","type":"yesno","districtId":"d","title":"éééééééééééééééééééééééééé üüüü","description":"Shall the village borrow\t300,000\u007fdollars","yesOption":{"label":"xxxxxxxxxxxxxxxxxxxxxxxxxxxx\u001fyyy"}}],"ballotStyles":[{"id":"s","precincts":["p","q"],"districts":["d"]}]}"#;

const ODD_TEXT: &str = r"card 0 style s precinct p pages 2 contests 2 A\u000aB\\C\u007f\u0001é
card 1 style s precinct q pages 2 contests 2  \u0009
hollow * title U+00E9
hollow * precinct p U+00E9
hollow bond title U+00E9 U+00FC
blank * precinct q
blank c title
blank c option a
blank c option e
cut bond title 1 üü üü
cut bond description 1 300, 000
alike c a e
cards 2 hollow 3 blank 4 cut 2 alike 1
";

/// What a `cards` answered, and what the sink had taken.
#[derive(Drop)]
struct Answer {
    status: String,
    text: Vec<u8>,
}

/// The definition as `E`, where these calls fail.
fn inputs_of(alloc: Global, definition: &str, reads: &[u64]) -> Result<MemInputs, AllocError> {
    let mut named = NamedBytes::new(alloc);
    named.push("E", Bytes::from_slice(alloc, definition.as_bytes())?)?;
    Ok(MemInputs::new(named, ListOf::from_vec(Vec::from_slice(alloc, reads)?)))
}

fn sink_of(alloc: Global, room: u64, writes: &[u64]) -> Result<MemSink, AllocError> {
    MemSink::new(
        alloc,
        room,
        ListOf::from_vec(Vec::from_slice(alloc, writes)?),
    )
}

/// How a `cards` ended.
fn told(alloc: Global, ended: Result<(), Halt>) -> Result<String, AllocError> {
    let status = status_of(ended);
    format!(in alloc; "{status}")
}

fn answer_of(alloc: Global, status: String, out: &MemSink) -> Result<Answer, AllocError> {
    let text = Vec::from_slice(alloc, out.held())?;
    Ok(Answer { status, text })
}

/// Does `cards` of the definition that is held as `E`, where these calls of the inputs and of the sink
/// fail, from 1 on, and the sink has room for so many bytes.
fn attempt(
    alloc: Global,
    name: &str,
    definition: &str,
    reads: &[u64],
    writes: &[u64],
    room: u64,
) -> Result<Answer, AllocError> {
    let mut inputs = inputs_of(alloc, definition, reads)?;
    let mut out = sink_of(alloc, room, writes)?;
    let status = told(alloc, cards(alloc, name, &mut inputs, &mut out))?;
    answer_of(alloc, status, &out)
}

/// Whether an answer is this status with this text.
fn is_answer(answer: &Answer, status: &str, text: &str) -> bool {
    answer.status.as_str() == status && answer.text.as_slice() == text.as_bytes()
}

#[test]
fn worked_elections_are_told(rt: HostRuntime) -> Result<(), Fail> {
    for (name, definition, status, text) in [
        ("E", TOWN, "ok", TOWN_TEXT),
        ("E", LONG, "ok", LONG_TEXT),
        ("E", ODD, "ok", ODD_TEXT),
        ("F", TOWN, "no input 1", ""),
        ("E", "{}", "election 2 title", ""),
    ] {
        let answer = attempt(rt.alloc(), name, definition, &[], &[], 100_000)?;
        assert!(rt; is_answer(&answer, status, text), "{status}");
    }
    Ok(())
}

/// The calls that fail, the sink's room, the status and the text: each call of the inputs and of the
/// sink in turn, and the one behind the last.
const FAILS: [(&[u64], &[u64], u64, &str, &str); 6] = [
    (&[1], &[], 1000, "read fault", ""),
    (&[2], &[], 1000, "read fault", ""),
    (&[3], &[], 1000, "ok", LONG_TEXT),
    (&[], &[1], 1000, "write fault", ""),
    (&[], &[2], 1000, "ok", LONG_TEXT),
    (&[], &[], 4, "write fault", "card"),
];

#[test]
fn failing_devices_are_told(rt: HostRuntime) -> Result<(), Fail> {
    for (reads, writes, room, status, text) in FAILS {
        let answer = attempt(rt.alloc(), "E", LONG, reads, writes, room)?;
        assert!(rt; is_answer(&answer, status, text), "{status}");
    }
    Ok(())
}
