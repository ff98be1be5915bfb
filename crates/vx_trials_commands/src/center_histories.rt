//! What `center` does with a scan and two scripts: the history that it prints interleaves their three lists of
//! events, each reply is the machine's, what is done is kept, and the report is what `export` writes behind it.

use crate::centers::{DEVICE, MOMENT, ONE_SHEET, assert_left, center, files_of, make_scan};
use crate::devices::{Answer, Failing, Held, attempt};
use crate::trial_gates::TrialGate;
use std::alloc::{AllocError, Global};
use std::process::Abort;
use std::sync::Wait;
use std::test::Fail;
use std::thread::Threads;
use vx_center::{Center, Reply};
use vx_election::read_election;
use vx_io::Records;
use vx_records::decode;
use vx_town::{TOWN, TOWN_HEADER, records_of};

const WORDS: &[&str] = &[
    "center",
    "e",
    MOMENT,
    DEVICE,
    "scan:b1:a",
    "script:b",
    "script:c",
];

/// The events of the three items. No event stands in two of them.
const LISTS: [&[&str]; 3] = [
    &[
        "1 add b1 1 0 1 precinct 0:cc",
        "1 add b1 2 0 1 precinct 0:cc",
    ],
    &[
        "1 claim 1 b0 1",
        "1 select 1 b0 1 0 1",
        "1 release 1 b0 1",
        "1 claim 1 b1 2",
    ],
    &[
        "1 claim 2 b0 1",
        "1 accept 2 b0 1 0",
        "1 claim 2 b1 1",
        "1 release 2 b0 1",
    ],
];

/// The lines of the scan's other sheets.
const LINES: &str = "sheet b1 3 unread 5 1 FrameSize 8 1\nsheet b1 4 single\n";

/// The place, the reply and the record of a line of the history.
fn event_in(line: &str) -> Option<(&str, &str, &str)> {
    let (place, rest) = line.strip_prefix("event ")?.split_once(' ')?;
    let (reply, record) = rest.split_once(" : ")?;
    Some((place, reply, record))
}

/// Goes on in the list that has this record next, if one has.
fn is_next(record: &str, places: &mut [usize]) -> bool {
    for (number, list) in LISTS.iter().enumerate() {
        if let Some(place) = places.get_mut(number) {
            if list.get(*place).is_some_and(|next| *next == record) {
                *place = place.saturating_add(1);
                return true;
            }
        }
    }
    false
}

/// The machine's reply to the event of a record, if it fits.
fn reply_to(alloc: Global, machine: &mut Center<'_>, record: &str) -> Result<Option<Reply>, Fail> {
    let event = decode(alloc, record.as_bytes(), 0)?;
    if machine.fits(&event) {
        Ok(Some(machine.apply(alloc, &event)?))
    } else {
        Ok(None)
    }
}

/// The reply and the record of a line, which has the history's next place and an item's next event.
fn next_in<'x, R: AllocGlobal + Abort>(
    rt: &R,
    line: &'x str,
    number: u32,
    places: &mut [usize],
) -> Result<(&'x str, &'x str), Fail> {
    let (place, reply, record) = event_in(line).ok_or("no line of a history")?;
    assert_eq!(rt; place, format!(in rt.alloc(); "{number}")?.as_str());
    assert!(rt; is_next(record, places), "{line}");
    Ok((reply, record))
}

/// The machine replies so to a record. Answers whether it is done.
fn assert_reply<R: AllocGlobal + Abort>(
    rt: &R,
    machine: &mut Center<'_>,
    reply: &str,
    record: &str,
) -> Result<bool, Fail> {
    let expected = reply_to(rt.alloc(), machine, record)?.ok_or("it doesn't fit")?;
    assert_eq!(rt;
        reply,
        format!(in rt.alloc(); "{expected}")?.as_str(),
        "{record}"
    );
    Ok(expected == Reply::Done)
}

/// A line has the history's next place, an item's next event and the machine's reply. What is done is kept.
fn assert_event<R: AllocGlobal + Abort>(
    rt: &R,
    machine: &mut Center<'_>,
    line: &str,
    number: u32,
    places: &mut [usize],
    kept: &mut Records,
) -> Result<(), Fail> {
    let (reply, record) = next_in(rt, line, number, places)?;
    if assert_reply(rt, machine, reply, record)? {
        kept.push(record.as_bytes())?;
    }
    Ok(())
}

/// The lines of the history, as one text; they are the events of the items, to their ends.
fn history_by<R: AllocGlobal + Abort>(
    rt: &R,
    machine: &mut Center<'_>,
    text: &str,
    kept: &mut Records,
) -> Result<String, Fail> {
    let mut history = String::new(rt.alloc());
    let (mut number, mut places) = (0u32, [0usize; 3]);
    for line in text.lines() {
        if line.starts_with("event ") {
            assert_event(rt, machine, line, number, &mut places, kept)?;
            write!(history, "{line}\n")?;
            number = number.saturating_add(1);
        }
    }
    assert_eq!(rt; places, [2, 4, 4]);
    Ok(history)
}

/// The machine does the events behind the header.
fn assert_begun<R: AllocGlobal + Abort>(
    rt: &R,
    machine: &mut Center<'_>,
    before: &[&str],
) -> Result<(), Fail> {
    for record in before.iter().skip(1) {
        assert_eq!(rt; reply_to(rt.alloc(), machine, record)?, Some(Reply::Done));
    }
    Ok(())
}

/// The history in a text, by a machine that has done what stood before.
fn history_in<R: AllocGlobal + Abort>(
    rt: &R,
    before: &[&str],
    text: &str,
    kept: &mut Records,
) -> Result<String, Fail> {
    let election = read_election(rt.alloc(), TOWN.as_bytes())?;
    let mut machine = Center::new(rt.alloc(), &election);
    assert_begun(rt, &mut machine, before)?;
    history_by(rt, &mut machine, text, kept)
}

/// What `export` writes over records.
fn report_over<R: Threads + Sync + AllocGlobal>(
    rt: &R,
    files: &[(&str, &[u8])],
    records: &Records,
) -> Result<Vec<u8>, AllocError> {
    let words = ["export", "e", MOMENT, DEVICE];
    Ok(attempt(rt, Held { files, records }, &words, Failing::NONE)?.text)
}

/// Adds what stands behind the history.
fn push_report(expected: &mut String, report: &[u8]) -> Result<(), Fail> {
    let report = str::from_utf8(report)?;
    write!(expected, "{LINES}report\n{report}")?;
    Ok(())
}

/// What a `center` with this answer has to write: its history, the lines of the other sheets and the report.
fn text_of<R: Threads + Sync + AllocGlobal + Abort>(
    rt: &R,
    files: &[(&str, &[u8])],
    before: &[&str],
    answer: &Answer,
    kept: &mut Records,
) -> Result<String, Fail> {
    let text = str::from_utf8(answer.text.as_slice())?;
    let mut expected = history_in(rt, before, text, kept)?;
    let report = report_over(rt, files, &answer.records)?;
    push_report(&mut expected, report.as_slice())?;
    Ok(expected)
}

/// All that a `center` left is that text and the kept records.
fn assert_center<R: Threads + Sync + AllocGlobal + Abort>(
    rt: &R,
    files: &[(&str, &[u8])],
    before: &[&str],
    answer: &Answer,
) -> Result<(), Fail> {
    let begun: &[&str] = if before.is_empty() {
        &[TOWN_HEADER]
    } else {
        before
    };
    let mut kept = records_of(rt.alloc(), begun)?;
    let expected = text_of(rt, files, before, answer, &mut kept)?;
    assert_left(
        rt,
        answer,
        "ok",
        expected.as_bytes(),
        &kept,
        kept.len(),
        before,
    );
    Ok(())
}

/// All that a `center` through a gate left.
fn assert_through<R: Threads + Wait + Sync + AllocGlobal + Abort>(
    rt: &R,
    files: &[(&str, &[u8])],
    before: &[&str],
    gate: &TrialGate,
) -> Result<(), Fail> {
    let answer = center(rt, files, before, WORDS, Failing::NONE, gate)?;
    assert_center(rt, files, before, &answer)
}

#[test]
fn a_history_interleaves_a_scan_and_two_scripts(rt: HostRuntime) -> Result<(), Fail> {
    let scan = make_scan(&rt)?;
    let files = files_of(scan.as_slice(), b"");
    let journals: [&[&str]; 2] = [&[], ONE_SHEET];
    for before in journals {
        assert_through(&rt, &files, before, &TrialGate::open())?;
        assert_through(&rt, &files, before, &TrialGate::shut())?;
    }
    Ok(())
}
