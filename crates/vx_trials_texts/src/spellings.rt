use std::alloc::Global;
use std::process::Abort;
use std::test::Fail;
use vx_base::OutOfMemory;
use vx_election::read_election;
use vx_events::{Decision, Event, Key, Options, WriteInName};
use vx_grid::{Kind, State, States};
use vx_json::Text;
use vx_records::{JournalFault, decode, encode, header, header_digest};
use vx_rules::{ContestMarks, ContestMarksList, SheetMarks};

/// A definition, whose SHA-256 another program gave.
const TOWN: &str =
    r#"{"title":"Town","date":"2024-11-05","districts":[{"id":"d","name":"Town"}],"precincts":[{"id":"p","name":"North"}],"contests":[{"id":"mayor","type":"candidate","districtId":"d","title":"Mayor","seats":1,"candidates":[{"id":"a","name":"Ada"},{"id":"b","name":"Bo"}]}],"ballotStyles":[{"id":"s","precincts":["p"],"districts":["d"]}]}"#;

const TOWN_HEADER: &str =
    "1 election 16cbf4c3a45dae96ed01a82ac6d66a24812b6309d97421e2dc4282725ade6e70";

fn key_of(alloc: Global, batch: &str, number: u32) -> Result<Key, OutOfMemory> {
    Ok(Key {
        batch: Text::from_str(alloc, batch)?,
        number,
    })
}

/// A sheet with one contest that has a marked, a marginal and a clear option.
fn sheet_of(alloc: Global, contest: u32) -> Result<SheetMarks, OutOfMemory> {
    let states = vec![in alloc; State::Marked, State::Marginal, State::Clear]?;
    let marks = ContestMarks {
        contest,
        states: States::from_vec(states),
    };
    Ok(SheetMarks {
        card: 12,
        front: 3,
        kind: Kind::Absentee,
        test: true,
        contests: ContestMarksList::from_vec(vec![in alloc; marks]?),
    })
}

/// A decision of station 7 on contest 4 of a sheet.
fn decided(alloc: Global, decision: Decision) -> Result<Event, OutOfMemory> {
    Ok(Event::Decide {
        station: 7,
        key: key_of(alloc, "A-1_b", 20)?,
        contest: 4,
        decision,
    })
}

#[test]
fn the_header_names_the_definition(rt: HostRuntime) -> Result<(), Fail> {
    let election = read_election(rt.alloc(), TOWN.as_bytes())?;
    let record = header(rt.alloc(), &election)?;
    assert_eq!(rt; record.as_slice(), TOWN_HEADER.as_bytes());
    Ok(())
}

/// An event is written so.
fn assert_spelled<R: AllocGlobal + Abort>(rt: &R, event: &Event, text: &str) -> Result<(), Fail> {
    let record = encode(rt.alloc(), event)?;
    assert_eq!(rt; record.as_slice(), text.as_bytes());
    Ok(())
}

fn added(alloc: Global) -> Result<Event, OutOfMemory> {
    Ok(Event::Add {
        key: key_of(alloc, "b1", 1)?,
        sheet: sheet_of(alloc, 0)?,
    })
}

fn claimed(alloc: Global) -> Result<Event, OutOfMemory> {
    Ok(Event::Claim {
        station: 7,
        key: key_of(alloc, "b1", 999_999)?,
    })
}

/// No option is selected.
fn deselected(alloc: Global) -> Result<Event, OutOfMemory> {
    decided(alloc, Decision::Selections(Options::new(alloc)))
}

/// A write-in slot is given a name.
fn named(alloc: Global) -> Result<Event, OutOfMemory> {
    let name = WriteInName::Words(Text::from_str(alloc, "Zo\u{eb} B")?);
    decided(alloc, Decision::NameWriteIn { slot: 2, name })
}

#[test]
fn events_have_their_spelling(rt: HostRuntime) -> Result<(), Fail> {
    let sheet = "1 add b1 1 12 3 test-absentee 0:mgc";
    assert_spelled(&rt, &added(rt.alloc())?, sheet)?;
    assert_spelled(&rt, &claimed(rt.alloc())?, "1 claim 7 b1 999999")?;
    assert_spelled(&rt, &deselected(rt.alloc())?, "1 select 7 A-1_b 20 4 -")?;
    let name = "1 name 7 A-1_b 20 4 2 text Zo\u{eb} B";
    assert_spelled(&rt, &named(rt.alloc())?, name)
}

/// Records of each kind, each of which is read and written again.
const RECORDS: [&str; 16] = [
    "1 add b1 1 0 1 precinct 0:cc",
    "1 add A-z_09 999999 1023 63 test-other",
    "1 add b 1 0 21 absentee 0:m 10:g 499:mgc",
    "1 add b 1 7 3 test-provisional 9:c 10:c 11:c",
    "1 claim 1 b1 1",
    "1 claim 9999 abcdefghijklmnopqrstuvwxyz012345 10",
    "1 release 70 b 20",
    "1 select 1 b 1 0 -",
    "1 select 1 b 1 499 0",
    "1 select 1 b 1 4 3,20,300,999",
    "1 overvote 1 b 1 4",
    "1 accept 1 b 1 4",
    "1 name 1 b 1 4 0 text ~",
    "1 name 1 b 1 4 999 text Zo\u{eb} \u{20ac}\u{d7ff}\u{e000} \u{10000}\u{10ffff}",
    "1 name 1 b 1 4 2 candidate 0",
    "1 name 1 b 1 4 2 candidate 999",
];

/// Bytes that are no record, and how many of them begin one.
const REFUSED: [(&[u8], u32); 42] = [
    (b"", 0),
    (b"2 claim 1 b 1", 0),
    (b"1 claim 01 b1 1", 8),
    (b"1 claim 0 b1 1", 8),
    (b"1 claim 10000 b1 1", 12),
    (b"1 claim 1 b1 1 ", 14),
    (b"1 claim 1  1", 10),
    (b"1 claim 1 b.c 1", 11),
    (b"1 claim 1 abcdefghijklmnopqrstuvwxyz0123456 1", 42),
    (b"1 claim 1 b 1000000", 18),
    (
        b"1 election 16cbf4c3a45dae96ed01a82ac6d66a24812b6309d97421e2dc4282725ade6e70",
        2,
    ),
    (b"1 accepted", 8),
    (b"1 adds", 5),
    (b"1 select 1 b 1 500 -", 17),
    (b"1 select 1 b 1 4 3,2", 20),
    (b"1 select 1 b 1 4 3,3,4", 20),
    (b"1 select 1 b 1 4 3,4,", 21),
    (b"1 select 1 b 1 4 30 31", 19),
    (b"1 select 1 b 1 4 999,", 20),
    (b"1 select 1 b 1 4 -,1", 18),
    (b"1 select 1 b 1 4 04", 18),
    (b"1 overvote 1 b 1 4 ", 18),
    (b"1 name 1 b 1 4 2 text ", 22),
    (b"1 name 1 b 1 4 2 text a\tb", 23),
    (b"1 name 1 b 1 4 2 text \x7f", 22),
    (b"1 name 1 b 1 4 2 text \xc3", 23),
    (b"1 name 1 b 1 4 2 text \xc3a", 23),
    (b"1 name 1 b 1 4 2 text \xc1\x80", 22),
    (b"1 name 1 b 1 4 2 text \xe0\x9f", 23),
    (b"1 name 1 b 1 4 2 text \xed\xa0\x80", 23),
    (b"1 name 1 b 1 4 2 text \xf4\x90", 23),
    (b"1 name 1 b 1 4 2 text \xf0\x90\x80\xc0", 25),
    (b"1 name 1 b 1 4 2 candidate 1000", 30),
    (b"1 name 1 b 1 4 2 word", 17),
    (b"1 add b 1 0 2 precinct", 13),
    (b"1 add b 1 0 8 precinct", 12),
    (b"1 add b 1 0 65 precinct", 13),
    (b"1 add b 1 1024 1 precinct", 13),
    (b"1 add b 1 0 1 precincts", 22),
    (b"1 add b 1 0 1 precinct 3:m 3:c", 28),
    (b"1 add b 1 0 1 precinct 499:m 5", 28),
    (b"1 add b 1 0 1 test-precinct 0:x", 30),
];

#[test]
fn records_are_read_and_written_again(rt: HostRuntime) -> Result<(), Fail> {
    for text in RECORDS {
        let event = decode(rt.alloc(), text.as_bytes(), 1)?;
        let again = encode(rt.alloc(), &event)?;
        assert_eq!(rt; again.as_slice(), text.as_bytes());
    }
    Ok(())
}

/// What is answered: how many bytes begin a record, or none where the bytes are one.
fn begun(alloc: Global, body: &[u8]) -> Option<JournalFault> {
    decode(alloc, body, 3).err()
}

#[test]
fn other_bytes_are_refused(rt: HostRuntime) -> Result<(), Fail> {
    for (body, at) in REFUSED {
        let fault = begun(rt.alloc(), body);
        assert_eq!(rt; fault, Some(JournalFault::BadRecord(3, at)), "{at}");
    }
    Ok(())
}

/// A text of so many bytes behind a name's words.
fn name_of(alloc: Global, words: usize) -> Result<Vec<u8>, OutOfMemory> {
    let mut text = Vec::from_slice(alloc, b"1 name 1 b 1 4 2 text ")?;
    for _word in 0..words {
        text.push(b'a')?;
    }
    Ok(text)
}

/// A name of so many bytes and those behind them has this fault.
fn assert_name<R: AllocGlobal + Abort>(
    rt: &R,
    words: usize,
    behind: &[u8],
    fault: Option<JournalFault>,
) -> Result<(), Fail> {
    let mut text = name_of(rt.alloc(), words)?;
    text.extend_from_slice(behind)?;
    assert_eq!(rt; begun(rt.alloc(), text.as_slice()), fault);
    Ok(())
}

#[test]
fn words_have_at_most_256_bytes(rt: HostRuntime) -> Result<(), Fail> {
    assert_name(&rt, 256, b"", None)?;
    assert_name(&rt, 257, b"", Some(JournalFault::BadRecord(3, 278)))?;
    let half = Some(JournalFault::BadRecord(3, 277));
    assert_name(&rt, 255, b"\xc3\xab", half)
}

/// An added sheet with 106 contests of 150 states and another with so many.
fn sheet_text(alloc: Global, last: usize) -> Result<String, OutOfMemory> {
    let mut text = String::from_str(alloc, "1 add b 1 0 1 precinct")?;
    for contest in 0..107u32 {
        write!(text, " {contest}:")?;
        let states = if contest < 106 { 150 } else { last };
        for _state in 0..states {
            text.push_str("c")?;
        }
    }
    Ok(text)
}

/// A sheet whose last contest has so many states, and what stands behind it, has this fault.
fn assert_sheet<R: AllocGlobal + Abort>(
    rt: &R,
    last: usize,
    behind: &str,
    fault: Option<JournalFault>,
) -> Result<(), Fail> {
    let mut text = sheet_text(rt.alloc(), last)?;
    text.push_str(behind)?;
    assert_eq!(rt; begun(rt.alloc(), text.as_bytes()), fault);
    Ok(())
}

#[test]
fn records_have_at_most_16384_bytes(rt: HostRuntime) -> Result<(), Fail> {
    assert!(rt; sheet_text(rt.alloc(), 37)?.len() == 16_384);
    assert_sheet(&rt, 37, "", None)?;
    assert_sheet(&rt, 38, "", Some(JournalFault::BadRecord(3, 16_384)))?;
    assert_sheet(&rt, 31, " 107:c", None)?;
    let cut = Some(JournalFault::BadRecord(3, 16_379));
    assert_sheet(&rt, 32, " 107:c", cut)
}

#[test]
fn headers_name_their_digest(rt: HostRuntime) -> Result<(), Fail> {
    let election = read_election(rt.alloc(), TOWN.as_bytes())?;
    let digest = header_digest(rt.alloc(), TOWN_HEADER.as_bytes())?;
    assert_eq!(rt; digest.as_slice(), election.digest.as_slice());
    for (end, at) in [(74, 74), (11, 11), (2, 2), (0, 0)] {
        let fault = header_digest(
            rt.alloc(),
            TOWN_HEADER.as_bytes().get(..end).unwrap_or(&[]),
        ).err();
        assert_eq!(rt; fault, Some(JournalFault::BadRecord(0, at)));
    }
    let fault = header_digest(rt.alloc(), b"1 election 16CBf4").err();
    assert_eq!(rt; fault, Some(JournalFault::BadRecord(0, 13)));
    Ok(())
}
