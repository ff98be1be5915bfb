//! Records and headers beside the second grammar: all their fronts, and all changes of one byte.

use crate::grammar::{longest_front, longest_header_front, record_words, say_event, says_digest};
use std::alloc::Global;
use std::process::Abort;
use std::test::Fail;
use vx_records::{JournalFault, decode, header_digest};

const ADDS: [&str; 12] = [
    "1 add b1 1 0 1 precinct 0:cc",
    "1 add A-z_09 999999 1023 63 test-other",
    "1 add b 1 0 21 absentee 0:m 10:g 499:mgc",
    "1 add b 1 7 3 test-provisional 9:c 10:c 11:c",
    "1 add abcdefghijklmnopqrstuvwxyz01234 12 3 5 other 49:m",
    "1 add - 70 102 9 test-precinct 7:gg",
    "1 add B_ 100000 99 61 provisional 498:mmm",
    "1 add Z 9 1000 7 test-absentee",
    "1 add 0 10 10 11 precinct 1:c 2:g 3:m",
    "1 add b2 2 20 59 absentee 50:mc 51:c",
    "1 add c 3 0 1 precinct 12:ccccc 120:m",
    "1 add d 4 101 31 provisional 99:m 100:m",
];

const CLAIMS: [&str; 12] = [
    "1 claim 1 b1 1",
    "1 claim 9999 abcdefghijklmnopqrstuvwxyz012345 10",
    "1 claim 10 - 999999",
    "1 claim 2 A 2",
    "1 claim 99 _ 100",
    "1 claim 100 b 99",
    "1 claim 999 Zz 12345",
    "1 claim 1000 0 9",
    "1 claim 5 b1-b2 50",
    "1 claim 55 x 500000",
    "1 claim 7000 y 70",
    "1 claim 12 b 1000",
];

const RELEASES: [&str; 12] = [
    "1 release 70 b 20",
    "1 release 1 b1 1",
    "1 release 9999 abcdefghijklmnopqrstuvwxyz012345 10",
    "1 release 10 - 999999",
    "1 release 2 A 2",
    "1 release 99 _ 100",
    "1 release 100 b 99",
    "1 release 999 Zz 12345",
    "1 release 1000 0 9",
    "1 release 5 b1-b2 50",
    "1 release 55 x 500000",
    "1 release 7000 y 70",
];

const SELECTIONS: [&str; 12] = [
    "1 select 1 b 1 0 -",
    "1 select 1 b 1 499 0",
    "1 select 1 b 1 4 3,20,300,999",
    "1 select 9 b 7 49 0,1,2",
    "1 select 90 bb 70 50 9,10",
    "1 select 900 - 700 5 99,100",
    "1 select 9000 A 7000 10 998,999",
    "1 select 2 b 1 1 1",
    "1 select 3 b 1 99 10",
    "1 select 4 b 1 100 100",
    "1 select 5 b 1 0 0,999",
    "1 select 6 b1 12 12 1,12,123",
];

const RULINGS: [&str; 12] = [
    "1 overvote 1 b 1 4",
    "1 overvote 9999 B-1 999999 499",
    "1 overvote 12 _ 3 0",
    "1 overvote 100 a 10 49",
    "1 overvote 2 b 20 50",
    "1 overvote 30 c 4 100",
    "1 accept 1 b 1 4",
    "1 accept 9999 B-1 999999 499",
    "1 accept 12 _ 3 0",
    "1 accept 100 a 10 49",
    "1 accept 2 b 20 50",
    "1 accept 30 c 4 100",
];

const NAMES: [&str; 12] = [
    "1 name 1 b 1 4 0 text ~",
    "1 name 1 b 1 4 9 text Zo\u{eb} \u{20ac}",
    "1 name 1 b 1 4 99 text \u{d7ff}\u{e000}",
    "1 name 1 b 1 4 999 text \u{10000}\u{10ffff}",
    "1 name 2 c 3 499 10 text a  b ",
    "1 name 2 c 3 0 100 text  text",
    "1 name 9999 A_ 5 49 1 text \u{800}\u{fff}\u{1000}",
    "1 name 1 b 1 4 2 text \u{80}\u{7ff}",
    "1 name 1 b 1 4 2 text \u{40000}",
    "1 name 1 b 1 4 2 text 1 add b 1",
    "1 name 1 b 1 4 2 text \u{ffff}",
    "1 name 1 b 1 4 2 text candidate 0",
];

const CANDIDATES: [&str; 12] = [
    "1 name 1 b 1 4 2 candidate 0",
    "1 name 1 b 1 4 2 candidate 999",
    "1 name 9999 b1 999999 499 999 candidate 10",
    "1 name 12 _ 3 0 0 candidate 99",
    "1 name 100 a 10 49 49 candidate 1",
    "1 name 2 b 20 50 100 candidate 100",
    "1 name 30 c 4 100 5 candidate 50",
    "1 name 3 - 40 10 50 candidate 9",
    "1 name 4 A 5 11 90 candidate 90",
    "1 name 5 B 6 12 9 candidate 900",
    "1 name 6 C 7 13 19 candidate 7",
    "1 name 7 D 8 14 98 candidate 12",
];

const HEADERS: [&str; 12] = [
    "1 election 0000000000000000000000000000000000000000000000000000000000000000",
    "1 election ffffffffffffffffffffffffffffffffffffffffffffffffffffffffffffffff",
    "1 election 0123456789abcdef0123456789abcdef0123456789abcdef0123456789abcdef",
    "1 election fedcba9876543210fedcba9876543210fedcba9876543210fedcba9876543210",
    "1 election e3b0c44298fc1c149afbf4c8996fb92427ae41e4649b934ca495991b7852b855",
    "1 election ba7816bf8f01cfea414140de5dae2223b00361a396177a9cb410ff61f20015ad",
    "1 election 9999999999999999999999999999999999999999999999999999999999999999",
    "1 election aaaaaaaaaaaaaaaaaaaaaaaaaaaaaaaaaaaaaaaaaaaaaaaaaaaaaaaaaaaaaaaa",
    "1 election 00000000000000000000000000000000000000000000000000000000000000ff",
    "1 election 0f0f0f0f0f0f0f0f0f0f0f0f0f0f0f0ff0f0f0f0f0f0f0f0f0f0f0f0f0f0f0f0",
    "1 election a1b2c3d4e5f60718293a4b5c6d7e8f90a1b2c3d4e5f60718293a4b5c6d7e8f90",
    "1 election 8000000000000000000000000000000000000000000000000000000000000001",
];

/// What bytes are read as: an event's record, or a journal's first one.
#[derive(Clone, Copy)]
enum Sort {
    Event,
    Header,
}

/// Whether bytes are read as an event as the second grammar reads them, of which so many begin a record.
fn is_event_alike(alloc: Global, body: &[u8], known: usize) -> Result<bool, Fail> {
    let read = decode(alloc, body, 7);
    match (record_words(alloc, body)?, read) {
        (Some(words), Ok(event)) => Ok(say_event(alloc, words.as_slice(), &event)?),
        (None, Err(JournalFault::BadRecord(7, at))) => {
            Ok(at == longest_front(alloc, body, known)?)
        }
        _ => Ok(false),
    }
}

/// Whether bytes are read as a header as the second grammar reads them.
fn is_header_alike(alloc: Global, body: &[u8]) -> Result<bool, Fail> {
    let longest = longest_header_front(body);
    match header_digest(alloc, body) {
        Ok(digest) => Ok(longest == 75 && says_digest(body, digest.as_slice())),
        Err(JournalFault::BadRecord(0, at)) => {
            Ok(at == longest && (longest < 75 || body.len() > 75))
        }
        Err(_) => Ok(false),
    }
}

/// Whether bytes are read as the second grammar reads them, of which so many begin a record.
fn is_read_alike(alloc: Global, sort: Sort, body: &[u8], known: usize) -> Result<bool, Fail> {
    match sort {
        Sort::Event => is_event_alike(alloc, body, known),
        Sort::Header => is_header_alike(alloc, body),
    }
}

/// Compares all fronts of a record, from none of it to all of it.
fn compare_fronts<R: Abort + AllocGlobal>(rt: &R, sort: Sort, body: &[u8]) -> Result<(), Fail> {
    for end in 0..body.len() {
        let front = body.get(..end).unwrap_or(&[]);
        assert!(rt; is_read_alike(rt.alloc(), sort, front, 0)?, "{front:?}");
    }
    assert!(rt; is_read_alike(rt.alloc(), sort, body, 0)?, "{body:?}");
    Ok(())
}

/// Compares a record with each byte in the place of one.
fn compare_changes<R: Abort + AllocGlobal>(
    rt: &R,
    sort: Sort,
    body: &mut Vec<u8>,
    place: usize,
) -> Result<(), Fail> {
    let Some(own) = body.as_slice().get(place).copied() else {
        return Ok(());
    };
    for other in 0..=255u8 {
        if let Some(byte) = body.get_mut(place) {
            *byte = other;
        }
        assert!(rt;
            is_read_alike(rt.alloc(), sort, body.as_slice(), place)?,
            "{body:?}"
        );
    }
    if let Some(byte) = body.get_mut(place) {
        *byte = own;
    }
    Ok(())
}

/// Compares records, their fronts, their changes, and what comes of one byte more.
fn compare_all<R: Abort + AllocGlobal>(rt: &R, sort: Sort, records: &[&str]) -> Result<(), Fail> {
    for record in records {
        let mut body = Vec::from_slice(rt.alloc(), record.as_bytes())?;
        compare_fronts(rt, sort, body.as_slice())?;
        let size = body.len();
        for place in 0..size {
            compare_changes(rt, sort, &mut body, place)?;
        }
        body.push(b' ')?;
        compare_changes(rt, sort, &mut body, size)?;
    }
    Ok(())
}

#[test]
fn adds_are_read_alike(rt: HostRuntime) -> Result<(), Fail> {
    compare_all(&rt, Sort::Event, &ADDS)
}

#[test]
fn claims_are_read_alike(rt: HostRuntime) -> Result<(), Fail> {
    compare_all(&rt, Sort::Event, &CLAIMS)
}

#[test]
fn releases_are_read_alike(rt: HostRuntime) -> Result<(), Fail> {
    compare_all(&rt, Sort::Event, &RELEASES)
}

#[test]
fn selections_are_read_alike(rt: HostRuntime) -> Result<(), Fail> {
    compare_all(&rt, Sort::Event, &SELECTIONS)
}

#[test]
fn rulings_are_read_alike(rt: HostRuntime) -> Result<(), Fail> {
    compare_all(&rt, Sort::Event, &RULINGS)
}

#[test]
fn names_are_read_alike(rt: HostRuntime) -> Result<(), Fail> {
    compare_all(&rt, Sort::Event, &NAMES)
}

#[test]
fn candidates_are_read_alike(rt: HostRuntime) -> Result<(), Fail> {
    compare_all(&rt, Sort::Event, &CANDIDATES)
}

#[test]
fn headers_are_read_alike(rt: HostRuntime) -> Result<(), Fail> {
    compare_all(&rt, Sort::Header, &HEADERS)
}
