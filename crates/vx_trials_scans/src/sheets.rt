//! Sheets of an election of two cards, whose pages belong together or don't, and lie as they are printed or upside
//! down.

use crate::pages::{HEADER, PAGE, both_pages, inputs_of, names_of, raster_of, sink_of};
use std::alloc::{AllocError, Global};
use std::process::Abort;
use std::test::Fail;
use std::thread::Threads;
use vx_command::status_of;
use vx_command_count::count;
use vx_io::{KeeperCalls, MemInputs, MemKeeper, MemSink, Records};
use vx_town::records_of;
use vx_workers::OpenGate;

/// The town with two precincts, so with two cards.
const TWO_CARDS: &str =
    r#"{"title":"Town","date":"2024-11-05","districts":[{"id":"d","name":"Town"}],"precincts":[{"id":"p","name":"North"},{"id":"q","name":"South"}],"contests":[{"id":"mayor","type":"candidate","districtId":"d","title":"Mayor","seats":1,"candidates":[{"id":"a","name":"Ada"},{"id":"b","name":"Bo"}]}],"ballotStyles":[{"id":"s","precincts":["p","q"],"districts":["d"]}]}"#;

/// The first record of its journal, with the digest of its definition as `sha256sum` tells it.
const BEGUN: &str = "1 election d7225fe95edfeecbbeff0a9abe50fc2ce302f7d3c53b5ddadcd3d134183aac7a";

/// The record of a blank sheet.
const BLANK: &str = "1 add b1 1 0 1 precinct 0:cc";

/// What a count of one blank sheet writes.
const ADDED: &str =
    "sheet b1 1 added card 0 pages 1 2\nreason b1 1 mayor BlankBallot\ncounted 1 added 0 repeated 0 unread\n";

/// What a count of a front and a back of two cards writes.
const UNPAIRED: &str =
    "sheet b1 1 unpaired 1 CardsDiffer 0 1\ncounted 0 added 0 repeated 1 unread\n";

/// A scanned page: the card, whether it is its back, and whether it lies upside down.
#[derive(Clone, Copy)]
struct Scanned {
    card: u32,
    is_back: bool,
    is_over: bool,
}

const FRONT: Scanned = Scanned {
    card: 0,
    is_back: false,
    is_over: false,
};

const BACK: Scanned = Scanned {
    card: 0,
    is_back: true,
    is_over: false,
};

const FRONT_OVER: Scanned = Scanned {
    card: 0,
    is_back: false,
    is_over: true,
};

const BACK_OVER: Scanned = Scanned {
    card: 0,
    is_back: true,
    is_over: true,
};

const OTHER_BACK: Scanned = Scanned {
    card: 1,
    is_back: true,
    is_over: false,
};

/// Two scanned pages, what their count writes, and the journal behind it.
const ROWS: [(Scanned, Scanned, &str, &[&str]); 5] = [
    (FRONT, OTHER_BACK, UNPAIRED, &[BEGUN]),
    (BACK, FRONT, ADDED, &[BEGUN, BLANK]),
    (FRONT, BACK_OVER, ADDED, &[BEGUN, BLANK]),
    (BACK_OVER, FRONT, ADDED, &[BEGUN, BLANK]),
    (FRONT_OVER, BACK_OVER, ADDED, &[BEGUN, BLANK]),
];

/// Adds a page that is turned by 180 degrees. The four unused bits of each row are light pixels then, on its left.
fn push_turned(scan: &mut Vec<u8>, page: &[u8]) -> Result<(), AllocError> {
    scan.extend_from_slice(b"P4\n1704 2200\n")?;
    for byte in raster_of(page).iter().rev() {
        scan.push(byte.reverse_bits())?;
    }
    Ok(())
}

/// Adds a scanned page.
fn push_scanned(alloc: Global, scan: &mut Vec<u8>, scanned: Scanned) -> Result<(), Fail> {
    let pages = both_pages(alloc, TWO_CARDS, scanned.card)?;
    let (front, back) = pages.as_slice().split_at_checked(PAGE).ok_or("short")?;
    let page = if scanned.is_back { back } else { front };
    if scanned.is_over {
        push_turned(scan, page)?;
    } else {
        scan.extend_from_slice(page)?;
    }
    Ok(())
}

/// Counts the scan, and answers the status, as the program says it.
fn count_into<R: Threads + Sync>(
    rt: &R,
    alloc: Global,
    inputs: &mut MemInputs,
    out: &mut MemSink,
    keeper: &mut MemKeeper,
) -> Result<String, Fail> {
    let scans = names_of(alloc)?;
    if scans.len() > 64 {
        return Ok(String::new(alloc));
    }
    let answer = count(
        rt, alloc, "e", "b1", 1, &scans, inputs, out, keeper, &OpenGate,
    );
    Ok(format!(in alloc; "{}", status_of(answer))?)
}

/// Adds bytes as characters.
fn push_bytes(text: &mut String, bytes: &[u8]) -> Result<(), AllocError> {
    for byte in bytes {
        text.push(char::from(*byte))?;
    }
    Ok(())
}

/// A text, a status and records as one text.
fn told(alloc: Global, text: &[u8], status: &str, records: &Records) -> Result<String, AllocError> {
    let mut told = String::new(alloc);
    push_bytes(&mut told, text)?;
    told.push_str(status)?;
    for index in 0..records.len() {
        told.push('\n')?;
        push_bytes(&mut told, records.record(index).as_slice())?;
    }
    Ok(told)
}

/// What a count of a scan over an empty journal writes, how it ends, and the journal behind it, as one text.
fn counted<R: Threads + Sync>(rt: &R, alloc: Global, scan: &[u8]) -> Result<String, Fail> {
    let mut inputs = inputs_of(alloc, TWO_CARDS, scan)?;
    let mut out = sink_of(alloc)?;
    let mut keeper = MemKeeper::new(Records::new(alloc), KeeperCalls::new(alloc));
    let status = count_into(rt, alloc, &mut inputs, &mut out, &mut keeper)?;
    Ok(told(alloc, out.held(), status.as_str(), keeper.records())?)
}

/// A count of two scanned pages is as its row says.
fn assert_counted<R: Threads + Sync + AllocGlobal + Abort>(
    rt: &R,
    first: Scanned,
    second: Scanned,
    text: &str,
    after: &[&str],
) -> Result<(), Fail> {
    let mut scan = Vec::new(rt.alloc());
    push_scanned(rt.alloc(), &mut scan, first)?;
    push_scanned(rt.alloc(), &mut scan, second)?;
    let found = counted(rt, rt.alloc(), scan.as_slice())?;
    assert_told(rt, found.as_str(), text, after)
}

/// A count came to this text and this journal, and ended well.
fn assert_told<R: AllocGlobal + Abort>(
    rt: &R,
    found: &str,
    text: &str,
    after: &[&str],
) -> Result<(), Fail> {
    let records = records_of(rt.alloc(), after)?;
    let wanted = told(rt.alloc(), text.as_bytes(), "ok", &records)?;
    assert_eq!(rt; found, wanted.as_str());
    Ok(())
}

#[test]
fn pages_are_counted_as_one_sheet_or_none(rt: HostRuntime) -> Result<(), Fail> {
    for (first, second, text, after) in ROWS {
        assert_counted(&rt, first, second, text, after)?;
    }
    Ok(())
}
