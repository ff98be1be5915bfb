//! Commands over devices in memory: what they write, and what stands where a device fails.

use std::alloc::{AllocError, Global};
use std::process::Abort;
use std::test::Fail;
use std::thread::Threads;
use vx_app::run;
use vx_base::Bytes;
use vx_io::{Calls, KeeperCalls, MemInputs, MemKeeper, MemSink, NamedBytes, Records, Words};
use vx_town::{BORDER, HeardInputs, TOWN, on_legal, words_of};

/// How many bytes a printed page has.
const PAGE: u64 = 468_613;

/// How many bytes both pages of the town's card have.
const WHOLE: u64 = 937_226;

/// How many bytes a page on legal paper has.
const LEGAL_PAGE: usize = 596_413;

/// The words that print the town's card.
const PRINT: &[&str] = &["print", "e", "0", "precinct"];

/// A light image of 8 by 1 pixels.
const SMALL: &[u8] = b"P4\n8 1\n\0";

/// What a command answered, as the program says it, and what the sink had taken.
#[derive(Drop)]
struct Answer {
    status: String,
    text: Vec<u8>,
}

/// Inputs of a few bytes: an election that is refused, a small scan, none, and bitmaps that leave their
/// grammar, each with a cause of its own, or with an image before it.
const FEW: [(&str, &[u8]); 13] = [
    ("b", b"[]"),
    ("t", SMALL),
    ("none", b""),
    ("p", b"P"),
    ("header", b"P4"),
    ("zero", b"P4 0 5"),
    ("wide", b"P4 4097 10\n"),
    ("tall", b"P4 1 4097\n"),
    ("cut", b"P4 8 1\n"),
    ("two", b"P1 2 1 12"),
    ("plain", b"P1 1 1 1 1"),
    ("behind", b"P1 1 1 11"),
    ("second", b"P4 8 1\n\xffx"),
];

/// The town's definition with a name that is too long for its row.
fn long_named(alloc: Global) -> Result<String, Fail> {
    let (front, behind) = TOWN.split_once("Ada").ok_or("no such name")?;
    let name = "Maximilian Alexander of the Long Street by the Old Town Gat";
    Ok(format!(in alloc; "{front}{name}{behind}")?)
}

/// Adds a file.
fn push_file(
    alloc: Global,
    files: &mut NamedBytes,
    name: &str,
    bytes: &[u8],
) -> Result<(), AllocError> {
    let bytes = Bytes::from_slice(alloc, bytes)?;
    Ok(files.push(name, bytes)?)
}

/// Adds the town's election as `e`, on legal paper as `l`, with a name that is too long as `w`.
fn push_elections(alloc: Global, files: &mut NamedBytes) -> Result<(), Fail> {
    push_file(alloc, files, "e", TOWN.as_bytes())?;
    let legal = on_legal(alloc, TOWN)?;
    push_file(alloc, files, "l", legal.as_bytes())?;
    let long = long_named(alloc)?;
    Ok(push_file(alloc, files, "w", long.as_bytes())?)
}

/// The files of a command: elections, inputs of a few bytes, one scan as `s`, and it without its last
/// byte as `c`.
fn files_with<R: AllocGlobal>(rt: &R, scan: &[u8]) -> Result<NamedBytes, Fail> {
    let alloc = rt.alloc();
    let mut files = NamedBytes::new(alloc);
    push_elections(alloc, &mut files)?;
    for (name, bytes) in FEW {
        push_file(alloc, &mut files, name, bytes)?;
    }
    push_file(alloc, &mut files, "s", scan)?;
    let cut = scan.get(..scan.len().saturating_sub(1)).unwrap_or(scan);
    push_file(alloc, &mut files, "c", cut)?;
    Ok(files)
}

/// The devices of a command.
#[derive(Drop)]
struct Devices {
    inputs: HeardInputs,
    out: MemSink,
    keeper: MemKeeper,
}

/// Inputs over a scan, of which the listed calls fail.
fn inputs_with<R: AllocGlobal>(rt: &R, scan: &[u8], fails: &[u64]) -> Result<HeardInputs, Fail> {
    let fails = Calls::from_vec(Vec::from_slice(rt.alloc(), fails)?);
    let inputs = MemInputs::new(files_with(rt, scan)?, fails);
    Ok(HeardInputs::new(rt.alloc(), inputs))
}

/// A sink with so much room, of which the listed calls fail.
fn sink_of(alloc: Global, room: u64, fails: &[u64]) -> Result<MemSink, AllocError> {
    let fails = Calls::from_vec(Vec::from_slice(alloc, fails)?);
    MemSink::new(alloc, room, fails)
}

/// Devices over a scan, of which the listed calls fail.
fn devices_of<R: AllocGlobal>(
    rt: &R,
    scan: &[u8],
    read_fails: &[u64],
    write_fails: &[u64],
    room: u64,
) -> Result<Devices, Fail> {
    let alloc = rt.alloc();
    Ok(Devices {
        inputs: inputs_with(rt, scan, read_fails)?,
        out: sink_of(alloc, room, write_fails)?,
        keeper: MemKeeper::new(Records::new(alloc), KeeperCalls::new(alloc)),
    })
}

/// What a command answered that ended so.
fn answer_of(alloc: Global, status: String, out: &MemSink) -> Result<Answer, AllocError> {
    let text = Vec::from_slice(alloc, out.held())?;
    Ok(Answer { status, text })
}

/// Runs a command over devices, and answers its status, as the program says it.
fn status_of<R: Threads + Sync + AllocGlobal>(
    rt: &R,
    words: &Words,
    devices: &mut Devices,
) -> Result<String, AllocError> {
    let Devices {
        inputs,
        out,
        keeper,
    } = devices;
    let status = run(rt, rt.alloc(), words, inputs, out, keeper);
    format!(in rt.alloc(); "{status}")
}

/// Runs a command over devices.
fn answer_over<R: Threads + Sync + AllocGlobal>(
    rt: &R,
    line: &[&str],
    devices: &mut Devices,
) -> Result<Answer, AllocError> {
    let words = words_of(rt.alloc(), line)?;
    let status = status_of(rt, &words, devices)?;
    answer_of(rt.alloc(), status, &devices.out)
}

/// Runs a command over a scan, while the listed calls fail.
fn attempt<R: Threads + Sync + AllocGlobal>(
    rt: &R,
    scan: &[u8],
    line: &[&str],
    read_fails: &[u64],
    write_fails: &[u64],
    room: u64,
) -> Result<Answer, Fail> {
    let mut devices = devices_of(rt, scan, read_fails, write_fails, room)?;
    Ok(answer_over(rt, line, &mut devices)?)
}

/// What `print` writes of the town.
fn printed<R: Threads + Sync + AllocGlobal>(rt: &R) -> Result<Vec<u8>, Fail> {
    Ok(attempt(rt, &[], PRINT, &[], &[], WHOLE)?.text)
}

/// Whether a pixel of the first page is dark. The raster begins at byte 13 and has 213 bytes a row.
fn is_dark(text: &[u8], x: u16, y: u16) -> bool {
    match text.get(13 + 213 * usize::from(y) + usize::from(x / 8)) {
        Some(byte) => (*byte >> (7 - x % 8)) & 1 == 1,
        None => false,
    }
}

#[test]
fn the_town_s_card_is_printed(rt: HostRuntime) -> Result<(), Fail> {
    let text = printed(&rt)?;
    assert_eq!(rt; text.len() as u64, WHOLE);
    assert!(rt; text.as_slice().starts_with(b"P4\n1700 2200\n"));
    // A mark's corner, the corners of the first bubble's outline, a dot of the title, a code box; and
    // what is light beside them.
    for (x, y, dark) in [
        (40, 54, true),
        (75, 65, true),
        (245, 463, true),
        (254, 463, true),
        (290, 354, true),
        (188, 1870, true),
        (39, 54, false),
        (76, 65, false),
        (244, 463, false),
        (250, 476, false),
        (292, 354, false),
        (236, 1870, false),
    ] {
        assert!(rt; is_dark(text.as_slice(), x, y) == dark, "{x} {y}");
    }
    Ok(())
}

#[test]
fn the_town_s_card_is_printed_on_legal_paper(rt: HostRuntime) -> Result<(), Fail> {
    let line: &[&str] = &["print", "l", "0", "precinct"];
    let answer = attempt(&rt, &[], line, &[], &[], 2 * LEGAL_PAGE as u64)?;
    let text = answer.text.as_slice();
    let second = text.get(LEGAL_PAGE..).ok_or("one page")?;
    assert_eq!(rt; text.len(), 2 * LEGAL_PAGE);
    assert!(rt; text.starts_with(b"P4\n1700 2800\n"));
    assert!(rt; second.starts_with(b"P4\n1700 2800\n"));
    // Corners of the first and the last mark, of the first bubble's outline, a dot of the title, code
    // boxes; and what is light beside them.
    for (x, y, dark) in [
        (40, 68, true),
        (1659, 2731, true),
        (245, 477, true),
        (290, 368, true),
        (188, 2456, true),
        (332, 2456, true),
        (39, 68, false),
        (1660, 2731, false),
        (244, 477, false),
        (292, 368, false),
        (236, 2456, false),
        (284, 2456, false),
    ] {
        assert!(rt; is_dark(text, x, y) == dark, "{x} {y}");
    }
    Ok(())
}

/// Lines that are no command.
const USAGE: [&[&str]; 21] = [
    &[],
    &["print"],
    &["print", "e", "0", "precinct", "more"],
    &["", "e", "0", "precinct"],
    &["print", "", "0", "precinct"],
    &["-x", "e", "0", "precinct"],
    &["print", "-x", "0", "precinct"],
    &["print", "e", "-x", "precinct"],
    &["print", "e", "0", "-x"],
    &["print", "e", "00", "precinct"],
    &["print", "e", "1024", "precinct"],
    &["print", "e", "+1", "precinct"],
    &["print", "e", "0", "other"],
    &["print", "e", "0", "Precinct"],
    &["print", "e", "0", "test-test-precinct"],
    &["center", "e", "0", "precinct"],
    &["read"],
    &["read", "e"],
    &["read", "e", ""],
    &["read", "-e", "s"],
    &["read", "e", "s", "-t"],
];

/// The words of an export of an election that isn't there, and of one that is refused.
const EXPORT_OF_NONE: &[&str] = &[
    "export",
    "f",
    "2024-11-06T08:00:00Z",
    "00000000-0000-4000-8000-000000000001",
];

const EXPORT_OF_REFUSED: &[&str] = &[
    "export",
    "b",
    "2024-11-06T08:00:00Z",
    "00000000-0000-4000-8000-000000000001",
];

/// What `read` writes of an image that is too small for a page.
const DOT: &str = "page 1 fault 1 FrameSize 1 1\n";

const SPECK: &str = "page 1 fault 1 FrameSize 8 1\n";

/// What `count` writes of a sheet whose first image is too small.
const UNREAD: &str = "sheet b1 1 unread 1 1 FrameSize 8 1\n";

/// Commands on inputs of a few bytes, with the status that each ends with and what it has written.
const EARLY: [(&[&str], &str, &str); 49] = [
    // Nothing has the election's name, or it is refused.
    (&["print", "f", "0", "precinct"], "no input 1", ""),
    (&["read", "f", "s"], "no input 1", ""),
    (&["check", "f", "s", "t"], "no input 1", ""),
    (&["count", "f", "b1", "1", "s"], "no input 1", ""),
    (&["decide", "f", "s"], "no input 1", ""),
    (&["queue", "f"], "no input 1", ""),
    (EXPORT_OF_NONE, "no input 1", ""),
    (&["print", "b", "0", "precinct"], "election 3 ", ""),
    (&["read", "b", "s"], "election 3 ", ""),
    (&["check", "b", "u", "u"], "election 3 ", ""),
    (&["count", "b", "b1", "1", "u"], "election 3 ", ""),
    (&["decide", "b", "u"], "election 3 ", ""),
    (&["queue", "b"], "election 3 ", ""),
    (EXPORT_OF_REFUSED, "election 3 ", ""),
    // A card can't be laid out, which `decide` and `queue` don't ask.
    (&["print", "e", "1", "test-absentee"], "layout 1 4 1", ""),
    (
        &["print", "e", "1023", "test-provisional"],
        "layout 1023 4 1",
        "",
    ),
    (&["print", "w", "0", "precinct"], "layout 0 2 mayor 59", ""),
    (&["print", "w", "1", "precinct"], "layout 1 4 1", ""),
    (&["read", "w", "u"], "layout 0 2 mayor 59", ""),
    (&["check", "w", "u", "u"], "layout 0 2 mayor 59", ""),
    (&["count", "w", "b1", "1", "u"], "layout 0 2 mayor 59", ""),
    (&["decide", "w", "u"], "no input 2", ""),
    (&["queue", "w"], "ok", "waiting 0\n"),
    // A scan leaves the grammar of bitmaps, after the images that it has.
    (&["read", "e", "u"], "no input 2", ""),
    (&["read", "e", "e"], "pbm 2 1 0", ""),
    (&["read", "e", "none"], "ok", ""),
    (&["read", "e", "p"], "pbm 2 1 0", ""),
    (&["read", "e", "header"], "pbm 2 2 2", ""),
    (&["read", "e", "zero"], "pbm 2 2 3", ""),
    (&["read", "e", "wide"], "pbm 2 3 4097 10", ""),
    (&["read", "e", "tall"], "pbm 2 3 1 4097", ""),
    (&["read", "e", "cut"], "pbm 2 4 0 1", ""),
    (&["read", "e", "two"], "pbm 2 5 8", ""),
    (&["read", "e", "plain"], "ok", DOT),
    (&["read", "e", "behind"], "pbm 2 6 8", DOT),
    (&["read", "e", "second"], "pbm 2 1 8", SPECK),
    (&["read", "e", "t", "cut"], "pbm 3 4 0 1", SPECK),
    // `check` walks all of its scans before it takes the readings.
    (&["check", "e", "u", "t"], "no input 2", ""),
    (&["check", "e", "second", "u"], "pbm 2 1 8", ""),
    (&["check", "e", "t", "u"], "no input 3", ""),
    (&["check", "e", "none", "none"], "ok", ""),
    (&["check", "e", "t", "none"], "not certified pages 0 1", ""),
    // `count` tells the sheets whose images stand before the place; a single image waits for its second.
    (
        &["count", "e", "b1", "1", "none"],
        "ok",
        "counted 0 added 0 repeated 0 unread\n",
    ),
    (&["count", "e", "b1", "1", "behind"], "pbm 4 6 8", ""),
    (
        &["count", "e", "b1", "1", "t", "second"],
        "pbm 5 1 8",
        UNREAD,
    ),
    (
        &["count", "e", "b1", "1", "t", "t", "u"],
        "no input 6",
        UNREAD,
    ),
    (&["count", "e", "b1", "1", "u"], "no input 4", ""),
    // A script is taken behind the journal.
    (&["decide", "e", "u"], "no input 2", ""),
    (&["decide", "e", "t"], "decision line 1 bad", ""),
];

/// It ended so, and wrote this text.
fn assert_answer<R: Abort>(rt: &R, answer: &Answer, status: &str, text: &[u8], line: &[&str]) {
    assert_eq!(rt; answer.status.as_str(), status, "{line:?}");
    assert_eq!(rt; answer.text.as_slice(), text, "{line:?}");
}

/// A command over the small image ends so, with this text.
fn assert_ends<R: Threads + Sync + AllocGlobal + Abort>(
    rt: &R,
    line: &[&str],
    status: &str,
    text: &str,
) -> Result<(), Fail> {
    let answer = attempt(rt, SMALL, line, &[], &[], WHOLE)?;
    assert_answer(rt, &answer, status, text.as_bytes(), line);
    Ok(())
}

/// A kind of ballot is printed.
fn assert_prints<R: Threads + Sync + AllocGlobal + Abort>(rt: &R, kind: &str) -> Result<(), Fail> {
    let answer = attempt(rt, SMALL, &["print", "e", "0", kind], &[], &[], WHOLE)?;
    assert_eq!(rt; answer.status.as_str(), "ok", "{kind}");
    Ok(())
}

#[test]
fn words_are_a_command_or_usage(rt: HostRuntime) -> Result<(), Fail> {
    for line in USAGE {
        assert_ends(&rt, line, "usage", "")?;
    }
    for (line, status, text) in EARLY {
        assert_ends(&rt, line, status, text)?;
    }
    for kind in ["absentee", "provisional", "test-precinct", "test-absentee"] {
        assert_prints(&rt, kind)?;
    }
    Ok(())
}

/// Prints of the town while calls fail: those of the inputs, those of the sink, the sink's room; with
/// the status, and how many bytes of the whole text stand.
const CUT_PRINTS: [(&[u64], &[u64], u64, &str, u64); 7] = [
    (&[1], &[], WHOLE, "read fault", 0),
    (&[2], &[], WHOLE, "read fault", 0),
    (&[3], &[], WHOLE, "ok", WHOLE),
    (&[], &[1], WHOLE, "write fault", 0),
    (&[], &[2], WHOLE, "write fault", PAGE),
    (&[], &[3], WHOLE, "ok", WHOLE),
    (&[], &[], PAGE + 1000, "write fault", PAGE + 1000),
];

/// It ended so, and wrote so many bytes of a text.
fn assert_cut<R: Abort>(rt: &R, answer: &Answer, whole: &[u8], status: &str, size: u64) {
    assert_eq!(rt; answer.status.as_str(), status, "{size}");
    assert_eq!(rt; answer.text.len() as u64, size, "{status}");
    assert!(rt;
        whole.starts_with(answer.text.as_slice()),
        "{status} {size}"
    );
}

#[test]
fn a_front_of_the_prints_stands(rt: HostRuntime) -> Result<(), Fail> {
    let whole = printed(&rt)?;
    for (reads, writes, room, status, size) in CUT_PRINTS {
        let answer = attempt(&rt, &[], PRINT, reads, writes, room)?;
        assert_cut(&rt, &answer, whole.as_slice(), status, size);
    }
    Ok(())
}

/// The text of a clean page of the town as the image with a number.
fn push_block(text: &mut String, number: u32, side: u32) -> Result<(), AllocError> {
    let bubbles = if side == 1 {
        "bubble 0 0 0 0 clear\nbubble 1 0 1 0 clear\n"
    } else {
        ""
    };
    write!(
        text,
        "page {number} card 0 side {side} kind precinct\n{BORDER}{bubbles}end\n"
    )
}

/// Reads while calls of the inputs fail, with the status and how many images' texts stand. Calls 1
/// and 2 are of the election, two more of each scan.
const READS: [(&[&str], &[u64], &str, usize); 9] = [
    (&["read", "e", "s"], &[3], "read fault", 0),
    (&["read", "e", "s"], &[4], "read fault", 0),
    (&["read", "e", "s"], &[5], "ok", 2),
    (&["read", "b", "s"], &[3], "election 3 ", 0),
    (&["read", "e", "s", "t"], &[5], "read fault", 2),
    (&["read", "e", "s", "t"], &[6], "read fault", 2),
    (&["read", "e", "s", "t", "s", "x"], &[], "no input 5", 5),
    (&["read", "e", "s", "t", "e", "s"], &[], "pbm 4 1 0", 3),
    // The scan without its last byte.
    (&["read", "e", "c"], &[], "pbm 2 4 468599 468600", 1),
];

/// The texts of the images of `s`, a small one, and `s` again, and where each begins and the last ends.
fn texts_of_images(alloc: Global) -> Result<(String, Vec<usize>), AllocError> {
    let mut whole = String::new(alloc);
    let mut ends = Vec::new(alloc);
    for (number, side) in [(1, 1), (2, 2), (3, 0), (4, 1), (5, 2)] {
        ends.push(whole.len())?;
        if side == 0 {
            whole.push_str("page 3 fault 1 FrameSize 8 1\n")?;
        } else {
            push_block(&mut whole, number, side)?;
        }
    }
    ends.push(whole.len())?;
    Ok((whole, ends))
}

/// The texts of so many images.
fn front_of<'x>(whole: &'x [u8], ends: &[usize], images: usize) -> Result<&'x [u8], Fail> {
    let end = *ends.get(images).ok_or("no such image")?;
    Ok(whole.get(..end).ok_or("short")?)
}

#[test]
fn the_texts_before_a_halt_stand(rt: HostRuntime) -> Result<(), Fail> {
    let pages = printed(&rt)?;
    let (whole, ends) = texts_of_images(rt.alloc())?;
    for (line, fails, status, images) in READS {
        let wanted = front_of(whole.as_bytes(), ends.as_slice(), images)?;
        let answer = attempt(&rt, pages.as_slice(), line, fails, &[], WHOLE)?;
        assert_answer(&rt, &answer, status, wanted, line);
    }
    Ok(())
}
