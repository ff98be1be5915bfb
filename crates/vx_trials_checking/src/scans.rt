//! The town's printed pages as scans, and commands over them.

use std::alloc::{AllocError, Global};
use std::process::Abort;
use std::test::Fail;
use vx_base::Bytes;
use vx_command::{Halt, Status, status_of};
use vx_command_check::check;
use vx_command_print::{Ballot, print};
use vx_command_read::read;
use vx_io::{Calls, MemInputs, MemSink, NamedBytes};
use vx_town::{TOWN, words_of};
use vx_words::{Command, parse};

/// How many bytes a printed page has: a header of 13, and 213 for each of 2200 rows.
const PAGE: usize = 468_613;

/// The header of a printed page.
const HEADER: &[u8] = b"P4\n1700 2200\n";

/// How many bytes a row has: 1700 pixels, and 4 unused bits.
const ROW: usize = 213;

/// What a command answered, as the program says it, and what the sink had taken.
#[derive(Drop)]
pub(crate) struct Answer {
    pub(crate) status: String,
    pub(crate) text: Vec<u8>,
}

/// The town's definition as `e`, scans as `s` and readings as `r`.
fn inputs_of(alloc: Global, scans: &[u8], readings: &[u8]) -> Result<MemInputs, Fail> {
    let mut files = NamedBytes::new(alloc);
    files.push("e", Bytes::from_slice(alloc, TOWN.as_bytes())?)?;
    files.push("s", Bytes::from_slice(alloc, scans)?)?;
    files.push("r", Bytes::from_slice(alloc, readings)?)?;
    Ok(MemInputs::new(files, Calls::new(alloc)))
}

/// Does a `print`, a `read` or a `check` alone: the other commands would be proved here for nothing.
fn obey(
    alloc: Global,
    command: &Command,
    inputs: &mut MemInputs,
    out: &mut MemSink,
) -> Result<(), Halt> {
    match command {
        Command::Print {
            election,
            card,
            kind,
            test,
        } => {
            let ballot = Ballot {
                card: *card,
                kind: *kind,
                test: *test,
            };
            print(alloc, election.as_str(), ballot, inputs, out)
        }
        Command::Read { election, scans } => {
            if scans.len() > 64 {
                return Ok(());
            }
            read(alloc, election.as_str(), scans, inputs, out)
        }
        Command::Check {
            election,
            scans,
            readings,
        } => check(
            alloc,
            election.as_str(),
            scans.as_str(),
            readings.as_str(),
            inputs,
            out,
        ),
        _ => Ok(()),
    }
}

/// The command of a line.
fn command_of(alloc: Global, line: &[&str]) -> Result<Command, Fail> {
    let words = words_of(alloc, line)?;
    Ok(parse(alloc, &words).map_err(|_| "usage")?)
}

/// What a command answered that ended so.
fn told(alloc: Global, status: &Status, out: &MemSink) -> Result<Answer, AllocError> {
    let text = Vec::from_slice(alloc, out.held())?;
    let status = format!(in alloc; "{status}")?;
    Ok(Answer { status, text })
}

/// Does the command of a line over devices.
fn status_over(
    alloc: Global,
    line: &[&str],
    inputs: &mut MemInputs,
    out: &mut MemSink,
) -> Result<Status, Fail> {
    let command = command_of(alloc, line)?;
    Ok(status_of(obey(alloc, &command, inputs, out)))
}

/// Runs a command over the town's definition, scans and readings.
pub(crate) fn answer_of<R: AllocGlobal>(
    rt: &R,
    line: &[&str],
    scans: &[u8],
    readings: &[u8],
) -> Result<Answer, Fail> {
    let alloc = rt.alloc();
    let mut inputs = inputs_of(alloc, scans, readings)?;
    let mut out = MemSink::new(alloc, 2 * PAGE as u64, Calls::new(alloc))?;
    let status = status_over(alloc, line, &mut inputs, &mut out)?;
    Ok(told(alloc, &status, &out)?)
}

/// It ended so, and wrote this text.
pub(crate) fn assert_answer<R: Abort>(
    rt: &R,
    answer: &Answer,
    status: &str,
    text: &[u8],
    row: &str,
) {
    assert_eq!(rt; answer.status.as_str(), status, "{row}");
    assert_eq!(rt; answer.text.as_slice(), text, "{row}");
}

/// What `check` answers of readings of scans.
pub(crate) fn checked<R: AllocGlobal>(
    rt: &R,
    scans: &[u8],
    readings: &[u8],
) -> Result<Answer, Fail> {
    answer_of(rt, &["check", "e", "s", "r"], scans, readings)
}

/// Both printed pages of the town.
pub(crate) fn both_pages<R: AllocGlobal>(rt: &R) -> Result<Vec<u8>, Fail> {
    Ok(answer_of(rt, &["print", "e", "0", "precinct"], &[], &[])?.text)
}

/// The first printed page.
pub(crate) fn first_page<R: AllocGlobal>(rt: &R) -> Result<Vec<u8>, Fail> {
    let mut pages = both_pages(rt)?;
    pages.truncate(PAGE);
    Ok(pages)
}

/// The first printed page with 96 pixels dark within its second bubble: 8 columns from 248 on, 12 rows from
/// 522 on.
pub(crate) fn marked_page<R: AllocGlobal>(rt: &R) -> Result<Vec<u8>, Fail> {
    let mut page = first_page(rt)?;
    for y in 522..534 {
        if let Some(byte) = page.get_mut(HEADER.len() + ROW * y + 31) {
            *byte = 0xff;
        }
    }
    Ok(page)
}

/// A byte of a row, and 0 beside it.
fn byte_at(row: &[u8], place: usize) -> u8 {
    match row.get(place) {
        Some(byte) => *byte,
        None => 0,
    }
}

/// Appends a row from its last pixel to its first.
fn push_turned(raster: &mut Vec<u8>, row: &[u8]) -> Result<(), AllocError> {
    for place in (0..ROW).rev() {
        let right = byte_at(row, place).reverse_bits();
        let left = byte_at(row, place.wrapping_sub(1)).reverse_bits();
        raster.push(right.wrapping_shl(4) | left.wrapping_shr(4))?;
    }
    Ok(())
}

/// A page turned by 180 degrees.
pub(crate) fn turned(alloc: Global, page: &[u8]) -> Result<Vec<u8>, Fail> {
    let raster = page.get(HEADER.len()..).ok_or("no raster")?;
    let mut over = Vec::from_slice(alloc, HEADER)?;
    for row in raster.chunks_exact(ROW).rev() {
        push_turned(&mut over, row)?;
    }
    Ok(over)
}
