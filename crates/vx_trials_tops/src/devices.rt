//! The top calls beside `run` over devices in memory.

use std::alloc::{AllocError, Global};
use vx_audit::run_audit;
use vx_base::{Bytes, ListOf};
use vx_command_gray::run_gray;
use vx_io::{MemInputs, MemKeeper, MemSink, NamedBytes, Records, Words};
use vx_ranked::run_ranked;

/// What a command answered, what the sink had taken, and how many records the keeper held.
#[derive(Drop)]
pub struct Answer {
    pub status: String,
    pub text: Vec<u8>,
    pub records: usize,
}

/// Which calls of the inputs, the sink and the keeper fail, from 1 on, and for how many bytes the sink has room.
#[derive(Clone, Copy)]
pub struct Failing<'a> {
    pub reads: &'a [u64],
    pub writes: &'a [u64],
    pub keeps: &'a [(u64, bool)],
    pub room: u64,
}

impl Failing<'_> {
    /// No call fails, and there is room for a million bytes.
    pub const NONE: Failing<'static> = Failing {
        reads: &[],
        writes: &[],
        keeps: &[],
        room: 1_000_000,
    };
}

fn inputs_of(
    alloc: Global,
    files: &[(&str, &[u8])],
    reads: &[u64],
) -> Result<MemInputs, AllocError> {
    let mut named = NamedBytes::new(alloc);
    for (name, bytes) in files {
        named.push(name, Bytes::from_slice(alloc, bytes)?)?;
    }
    Ok(MemInputs::new(named, ListOf::from_vec(Vec::from_slice(alloc, reads)?)))
}

fn sink_of(alloc: Global, room: u64, writes: &[u64]) -> Result<MemSink, AllocError> {
    MemSink::new(
        alloc,
        room,
        ListOf::from_vec(Vec::from_slice(alloc, writes)?),
    )
}

fn keeper_of(
    alloc: Global,
    texts: &[&str],
    keeps: &[(u64, bool)],
) -> Result<MemKeeper, AllocError> {
    let mut records = Records::new(alloc);
    for text in texts {
        records.push(text.as_bytes())?;
    }
    Ok(MemKeeper::new(records, ListOf::from_vec(Vec::from_slice(alloc, keeps)?)))
}

fn words_of(alloc: Global, line: &[&str]) -> Result<Words, AllocError> {
    let mut words = Words::new(alloc);
    for word in line {
        if words.count() < 1000 {
            words.push(word)?;
        }
    }
    Ok(words)
}

/// The devices of a command.
#[derive(Drop)]
struct Devices {
    inputs: MemInputs,
    out: MemSink,
    keeper: MemKeeper,
}

fn devices_of(
    alloc: Global,
    files: &[(&str, &[u8])],
    records: &[&str],
    failing: Failing<'_>,
) -> Result<Devices, AllocError> {
    Ok(Devices {
        inputs: inputs_of(alloc, files, failing.reads)?,
        out: sink_of(alloc, failing.room, failing.writes)?,
        keeper: keeper_of(alloc, records, failing.keeps)?,
    })
}

/// What a command answered that ended so and left its devices so.
fn answer_of(alloc: Global, status: String, devices: &Devices) -> Result<Answer, AllocError> {
    Ok(Answer {
        status,
        text: Vec::from_slice(alloc, devices.out.held())?,
        records: devices.keeper.records().len(),
    })
}

/// The status of the words of a `gray` over devices, as the program says it.
fn gray_over(alloc: Global, line: &[&str], devices: &mut Devices) -> Result<String, AllocError> {
    let words = words_of(alloc, line)?;
    let Devices { inputs, out, .. } = devices;
    let status = run_gray(alloc, &words, inputs, out);
    format!(in alloc; "{status}")
}

/// Runs the words of a `gray` over files.
pub fn gray(
    alloc: Global,
    files: &[(&str, &[u8])],
    line: &[&str],
    failing: Failing<'_>,
) -> Result<Answer, AllocError> {
    let mut devices = devices_of(alloc, files, &[], failing)?;
    let status = gray_over(alloc, line, &mut devices)?;
    answer_of(alloc, status, &devices)
}

/// The status of the words of a `totals` or an `audit` over devices, as the program says it.
fn audit_over(alloc: Global, line: &[&str], devices: &mut Devices) -> Result<String, AllocError> {
    let words = words_of(alloc, line)?;
    let Devices { inputs, out, .. } = devices;
    let status = run_audit(alloc, &words, inputs, out);
    format!(in alloc; "{status}")
}

/// Runs the words of a `totals` or an `audit` over files.
pub fn audit(
    alloc: Global,
    files: &[(&str, &[u8])],
    line: &[&str],
    failing: Failing<'_>,
) -> Result<Answer, AllocError> {
    let mut devices = devices_of(alloc, files, &[], failing)?;
    let status = audit_over(alloc, line, &mut devices)?;
    answer_of(alloc, status, &devices)
}

/// The status of the words of a `ranked` over devices, as the program says it.
fn ranked_over(alloc: Global, line: &[&str], devices: &mut Devices) -> Result<String, AllocError> {
    let words = words_of(alloc, line)?;
    let Devices {
        inputs,
        out,
        keeper,
    } = devices;
    let status = run_ranked(alloc, &words, inputs, out, keeper);
    format!(in alloc; "{status}")
}

/// Runs the words of a `ranked` over files and a journal.
pub fn ranked(
    alloc: Global,
    files: &[(&str, &[u8])],
    records: &[&str],
    line: &[&str],
    failing: Failing<'_>,
) -> Result<Answer, AllocError> {
    let mut devices = devices_of(alloc, files, records, failing)?;
    let status = ranked_over(alloc, line, &mut devices)?;
    answer_of(alloc, status, &devices)
}

/// Runs a `ranked` of an election and a file over a journal.
pub fn rank(
    alloc: Global,
    election: &str,
    file: &str,
    records: &[&str],
) -> Result<Answer, AllocError> {
    let files = [("E", election.as_bytes()), ("R", file.as_bytes())];
    ranked(alloc, &files, records, &["ranked", "E", "R"], Failing::NONE)
}

/// Whether an answer is this status with this text.
pub fn is_answer(answer: &Answer, status: &str, text: &[u8]) -> bool {
    answer.status.as_str() == status && answer.text.as_slice() == text
}
