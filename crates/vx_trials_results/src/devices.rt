//! Commands over devices in memory.

use std::alloc::{AllocError, Global};
use vx_audit::run_audit;
use vx_base::{Bytes, ListOf};
use vx_command::{Halt, status_of};
use vx_command_export::export;
use vx_io::{MemInputs, MemKeeper, MemSink, NamedBytes, Records, Words};
use vx_results::{results, summary};

/// When an `export` is written, and by which device.
const MOMENT: &str = "2026-11-04T08:00:00Z";

const DEVICE: &str = "00000000-0000-4000-8000-000000000001";

/// What a command answered, and what the sink had taken.
#[derive(Drop)]
pub struct Answer {
    pub status: String,
    pub text: Vec<u8>,
}

/// Which calls of the inputs, the sink and the keeper fail, from 1 on, and for how many bytes the sink has room.
#[derive(Clone, Copy)]
pub struct Failing<'a> {
    pub reads: &'a [u64],
    pub writes: &'a [u64],
    pub keeps: &'a [(u64, bool)],
    pub room: u64,
}

impl Failing<'_> {
    /// No call fails, and there is room for a million bytes.
    pub const NONE: Failing<'static> = Failing {
        reads: &[],
        writes: &[],
        keeps: &[],
        room: 1_000_000,
    };
}

fn inputs_of(alloc: Global, file: &[u8], reads: &[u64]) -> Result<MemInputs, AllocError> {
    let mut named = NamedBytes::new(alloc);
    named.push("E", Bytes::from_slice(alloc, file)?)?;
    Ok(MemInputs::new(named, ListOf::from_vec(Vec::from_slice(alloc, reads)?)))
}

pub(crate) fn keeper_of(
    alloc: Global,
    texts: &[&str],
    keeps: &[(u64, bool)],
) -> Result<MemKeeper, AllocError> {
    let mut records = Records::new(alloc);
    for text in texts {
        records.push(text.as_bytes())?;
    }
    Ok(MemKeeper::new(records, ListOf::from_vec(Vec::from_slice(alloc, keeps)?)))
}

pub(crate) fn sink_of(alloc: Global, failing: Failing<'_>) -> Result<MemSink, AllocError> {
    let writes = ListOf::from_vec(Vec::from_slice(alloc, failing.writes)?);
    MemSink::new(alloc, failing.room, writes)
}

/// What a command answered that ended so.
pub(crate) fn answer_of(
    alloc: Global,
    ended: Result<(), Halt>,
    out: &MemSink,
) -> Result<Answer, AllocError> {
    Ok(Answer {
        status: told(alloc, ended)?,
        text: Vec::from_slice(alloc, out.held())?,
    })
}

/// How a command ended, as the program says it.
fn told(alloc: Global, ended: Result<(), Halt>) -> Result<String, AllocError> {
    let status = status_of(ended);
    format!(in alloc; "{status}")
}

/// The devices of a command.
#[derive(Drop)]
struct Devices {
    inputs: MemInputs,
    out: MemSink,
    keeper: MemKeeper,
}

/// The election as `E`, and a journal.
fn devices_of(
    alloc: Global,
    election: &str,
    records: &[&str],
    failing: Failing<'_>,
) -> Result<Devices, AllocError> {
    Ok(Devices {
        inputs: inputs_of(alloc, election.as_bytes(), failing.reads)?,
        out: sink_of(alloc, failing)?,
        keeper: keeper_of(alloc, records, failing.keeps)?,
    })
}

fn run_results(alloc: Global, name: &str, devices: &mut Devices) -> Result<(), Halt> {
    let Devices {
        inputs,
        out,
        keeper,
    } = devices;
    results(alloc, name, inputs, out, keeper)
}

fn run_summary(alloc: Global, name: &str, devices: &mut Devices) -> Result<(), Halt> {
    let Devices {
        inputs,
        out,
        keeper,
    } = devices;
    summary(alloc, name, inputs, out, keeper)
}

fn run_export(alloc: Global, devices: &mut Devices) -> Result<(), Halt> {
    let Devices {
        inputs,
        out,
        keeper,
    } = devices;
    export(alloc, "E", MOMENT, DEVICE, inputs, out, keeper)
}

/// Runs `results NAME` over a journal, where `E` is the election.
pub fn attempt(
    alloc: Global,
    election: &str,
    records: &[&str],
    name: &str,
    failing: Failing<'_>,
) -> Result<Answer, AllocError> {
    let mut devices = devices_of(alloc, election, records, failing)?;
    let ended = run_results(alloc, name, &mut devices);
    answer_of(alloc, ended, &devices.out)
}

/// Runs `summary NAME` over a journal, where `E` is the election.
pub fn summarized(
    alloc: Global,
    election: &str,
    records: &[&str],
    name: &str,
    failing: Failing<'_>,
) -> Result<Answer, AllocError> {
    let mut devices = devices_of(alloc, election, records, failing)?;
    let ended = run_summary(alloc, name, &mut devices);
    answer_of(alloc, ended, &devices.out)
}

/// What `export` writes of a journal.
pub fn exported(alloc: Global, election: &str, records: &[&str]) -> Result<Answer, AllocError> {
    let mut devices = devices_of(alloc, election, records, Failing::NONE)?;
    let ended = run_export(alloc, &mut devices);
    answer_of(alloc, ended, &devices.out)
}

/// The words of a `totals`.
fn words_of_totals(alloc: Global) -> Result<Words, AllocError> {
    let mut words = Words::new(alloc);
    words.push("totals")?;
    words.push("E")?;
    Ok(words)
}

/// The status of a `totals` over devices, as the program says it.
fn totals_over(
    alloc: Global,
    inputs: &mut MemInputs,
    out: &mut MemSink,
) -> Result<String, AllocError> {
    let words = words_of_totals(alloc)?;
    let status = run_audit(alloc, &words, inputs, out);
    format!(in alloc; "{status}")
}

/// What `totals` writes of a report.
pub fn totals_of(alloc: Global, report: &[u8]) -> Result<Answer, AllocError> {
    let mut inputs = inputs_of(alloc, report, &[])?;
    let mut out = sink_of(alloc, Failing::NONE)?;
    let status = totals_over(alloc, &mut inputs, &mut out)?;
    Ok(Answer {
        status,
        text: Vec::from_slice(alloc, out.held())?,
    })
}

/// Whether an answer is this status with this text.
pub fn is_answer(answer: &Answer, status: &str, text: &str) -> bool {
    answer.status.as_str() == status && answer.text.as_slice() == text.as_bytes()
}
