//! A command over devices in memory.

use std::alloc::{AllocError, Global};
use std::thread::Threads;
use vx_app::run;
use vx_base::{Bytes, ListOf};
use vx_io::{MemInputs, MemKeeper, MemSink, NamedBytes, Records, Words};
use vx_town::{HeardInputs, words_of};

/// What the inputs and the keeper of a command hold: bytes under names, and records.
#[derive(Clone, Copy)]
pub(crate) struct Held<'a> {
    pub(crate) files: &'a [(&'a str, &'a [u8])],
    pub(crate) records: &'a Records,
}

/// Which calls of the inputs, the sink and the keeper fail, from 1 on, and for how many bytes the sink
/// has room. Of the keeper's a listed append says whether it keeps its record.
#[derive(Clone, Copy)]
pub(crate) struct Failing<'a> {
    pub(crate) reads: &'a [u64],
    pub(crate) writes: &'a [u64],
    pub(crate) keeps: &'a [(u64, bool)],
    pub(crate) room: u64,
}

impl Failing<'_> {
    /// No call fails, and there is room for ten million bytes.
    pub(crate) const NONE: Failing<'static> = Failing {
        reads: &[],
        writes: &[],
        keeps: &[],
        room: 10_000_000,
    };
}

/// The devices of a command.
#[derive(Drop)]
pub(crate) struct Devices {
    pub(crate) inputs: HeardInputs,
    pub(crate) out: MemSink,
    pub(crate) keeper: MemKeeper,
}

/// What a command answered, as the program says it, what it asked its inputs, what the sink had taken, and what
/// the keeper held.
#[derive(Drop)]
pub(crate) struct Answer {
    pub(crate) status: String,
    pub(crate) asked: String,
    pub(crate) text: Vec<u8>,
    pub(crate) records: Records,
}

/// A copy of records.
fn copy_of(alloc: Global, records: &Records) -> Result<Records, AllocError> {
    let mut copy = Records::new(alloc);
    for index in 0..records.len() {
        copy.push(records.record(index).as_slice())?;
    }
    Ok(copy)
}

/// The files of a list.
fn files_of(alloc: Global, files: &[(&str, &[u8])]) -> Result<NamedBytes, AllocError> {
    let mut named = NamedBytes::new(alloc);
    for (name, bytes) in files {
        named.push(name, Bytes::from_slice(alloc, bytes)?)?;
    }
    Ok(named)
}

/// Inputs of these files, of which the listed calls fail.
fn inputs_of(
    alloc: Global,
    files: &[(&str, &[u8])],
    fails: &[u64],
) -> Result<HeardInputs, AllocError> {
    let fails = ListOf::from_vec(Vec::from_slice(alloc, fails)?);
    let inputs = MemInputs::new(files_of(alloc, files)?, fails);
    Ok(HeardInputs::new(alloc, inputs))
}

/// A sink with so much room, of which the listed calls fail.
fn sink_of(alloc: Global, room: u64, fails: &[u64]) -> Result<MemSink, AllocError> {
    let fails = ListOf::from_vec(Vec::from_slice(alloc, fails)?);
    MemSink::new(alloc, room, fails)
}

/// A keeper of these records, of which the listed calls fail.
fn keeper_of(
    alloc: Global,
    records: &Records,
    fails: &[(u64, bool)],
) -> Result<MemKeeper, AllocError> {
    let fails = ListOf::from_vec(Vec::from_slice(alloc, fails)?);
    Ok(MemKeeper::new(copy_of(alloc, records)?, fails))
}

impl Devices {
    /// Devices that hold so much and fail so.
    pub(crate) fn new(
        alloc: Global,
        held: Held<'_>,
        failing: Failing<'_>,
    ) -> Result<Devices, AllocError> {
        Ok(Devices {
            inputs: inputs_of(alloc, held.files, failing.reads)?,
            out: sink_of(alloc, failing.room, failing.writes)?,
            keeper: keeper_of(alloc, held.records, failing.keeps)?,
        })
    }
}

/// What a command answered that ended so and left its devices so.
pub(crate) fn answer_of(
    alloc: Global,
    status: String,
    devices: &Devices,
) -> Result<Answer, AllocError> {
    Ok(Answer {
        status,
        asked: String::from_str(alloc, devices.inputs.heard())?,
        text: Vec::from_slice(alloc, devices.out.held())?,
        records: copy_of(alloc, devices.keeper.records())?,
    })
}

/// Runs a command over devices, and answers its status, as the program says it.
fn status_of<R: Threads + Sync + AllocGlobal>(
    rt: &R,
    words: &Words,
    devices: &mut Devices,
) -> Result<String, AllocError> {
    let Devices {
        inputs,
        out,
        keeper,
    } = devices;
    let status = run(rt, rt.alloc(), words, inputs, out, keeper);
    format!(in rt.alloc(); "{status}")
}

/// Runs a command over devices.
fn answer_over<R: Threads + Sync + AllocGlobal>(
    rt: &R,
    line: &[&str],
    devices: &mut Devices,
) -> Result<Answer, AllocError> {
    let words = words_of(rt.alloc(), line)?;
    let status = status_of(rt, &words, devices)?;
    answer_of(rt.alloc(), status, devices)
}

/// Runs a command.
pub(crate) fn attempt<R: Threads + Sync + AllocGlobal>(
    rt: &R,
    held: Held<'_>,
    line: &[&str],
    failing: Failing<'_>,
) -> Result<Answer, AllocError> {
    let mut devices = Devices::new(rt.alloc(), held, failing)?;
    answer_over(rt, line, &mut devices)
}
