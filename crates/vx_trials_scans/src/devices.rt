//! Devices in memory that may fail, and what a command that was done over them answered.

use std::alloc::{AllocError, Global};
use vx_base::{Bytes, ListOf};
use vx_command::Status;
use vx_io::{MemInputs, MemKeeper, MemSink, NamedBytes, Records};
use vx_json::{Text, Texts};
use vx_town::HeardInputs;

/// What a command answered, what it asked its inputs, and what the sink had taken.
#[derive(Drop)]
pub(crate) struct Answer {
    pub(crate) status: String,
    pub(crate) heard: String,
    pub(crate) text: Vec<u8>,
}

/// Which calls of the inputs, the sink and the keeper fail, from 1 on, and for how many bytes the sink has room.
#[derive(Clone, Copy)]
pub(crate) struct Failing<'a> {
    pub(crate) reads: &'a [u64],
    pub(crate) writes: &'a [u64],
    pub(crate) keeps: &'a [(u64, bool)],
    pub(crate) room: u64,
}

impl Failing<'_> {
    /// No call fails, and there is room for a million bytes.
    pub(crate) const NONE: Failing<'static> = Failing {
        reads: &[],
        writes: &[],
        keeps: &[],
        room: 1_000_000,
    };
}

/// Files of a few bytes: none, a small image, and what is no bitmap.
const FEW: [(&str, &[u8]); 3] = [("none", b""), ("small", b"P4\n8 1\n\0"), ("bad", b"P")];

/// The election as `e`, and these files.
pub(crate) fn few(alloc: Global, election: &str) -> Result<NamedBytes, AllocError> {
    let mut files = NamedBytes::new(alloc);
    push_file(alloc, &mut files, "e", election.as_bytes(), b"")?;
    for (name, bytes) in FEW {
        push_file(alloc, &mut files, name, bytes, b"")?;
    }
    Ok(files)
}

/// A file of bytes and of others behind them.
pub(crate) fn push_file(
    alloc: Global,
    files: &mut NamedBytes,
    name: &str,
    first: &[u8],
    second: &[u8],
) -> Result<(), AllocError> {
    let mut bytes = Bytes::from_slice(alloc, first)?;
    bytes.extend_from_slice(second)?;
    files.push(name, bytes)
}

/// The names of scans.
pub(crate) fn texts_of(alloc: Global, scans: &[&str]) -> Result<Texts, AllocError> {
    let mut names = Texts::new(alloc);
    for scan in scans {
        names.push(Text::from_str(alloc, scan)?)?;
    }
    Ok(names)
}

/// The devices of a command.
#[derive(Drop)]
pub(crate) struct Devices {
    pub(crate) inputs: HeardInputs,
    pub(crate) out: MemSink,
    pub(crate) keeper: MemKeeper,
}

/// Devices with these files and these records.
pub(crate) fn devices_of(
    alloc: Global,
    files: NamedBytes,
    records: Records,
    failing: Failing<'_>,
) -> Result<Devices, AllocError> {
    let reads = ListOf::from_vec(Vec::from_slice(alloc, failing.reads)?);
    let writes = ListOf::from_vec(Vec::from_slice(alloc, failing.writes)?);
    let keeps = ListOf::from_vec(Vec::from_slice(alloc, failing.keeps)?);
    Ok(Devices {
        inputs: HeardInputs::new(alloc, MemInputs::new(files, reads)),
        out: MemSink::new(alloc, failing.room, writes)?,
        keeper: MemKeeper::new(records, keeps),
    })
}

/// What a command answered that ended so.
pub(crate) fn answer_of(
    alloc: Global,
    status: &Status,
    devices: &Devices,
) -> Result<Answer, AllocError> {
    Ok(Answer {
        status: format!(in alloc; "{status}")?,
        heard: String::from_str(alloc, devices.inputs.heard())?,
        text: Vec::from_slice(alloc, devices.out.held())?,
    })
}
