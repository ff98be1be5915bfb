//! `sample`, `risk`, `board` and `audit` over devices in memory.

ghost use Rattle.vx_words.specs.Samples.{IsSeed, seed_bytes};

use crate::devices::{Answer, Failing, answer_of, keeper_of, sink_of};
use crate::worked::ELECTION;
use std::alloc::{AllocError, Global};
use vx_audit::run_audit;
use vx_base::{Bytes, ListOf};
use vx_board::board;
use vx_io::{MemInputs, NamedBytes, Words};
use vx_sampling::{risk, sample};

/// The seed of zeros, by its word.
fn zeros() -> &'static str
    ensures { IsSeed result.now (seed_bytes result.now) }
{
    "0000000000000000000000000000000000000000000000000000000000000000"
}

/// Two files, `E` and what hands read, `H`.
fn files_of(alloc: Global, file: &[u8], hand: &str) -> Result<NamedBytes, AllocError> {
    let mut named = NamedBytes::new(alloc);
    named.push("E", Bytes::from_slice(alloc, file)?)?;
    named.push("H", Bytes::from_slice(alloc, hand.as_bytes())?)?;
    Ok(named)
}

fn inputs_of(
    alloc: Global,
    file: &[u8],
    hand: &str,
    reads: &[u64],
) -> Result<MemInputs, AllocError> {
    let named = files_of(alloc, file, hand)?;
    Ok(MemInputs::new(named, ListOf::from_vec(Vec::from_slice(alloc, reads)?)))
}

/// Runs `sample E SEED SIZE NAME` over a journal with the seed of zeros, where `E` is the election and `H` what
/// hands read.
pub fn sampled(
    alloc: Global,
    records: &[&str],
    size: u32,
    hand: &str,
    name: &str,
    failing: Failing<'_>,
) -> Result<Answer, AllocError> {
    let mut inputs = inputs_of(alloc, ELECTION.as_bytes(), hand, failing.reads)?;
    let mut out = sink_of(alloc, failing)?;
    let mut keeper = keeper_of(alloc, records, failing.keeps)?;
    let ended = sample(
        alloc,
        "E",
        zeros(),
        size,
        name,
        &mut inputs,
        &mut out,
        &mut keeper,
    );
    answer_of(alloc, ended, &out)
}

/// Runs `risk E SEED SIZE NAME LIMIT` over a journal with the seed of zeros, where `E` is the election and `H` what
/// hands read.
pub fn risked(
    alloc: Global,
    records: &[&str],
    size: u32,
    hand: &str,
    name: &str,
    limit: u32,
    failing: Failing<'_>,
) -> Result<Answer, AllocError> {
    let mut inputs = inputs_of(alloc, ELECTION.as_bytes(), hand, failing.reads)?;
    let mut out = sink_of(alloc, failing)?;
    let mut keeper = keeper_of(alloc, records, failing.keeps)?;
    let ended = risk(
        alloc,
        "E",
        zeros(),
        size,
        name,
        limit,
        &mut inputs,
        &mut out,
        &mut keeper,
    );
    answer_of(alloc, ended, &out)
}

/// Runs `board E SEED SIZE` over a journal with the seed of zeros, where `E` is the election.
pub fn boarded(
    alloc: Global,
    records: &[&str],
    size: u32,
    failing: Failing<'_>,
) -> Result<Answer, AllocError> {
    let mut inputs = inputs_of(alloc, ELECTION.as_bytes(), "", failing.reads)?;
    let mut out = sink_of(alloc, failing)?;
    let mut keeper = keeper_of(alloc, records, failing.keeps)?;
    let ended = board(
        alloc,
        "E",
        zeros(),
        size,
        &mut inputs,
        &mut out,
        &mut keeper,
    );
    answer_of(alloc, ended, &out)
}

/// The words of an `audit` with the seed of zeros.
fn audit_words(alloc: Global, size: u32) -> Result<Words, AllocError> {
    let size = format!(in alloc; "{size}")?;
    let mut words = Words::new(alloc);
    for word in ["audit", "E", zeros(), size.as_str(), "H"] {
        if words.count() < 1_000_000 {
            words.push(word)?;
        }
    }
    Ok(words)
}

/// What `audit` writes of a report with the seed of zeros.
pub fn audit_of(alloc: Global, report: &[u8], size: u32, hand: &str) -> Result<Answer, AllocError> {
    let words = audit_words(alloc, size)?;
    let mut inputs = inputs_of(alloc, report, hand, &[])?;
    let mut out = sink_of(alloc, Failing::NONE)?;
    let status = run_audit(alloc, &words, &mut inputs, &mut out);
    Ok(Answer {
        status: format!(in alloc; "{status}")?,
        text: Vec::from_slice(alloc, out.held())?,
    })
}
