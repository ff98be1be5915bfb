//! The program: the first argument is the journal's file name, or `-` for a journal in memory; the
//! others are the words of a command. On a status other than Ok it writes one line to standard
//! error and ends with the status's number.
#![tactic(auto)]

use std::process::ExitCode;
use std::sync::Wait;
use std::thread::Threads;
use std::{env, fmt};
use vx_app::{arguments_status, command_words};
use vx_audit::{AuditMessage, AuditStatus, run_audit};
use vx_command::{Message, Status};
use vx_command_gray::{GrayMessage, GrayStatus, run_gray};
use vx_io::{StdInputs, StdSink, Words};
use vx_program::{begins_with, rank_with, run_with};
use vx_ranked::{RankedMessage, RankedStatus};

/// The arguments of the command line, the program's name before them.
fn arguments_of_line(rt: &HostRuntime) -> Result<Vec<String>, Status> {
    match env::args(rt) {
        Ok(arguments) => match arguments.collect::<Vec<String>>(rt.alloc()) {
            Ok(list) => Ok(list),
            Err(_refused) => Err(Status::NoMemory),
        },
        Err(fault) => Err(arguments_status(fault.kind())),
    }
}

/// What the program ends with: the status of `run` or `run_center`, or that of another top call.
#[derive(Drop)]
enum Ending {
    Command(Status),
    Gray(GrayStatus),
    Ranked(RankedStatus),
    Audit(AuditStatus),
}

/// Makes grayscale scans into bitmaps; the journal has no part in it.
fn make_bitmaps(rt: &HostRuntime, words: &Words) -> GrayStatus {
    let mut inputs = StdInputs::new(rt);
    let mut out = StdSink::new(rt);
    run_gray(rt.alloc(), words, &mut inputs, &mut out)
}

/// Sums a report, or compares a sample of it with what hands read; the journal has no part in it.
fn audit(rt: &HostRuntime, words: &Words) -> AuditStatus {
    let mut inputs = StdInputs::new(rt);
    let mut out = StdSink::new(rt);
    run_audit(rt.alloc(), words, &mut inputs, &mut out)
}

/// Does the command of the command line.
fn answer<R: Threads + Wait + Sync>(rt: &HostRuntime, threads: &R) -> Result<Ending, Status> {
    let arguments = arguments_of_line(rt)?;
    let words = command_words(rt.alloc(), arguments.as_slice())?;
    match arguments.as_slice() {
        [_program, _journal, ..] if begins_with(&words, "gray") => {
            Ok(Ending::Gray(make_bitmaps(rt, &words)))
        }
        [_program, _journal, ..] if begins_with(&words, "totals") || begins_with(&words, "audit") =>
            { Ok(Ending::Audit(audit(rt, &words))) }
        [_program, journal, ..] if begins_with(&words, "ranked") => {
            Ok(Ending::Ranked(rank_with(rt, journal.as_str(), &words)))
        }
        [_program, journal, ..] => {
            let status = run_with(rt, threads, journal.as_str(), &words);
            Ok(Ending::Command(status))
        }
        _ => Err(Status::Usage),
    }
}

/// Says on standard error how the program ends, and gives that number.
fn end<M: fmt::Display>(rt: &HostRuntime, message: &M, number: u8) -> ExitCode {
    let _ = eprint!(rt; "{message}");
    ExitCode::from(number)
}

fn main(rt: HostRuntime) -> ExitCode {
    match answer(&rt, &rt) {
        Ok(Ending::Command(status)) => end(&rt, &Message(&status), status.number()),
        Ok(Ending::Gray(status)) => end(&rt, &GrayMessage(&status), status.number()),
        Ok(Ending::Ranked(status)) => end(&rt, &RankedMessage(&status), status.number()),
        Ok(Ending::Audit(status)) => end(&rt, &AuditMessage(&status), status.number()),
        Err(status) => end(&rt, &Message(&status), status.number()),
    }
}
