//! A `try` over devices in memory, and the printed pages that it reads.

use crate::devices::{Answer, Devices, Failing, answer_of, devices_of, few, push_file, texts_of};
use crate::pages::PAGE;
use std::alloc::{AllocError, Global};
use std::test::Fail;
use vx_base::ListOf;
use vx_command::{Status, status_of};
use vx_command_print::{Ballot, print};
use vx_command_try::try_sheets;
use vx_grid::Kind;
use vx_io::{MemInputs, MemSink, NamedBytes, Records};

/// A definition of one contest on one card.
const ELECTION: &str =
    r#"{"title":"Village","date":"2026-11-03","districts":[{"id":"d","name":"Village"}],"precincts":[{"id":"p","name":"All"}],"contests":[{"id":"well","type":"yesno","districtId":"d","title":"A new well"}],"ballotStyles":[{"id":"s","precincts":["p"],"districts":["d"]}]}"#;

/// Both printed pages of the card.
pub(crate) fn card_of(alloc: Global, kind: Kind) -> Result<Vec<u8>, Fail> {
    let ballot = Ballot {
        card: 0,
        kind,
        test: false,
    };
    let mut out = MemSink::new(alloc, 1_000_000, ListOf::new(alloc))?;
    print_into(alloc, ballot, &mut out)?;
    Ok(Vec::from_slice(alloc, out.held())?)
}

/// Prints a ballot of the election.
fn print_into(alloc: Global, ballot: Ballot, out: &mut MemSink) -> Result<(), Fail> {
    let mut inputs = MemInputs::new(few(alloc, ELECTION)?, ListOf::new(alloc));
    print(alloc, "e", ballot, &mut inputs, out).map_err(|_| "it isn't printed")?;
    Ok(())
}

/// The files of a `try`: a sheet as `sheet`, its pages alone as `front` and `back`, the back of another kind
/// as `other`, and the sheet with a byte behind it as `behind`.
pub(crate) fn files_of(alloc: Global, card: &[u8], other: &[u8]) -> Result<NamedBytes, AllocError> {
    let mut files = few(alloc, ELECTION)?;
    push_card(alloc, &mut files, card)?;
    let back = other.get(PAGE..).unwrap_or(other);
    push_file(alloc, &mut files, "other", back, b"")?;
    Ok(files)
}

/// A sheet, its pages alone, and the sheet with a byte behind it.
fn push_card(alloc: Global, files: &mut NamedBytes, card: &[u8]) -> Result<(), AllocError> {
    let front = card.get(..PAGE).unwrap_or(card);
    let back = card.get(PAGE..).unwrap_or(card);
    push_file(alloc, files, "sheet", card, b"")?;
    push_file(alloc, files, "front", front, b"")?;
    push_file(alloc, files, "back", back, b"")?;
    push_file(alloc, files, "behind", card, b"P")
}

/// Tries scans over files.
pub(crate) fn attempt(
    alloc: Global,
    files: NamedBytes,
    scans: &[&str],
    failing: Failing<'_>,
) -> Result<Answer, Fail> {
    let mut devices = devices_of(alloc, files, Records::new(alloc), failing)?;
    let status = status_over(alloc, scans, &mut devices)?;
    Ok(answer_of(alloc, &status, &devices)?)
}

/// Tries scans over devices.
fn status_over(alloc: Global, scans: &[&str], devices: &mut Devices) -> Result<Status, Fail> {
    let names = texts_of(alloc, scans)?;
    if names.len() > 64 {
        return Err(Fail::from("too many scans"));
    }
    let Devices { inputs, out, .. } = devices;
    Ok(status_of(try_sheets(alloc, "e", &names, inputs, out)))
}

/// Whether an answer is this status with this text.
pub(crate) fn is_answer(answer: &Answer, status: &str, text: &str) -> bool {
    answer.status.as_str() == status && answer.text.as_slice() == text.as_bytes()
}
