//! Printed pages, and inputs that hold them.

use std::alloc::{AllocError, Global};
use std::test::Fail;
use vx_base::Bytes;
use vx_command_print::{Ballot, print};
use vx_grid::Kind;
use vx_io::{Calls, MemInputs, MemSink, NamedBytes};
use vx_json::{Text, Texts};

/// How many bytes a printed page has: a header of 13, and 213 for each of 2200 rows.
pub(crate) const PAGE: usize = 468_613;

/// The header of a printed page.
pub(crate) const HEADER: &[u8] = b"P4\n1700 2200\n";

/// How many bytes a row has: 1700 pixels, and 4 unused bits.
pub(crate) const ROW: usize = 213;

/// An election as `e`, and a scan as `s`.
pub(crate) fn inputs_of(
    alloc: Global,
    election: &str,
    scan: &[u8],
) -> Result<MemInputs, AllocError> {
    let mut files = NamedBytes::new(alloc);
    files.push("e", Bytes::from_slice(alloc, election.as_bytes())?)?;
    files.push("s", Bytes::from_slice(alloc, scan)?)?;
    Ok(MemInputs::new(files, Calls::new(alloc)))
}

/// A sink with room for a sheet.
pub(crate) fn sink_of(alloc: Global) -> Result<MemSink, AllocError> {
    MemSink::new(alloc, 2 * PAGE as u64, Calls::new(alloc))
}

/// The scan's name.
pub(crate) fn names_of(alloc: Global) -> Result<Texts, Fail> {
    let mut scans = Texts::new(alloc);
    scans.push(Text::from_str(alloc, "s")?)?;
    Ok(scans)
}

/// Prints a card.
fn print_into(
    alloc: Global,
    card: u32,
    inputs: &mut MemInputs,
    out: &mut MemSink,
) -> Result<(), Fail> {
    let ballot = Ballot {
        card,
        kind: Kind::Precinct,
        test: false,
    };
    Ok(print(alloc, "e", ballot, inputs, out).map_err(|_| "it halts")?)
}

/// Both printed pages of a card.
pub(crate) fn both_pages(alloc: Global, election: &str, card: u32) -> Result<Vec<u8>, Fail> {
    let mut inputs = inputs_of(alloc, election, &[])?;
    let mut out = sink_of(alloc)?;
    print_into(alloc, card, &mut inputs, &mut out)?;
    Ok(Vec::from_slice(alloc, out.held())?)
}

/// The raster of a printed page.
pub(crate) fn raster_of(page: &[u8]) -> &[u8] {
    page.get(HEADER.len()..).unwrap_or(page)
}
