//! Printed sheets as scans for `desk`, as they lie and upside down.

use std::alloc::{AllocError, Global};
use std::test::Fail;
use vx_base::{Bytes, ListOf};
use vx_command_print::{Ballot, print};
use vx_grid::Kind;
use vx_io::{MemInputs, MemSink, NamedBytes};

/// How many bytes a row of a page has.
const ROW: usize = 213;

/// How many bytes the header of a page has.
const HEADER: usize = 13;

/// Both printed pages of a card, one behind the other.
fn printed(alloc: Global, election: &str) -> Result<Vec<u8>, Fail> {
    let ballot = Ballot {
        card: 0,
        kind: Kind::Precinct,
        test: false,
    };
    let mut files = NamedBytes::new(alloc);
    files.push("e", Bytes::from_slice(alloc, election.as_bytes())?)?;
    let mut inputs = MemInputs::new(files, ListOf::new(alloc));
    let mut out = MemSink::new(alloc, 2_000_000, ListOf::new(alloc))?;
    print(alloc, "e", ballot, &mut inputs, &mut out).map_err(|_| "it isn't printed")?;
    Ok(Vec::from_slice(alloc, out.held())?)
}

/// A byte of a row, and 0 beside it.
fn byte_at(row: &[u8], place: usize) -> u8 {
    match row.get(place) {
        Some(byte) => *byte,
        None => 0,
    }
}

/// Appends a row from its last pixel to its first.
fn push_turned(raster: &mut Vec<u8>, row: &[u8]) -> Result<(), AllocError> {
    for place in (0..ROW).rev() {
        let right = byte_at(row, place).reverse_bits();
        let left = byte_at(row, place.wrapping_sub(1)).reverse_bits();
        raster.push(right.wrapping_shl(4) | left.wrapping_shr(4))?;
    }
    Ok(())
}

/// A page turned by 180 degrees.
fn turned(alloc: Global, page: &[u8]) -> Result<Vec<u8>, Fail> {
    let header = page.get(..HEADER).ok_or("no header")?;
    let raster = page.get(HEADER..).ok_or("no raster")?;
    let mut over = Vec::from_slice(alloc, header)?;
    for row in raster.chunks_exact(ROW).rev() {
        push_turned(&mut over, row)?;
    }
    Ok(over)
}

/// The pages of a printed sheet, and its front upside down.
#[derive(Drop)]
pub(crate) struct Sheet {
    pub(crate) front: Vec<u8>,
    pub(crate) back: Vec<u8>,
    pub(crate) over: Vec<u8>,
}

/// The sheet of an election's only card.
pub(crate) fn sheet_of(alloc: Global, election: &str) -> Result<Sheet, Fail> {
    let card = printed(alloc, election)?;
    let half = card.len() / 2;
    let front = card.get(..half).ok_or("no front")?;
    let back = card.get(half..).ok_or("no back")?;
    Ok(Sheet {
        front: Vec::from_slice(alloc, front)?,
        back: Vec::from_slice(alloc, back)?,
        over: turned(alloc, front)?,
    })
}
