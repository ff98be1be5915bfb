//! The first page of the town in other forms than it is printed in, each of which is read as the same page.

use crate::pages::{HEADER, PAGE, ROW, both_pages, inputs_of, names_of, raster_of, sink_of};
use std::alloc::{AllocError, Global};
use std::process::Abort;
use std::test::Fail;
use vx_command_gray::run_gray;
use vx_command_read::read;
use vx_io::{MemInputs, MemSink};
use vx_town::{BORDER, TOWN, words_of};

/// The bubbles of the first page without a mark.
const CLEAR: &str = "bubble 0 0 0 0 clear\nbubble 1 0 1 0 clear\n";

/// How many pixels a row has.
const WIDTH: usize = 1700;

/// Whether a pixel of a row is dark.
fn is_dark(row: &[u8], x: usize) -> bool {
    match row.get(x / 8) {
        Some(byte) => (*byte >> (7 - x % 8)) & 1 == 1,
        None => false,
    }
}

/// Adds the digits of a row.
fn push_digits(scan: &mut Vec<u8>, row: &[u8]) -> Result<(), AllocError> {
    for x in 0..WIDTH {
        let digit = if is_dark(row, x) { b'1' } else { b'0' };
        scan.push(digit)?;
    }
    Ok(())
}

/// The page as digits without a blank between them, with a comment in its header.
fn plain(alloc: Global, page: &[u8]) -> Result<Vec<u8>, AllocError> {
    let mut scan = Vec::from_slice(alloc, b"P1\n# by hand\n1700 2200\n")?;
    for row in raster_of(page).chunks_exact(ROW) {
        push_digits(&mut scan, row)?;
    }
    Ok(scan)
}

/// Adds a row with a light pixel more, and its three padding bits set.
fn push_padded(scan: &mut Vec<u8>, row: &[u8]) -> Result<(), AllocError> {
    if let Some((last, front)) = row.split_last() {
        scan.extend_from_slice(front)?;
        scan.push(*last | 7)?;
    }
    Ok(())
}

/// The page with a light column more, and the three padding bits of each row set.
fn padded(alloc: Global, page: &[u8]) -> Result<Vec<u8>, AllocError> {
    let mut scan = Vec::from_slice(alloc, b"P4\n1701 2200\n")?;
    for row in raster_of(page).chunks_exact(ROW) {
        push_padded(&mut scan, row)?;
    }
    Ok(scan)
}

/// The value of a pixel: 40 for a dark one and 200 for a light one, and in the right half 30 and 150.
fn value_of(x: usize, is_dark: bool) -> u8 {
    if x < WIDTH / 2 {
        if is_dark { 40 } else { 200 }
    } else if is_dark {
        30
    } else {
        150
    }
}

/// Adds the values of a row.
fn push_values(scan: &mut Vec<u8>, row: &[u8]) -> Result<(), AllocError> {
    for x in 0..WIDTH {
        scan.push(value_of(x, is_dark(row, x)))?;
    }
    Ok(())
}

/// The page as a grayscale scan.
fn grayed(alloc: Global, page: &[u8]) -> Result<Vec<u8>, AllocError> {
    let mut scan = Vec::from_slice(alloc, b"P5\n1700 2200\n255\n")?;
    for row in raster_of(page).chunks_exact(ROW) {
        push_values(&mut scan, row)?;
    }
    Ok(scan)
}

/// Runs a `gray` of the scan.
fn gray_into(alloc: Global, inputs: &mut MemInputs, out: &mut MemSink) -> Result<String, Fail> {
    let words = words_of(alloc, &["gray", "s"])?;
    let status = run_gray(alloc, &words, inputs, out);
    Ok(format!(in alloc; "{status}")?)
}

/// What `gray` makes of a scan.
fn bits_of(alloc: Global, scan: &[u8]) -> Result<Vec<u8>, Fail> {
    let mut inputs = inputs_of(alloc, TOWN, scan)?;
    let mut out = sink_of(alloc)?;
    let status = gray_into(alloc, &mut inputs, &mut out)?;
    if status.as_str() == "ok" {
        return Ok(Vec::from_slice(alloc, out.held())?);
    }
    Ok(Vec::new(alloc))
}

/// Reads the scan.
fn read_into(alloc: Global, inputs: &mut MemInputs, out: &mut MemSink) -> Result<(), Fail> {
    let scans = names_of(alloc)?;
    if scans.len() > 64 {
        return Ok(());
    }
    Ok(read(alloc, "e", &scans, inputs, out).map_err(|_| "it halts")?)
}

/// What `read` writes of a scan.
fn reading_of(alloc: Global, scan: &[u8]) -> Result<Vec<u8>, Fail> {
    let mut inputs = inputs_of(alloc, TOWN, scan)?;
    let mut out = sink_of(alloc)?;
    read_into(alloc, &mut inputs, &mut out)?;
    Ok(Vec::from_slice(alloc, out.held())?)
}

/// The first printed page.
fn first_page(alloc: Global) -> Result<Vec<u8>, Fail> {
    let mut pages = both_pages(alloc, TOWN, 0)?;
    pages.truncate(PAGE);
    Ok(pages)
}

/// A scan is read as the first page without a mark.
fn assert_read<R: AllocGlobal + Abort>(rt: &R, scan: &[u8]) -> Result<(), Fail> {
    let alloc = rt.alloc();
    let wanted = format!(in alloc; "page 1 card 0 side 1 kind precinct\n{BORDER}{CLEAR}end\n")?;
    let text = reading_of(alloc, scan)?;
    assert_eq!(rt; text.as_slice(), wanted.as_bytes());
    Ok(())
}

#[test]
fn plain_digits_are_read(rt: HostRuntime) -> Result<(), Fail> {
    let page = first_page(rt.alloc())?;
    let scan = plain(rt.alloc(), page.as_slice())?;
    assert_read(&rt, scan.as_slice())
}

#[test]
fn padding_bits_are_no_pixels(rt: HostRuntime) -> Result<(), Fail> {
    let page = first_page(rt.alloc())?;
    let scan = padded(rt.alloc(), page.as_slice())?;
    assert_read(&rt, scan.as_slice())
}

#[test]
fn a_page_in_two_lights_is_read(rt: HostRuntime) -> Result<(), Fail> {
    let page = first_page(rt.alloc())?;
    let scan = grayed(rt.alloc(), page.as_slice())?;
    let bits = bits_of(rt.alloc(), scan.as_slice())?;
    assert_read(&rt, bits.as_slice())
}
