ghost use Rattle.std.specs.Prelude.{◌≡◌, ◌+◌, ◌*◌, ◌<◌, ◌≤◌, IfOk, OnOk, length, slice_index, min};
ghost use Rattle.vx_gray.specs.Gray.{greatest, near_start, near_size};
ghost use Rattle.vx_gray.specs.Near.{IsRaised, AreColumnTops, AreHalves, AreTopsAt};

use crate::view::GrayView;
use std::alloc::{AllocError, Global};
use std::mem::replace;

/// The side of a tile in pixels.
pub(crate) const TILE: usize = 64;

/// The first column of a tile and its neighbours.
fn near_start(tile: usize) -> usize
    requires { tile ≤ 4096 }
    ensures { result ≡ near_start tile }
{
    TILE * tile.saturating_sub(1)
}

/// Where the columns of a tile and its neighbours end, cut at a frame.
fn near_end(tile: usize, frame: usize) -> usize
    requires { tile ≤ 4096 }
    ensures { result ≡ min (64 * (tile + 2)) frame }
{
    (TILE * (tile + 2)).min(frame)
}

/// Raises each number to the one at its place, where that is greater.
fn raise(tops: &mut [u8], row: &[u8])
    requires { length tops.old ≡ length row.now }
    ensures { IsRaised tops.old row.now tops.new }
{
    for u in 0..tops.len() {
        tops[u] = tops[u].max(row[u]);
    }
}

/// The greatest of some values, 0 where there are none.
fn greatest(values: &[u8]) -> u8
    ensures { result ≡ greatest (length values.now) (slice_index values.now) }
{
    let mut top = 0u8;
    for value in values {
        top = top.max(*value);
    }
    top
}

/// The greatest value of each column of the page over the rows of a band of tiles, 0 below the page.
fn band_tops(alloc: Global, gray: &GrayView<'_>, band: usize) -> Result<Vec<u8>, AllocError>
    requires { band ≤ 64 }
    ensures { IfOk result (λ tops. AreColumnTops gray.now (64 * band) 64 tops.items) }
{
    let height = gray.height() as usize;
    let mut tops = vec![in alloc; 0u8; gray.width() as usize]?;
    for v in (TILE * band).min(height)..(TILE * (band + 1)).min(height) {
        raise(&mut tops, gray.row(v));
    }
    Ok(tops)
}

/// Half of the greatest value near each tile of a band, rounded up, tile by tile from the left: of the greatest
/// value of each column over the band and its neighbours.
fn halves_of(
    alloc: Global,
    gray: &GrayView<'_>,
    down: usize,
    tops: &[u8],
) -> Result<Vec<u8>, AllocError>
    requires band { 64 * down < gray.now.height }
    requires tops { AreColumnTops gray.now (near_start down) (near_size down) tops.now }
    ensures { IfOk result (λ halves. AreHalves gray.now down halves.items) }
{
    let width = gray.width() as usize;
    let mut halves = Vec::with_capacity(alloc, (width + 63) / TILE)?;
    for across in 0..(width + 63) / TILE {
        let top = greatest(&tops[near_start(across)..near_end(across, width)]);
        halves.push(top / 2 + top % 2)?;
    }
    Ok(halves)
}

/// The greatest value of each column of the page over the rows of the band above a band of tiles, and over the
/// band's own.
#[derive(Drop)]
pub(crate) struct Tops {
    above: Vec<u8>,
    here: Vec<u8>,
}

/// Those of the first band, above which nothing is.
pub(crate) fn first_tops(alloc: Global, gray: &GrayView<'_>) -> Result<Tops, AllocError>
    ensures { IfOk result (AreTopsAt gray.now 0) }
{
    let above = vec![in alloc; 0u8; gray.width() as usize]?;
    let here = band_tops(alloc, gray, 0)?;
    Ok(Tops { above, here })
}

/// Half of the greatest value near each tile of a band, rounded up, tile by tile from the left. Goes on to the tops
/// of the next band.
pub(crate) fn next_halves(
    alloc: Global,
    gray: &GrayView<'_>,
    down: usize,
    tops: &mut Tops,
) -> Result<Vec<u8>, AllocError>
    requires within { down < 64 }
    requires band { 64 * down < gray.now.height }
    requires tops { AreTopsAt gray.now down tops.old }
    ensures halves { IfOk result (λ halves. AreHalves gray.now down halves.items) }
    ensures next { OnOk result (AreTopsAt gray.now (down + 1) tops.new) }
{
    let below = band_tops(alloc, gray, down + 1)?;
    raise(&mut tops.above, &tops.here);
    raise(&mut tops.above, &below);
    let halves = halves_of(alloc, gray, down, &tops.above)?;
    tops.above = replace(&mut tops.here, below);
    Ok(halves)
}
