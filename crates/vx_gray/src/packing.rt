ghost use Rattle.std.specs.Prelude.{◌≡◌, ◌+◌, ◌/◌, ◌≤◌, ◌++◌, OnOk, length};
ghost use Rattle.vx_bits.specs.Packed.{packed_row};
ghost use Rattle.vx_gray.specs.Packing.{below, row_below};

use crate::near::TILE;
use std::alloc::AllocError;
use std::simd::prelude::*;

/// The pixels of a whole tile's row packed, the first of them the highest bit: those with a value below a number
/// are dark.
#[inline]
fn whole_tile(pixels: &[u8], half: u8) -> [u8; 8]
    requires { length pixels.now ≡ 64 }
    ensures { result ≡ packed_row (below half pixels.now) }
{
    let last_first = u8x64::from_slice(pixels).reverse();
    last_first
        .simd_lt(u8x64::splat(half))
        .to_bitmask()
        .to_be_bytes()
}

/// Appends the packed pixels of a tile's row: those with a value below a number are dark. After want of
/// memory some of them may stand at the end.
fn append_tile(pixels: &[u8], half: u8, into: &mut Vec<u8>) -> Result<(), AllocError>
    requires { length pixels.now ≤ 64 }
    ensures { OnOk result (into.new.items ≡ into.old.items ++ packed_row (below half pixels.now)) }
{
    if pixels.len() == TILE {
        return into.extend_from_slice(&whole_tile(pixels, half));
    }
    let mut tile = [255u8; TILE];
    tile[..pixels.len()].copy_from_slice(pixels);
    into.extend_from_slice(&whole_tile(&tile, half)[..(pixels.len() + 7) / 8])
}

/// Appends the packed pixels of a row: those with a value below the number of their tile are dark. After
/// want of memory some of them may stand at the end.
pub(crate) fn append_row(pixels: &[u8], halves: &[u8], into: &mut Vec<u8>) -> Result<(), AllocError>
    requires { length halves.now ≡ (length pixels.now + 63) / 64 }
    ensures { OnOk result (into.new.items ≡ into.old.items ++ packed_row (row_below halves.now pixels.now)) }
{
    for across in 0..halves.len() {
        let end = (TILE * (across + 1)).min(pixels.len());
        append_tile(&pixels[TILE * across..end], halves[across], into)?;
    }
    Ok(())
}
