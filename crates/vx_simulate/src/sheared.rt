//! The rows of a scan: the paper, sheared, with the flips changed.

ghost use Rattle.std.specs.Prelude.{◌≡◌, ◌<◌, ◌≤◌, ◌+◌, ◌-◌, ◌*◌, ◌/◌, ◌%◌, ◌==◌, ℕ, IfOk, All, length};
ghost use Rattle.std.specs.Prelude.{take, drop, nat_lt, if◌then◌else◌};
ghost use Rattle.std.specs.Int.{bit_at};
ghost use Rattle.vx_plane.specs.Plane.{page_of, dark_at};
ghost use Rattle.vx_bits.specs.Packed.{packed_pixel};
ghost use Rattle.vx_geom.specs.Slants.{slant_of};
ghost use Rattle.vx_geom.specs.Seen.{seen};
ghost use Rattle.vx_margin.specs.Flips.{differ};
ghost use Rattle.vx_simulate.specs.Lie.{IsShort};
ghost use Rattle.vx_simulate.specs.Rows.{AreStrips, ShowsRow, row_in};

use crate::margins::with_margins;
use crate::strips::{STRIDE, Strip, first_column, strips_of};
use rayon::prelude::*;
use std::alloc::Global;
use std::thread::Threads;
use vx_base::OutOfMemory;
use vx_bits::BitPage;
use vx_geom::Shear;

/// The bytes of a packed row of a scan: 1800 pixels.
const FRAME_STRIDE: usize = 225;

/// The bits of one byte where a mask has them, and those of another elsewhere.
fn chosen(here: u8, elsewhere: u8, mask: u8) -> u8
    ensures { (j : ℕ) → j < 8 → bit_at result j
        ≡ (if bit_at mask j == 1 then bit_at here j else bit_at elsewhere j) }
{
    (here & mask) | (elsewhere & !mask)
}

/// A row of the paper in its margins, each column moved as a row of a scan shows it.
fn slant_row(into: &mut [u8], rows: &[u8], strips: &[Strip], v: u32)
    requires into { length into.old ≡ 264 }
    requires strips { length strips.now ≡ 264 }
    requires row { v < 2840 }
    requires few { All (λ strip. strip.row < 272) strips.now }
    requires rows { (v + 273) * 264 ≤ length rows.now }
    ensures { (x : ℕ) → x < 2112
        → packed_pixel into.new 0 x ≡ packed_pixel rows.now ((v + row_in strips.now x) * 264) x }
{
    for k in 0..STRIDE {
        let strip = strips[k];
        let at = (v + strip.row) as usize * STRIDE + k;
        into[k] = chosen(rows[at + STRIDE], rows[at], strip.bits);
    }
}

/// Eight pixels of two bytes, from a pixel of the first on.
fn eight_from(first: u8, second: u8, skip: u32) -> u8
    requires { skip < 8 }
    ensures { (i : ℕ) → i < 8 → bit_at result (7 - i)
        ≡ (if nat_lt (skip + i) 8 then bit_at first (7 - (skip + i)) else bit_at second (15 - (skip + i))) }
{
    (first << skip) | (second >> 1 >> (7 - skip))
}

/// Changes each pixel of a scan's row where a row of pixels is dark, from a column of it on.
fn change_row(into: &mut [u8], row: &[u8], from: u32)
    requires into { length into.old ≡ 225 }
    requires row { length row.now ≡ 264 }
    requires from { from < 312 }
    ensures { (u : ℕ) → u < 1800 → packed_pixel into.new 0 u
        ≡ differ (packed_pixel into.old 0 u) (packed_pixel row.now 0 (from + u)) }
{
    let start = (from / 8) as usize;
    let skip = from % 8;
    for k in 0..FRAME_STRIDE {
        into[k] ^= eight_from(row[start + k], row[start + k + 1], skip);
    }
}

/// Changes each pixel of row `v` of a scan where the pixel of the paper is dark that it shows.
fn shear_row(into: &mut [u8], rows: &[u8], strips: &[Strip], shear: Shear, v: u32)
    requires into { length into.old ≡ 225 }
    requires shear { IsShort shear }
    requires row { v < 2840 }
    requires strips { AreStrips (slant_of shear) strips.now }
    requires rows { (v + 273) * 264 ≤ length rows.now }
    ensures { ShowsRow (slant_of shear) rows.now strips.now v into.old into.new }
{
    let mut slanted = [0; 264];
    slant_row(&mut slanted, rows, strips, v);
    change_row(into, &slanted, first_column(shear, v));
}

/// Changes each pixel of a scan where the pixel of the paper is dark that it shows, row by row in several
/// threads.
fn shear_rows<R: Threads + Sync>(
    rt: &R,
    scan: &mut [u8],
    rows: &[u8],
    strips: &[Strip],
    shear: Shear,
)
    requires shear { IsShort shear }
    requires strips { AreStrips (slant_of shear) strips.now }
    requires whole { length scan.old % 225 ≡ 0 }
    requires few { length scan.old ≤ 2840 * 225 }
    requires rows { (length scan.old / 225 + 272) * 264 ≤ length rows.now }
    ensures { (v : ℕ) → v * 225 < length scan.old → ShowsRow (slant_of shear) rows.now strips.now v
        (take 225 (drop (v * 225) scan.old)) (take 225 (drop (v * 225) scan.new)) }
{
    par_chunks_mut_for_each(
        rt,
        scan,
        FRAME_STRIDE,
        |at: usize, row: &mut [u8]|
            requires shear { IsShort shear }
            requires strips { AreStrips (slant_of shear) strips.now }
            requires size { length row.old ≡ 225 }
            requires start { at < 2840 * 225 }
            requires rows { (at / 225 + 273) * 264 ≤ length rows.now }
            ensures { ShowsRow (slant_of shear) rows.entry.now strips.entry.now (at / 225) row.old row.new }
        { shear_row(row, rows, strips, shear, (at / FRAME_STRIDE) as u32) },
    );
}

/// The rows of a scan: each pixel shows the paper at its preimage, light off the page, and the flips
/// are changed.
pub(crate) fn sheared_rows<R: Threads + Sync>(
    rt: &R,
    alloc: Global,
    shear: Shear,
    paper: &BitPage,
    flips: &BitPage,
) -> Result<BitPage, OutOfMemory>
    requires shear { IsShort shear }
    requires paper_width { paper.now.width ≡ 1700 }
    requires paper_height { paper.now.height ≤ 2800 }
    requires width { flips.now.width ≡ 1800 }
    requires height { flips.now.height ≤ paper.now.height + 40 }
    ensures { IfOk result (λ scan. scan ≡ page_of flips.now.width flips.now.height
        (λ u v. differ (dark_at flips.now u v) (seen (slant_of shear) (dark_at paper.now) u v))) }
{
    let margins = with_margins(alloc, paper)?;
    let strips = strips_of(alloc, shear)?;
    let rows = margins.view().rows();
    let strips = strips.as_slice();
    let mut scan = Vec::from_slice(alloc, flips.view().rows())?;
    shear_rows(rt, scan.as_mut_slice(), rows, strips, shear);
    Ok(BitPage::from_rows(flips.width(), flips.height(), scan))
}
