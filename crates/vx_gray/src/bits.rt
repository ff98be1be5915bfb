ghost use Rattle.std.specs.Prelude.{◌≡◌, ◌+◌, ◌*◌, ◌/◌, ◌<◌, IfOk, OnOk, take, min};
ghost use Rattle.std.specs.List.{flat_map};
ghost use Rattle.vx_bits.specs.Packed.{packed_row};
ghost use Rattle.vx_gray.specs.Gray.{bits_of};
ghost use Rattle.vx_gray.specs.Near.{AreTopsAt};

use crate::near::{TILE, Tops, first_tops, next_halves};
use crate::packing::append_row;
use crate::view::GrayView;
use std::alloc::{AllocError, Global};
use vx_bits::{BitPage, rasters_show_their_pages};

/// Appends the packed rows of a band of tiles to those above it, and goes on to the tops of the next band. After
/// want of memory some of them may stand at the end.
fn append_band(
    alloc: Global,
    gray: &GrayView<'_>,
    down: usize,
    tops: &mut Tops,
    rows: &mut Vec<u8>,
) -> Result<(), AllocError>
    requires band { 64 * down < gray.now.height }
    requires tops { AreTopsAt gray.now down tops.old }
    requires above { rows.old.items ≡ flat_map packed_row (take (64 * down) (bits_of gray.now).rows) }
    ensures next { OnOk result (AreTopsAt gray.now (down + 1) tops.new) }
    ensures rows { OnOk result
        (rows.new.items ≡ flat_map packed_row (take (min (64 * (down + 1)) gray.now.height) (bits_of gray.now).rows)) }
{
    let height = gray.height() as usize;
    let halves = next_halves(alloc, gray, down, tops)?;
    for v in TILE * down..(TILE * (down + 1)).min(height) {
        append_row(gray.row(v), halves.as_slice(), rows)?;
    }
    Ok(())
}

/// The bitmap of a grayscale page: a pixel is dark where it has less than half of the greatest value of
/// its tile of 64 by 64 pixels and the tiles round that. Takes the memory of the bitmap, and three bytes for
/// each column.
pub fn to_bits(alloc: Global, gray: &GrayView<'_>) -> Result<BitPage, AllocError>
    ensures { IfOk result (λ page. page ≡ bits_of gray.now) }
{
    let height = gray.height() as usize;
    let size = height * ((gray.width() as usize + 7) / 8);
    let mut rows = Vec::with_capacity(alloc, size)?;
    let mut tops = first_tops(alloc, gray)?;
    for down in 0..(height + 63) / TILE {
        append_band(alloc, gray, down, &mut tops, &mut rows)?;
    }
    rasters_show_their_pages();
    Ok(BitPage::from_rows(gray.width(), gray.height(), rows))
}
