ghost use Rattle.std.specs.Prelude.{◌≡◌, ◌-◌, ◌*◌, ◌/◌, ◌%◌, ◌+◌, ◌<◌, ◌≤◌, ◌^◌, length, take, pos, true, if◌then◌else◌, IfOk};
ghost use Rattle.vx_base.specs.Refusals.{Gives};
ghost use Rattle.vx_plane.specs.Plane.{page_of, dark_at, nowhere, with_pixel};
ghost use Rattle.vx_pbm.specs.Faults.{is_no_memory};
ghost use Rattle.vx_pbm.specs.Raster.{is_pixel, raster_end, pixels_in, listed, plain_image, IsSized};

use crate::fault::PbmFault;
use crate::header::is_space;
use crate::lent::in_size;
use std::alloc::Global;
use vx_bits::BitPage;

/// Whether a byte is a pixel of a plain raster.
fn is_pixel(byte: u8) -> bool
    ensures { result ≡ is_pixel byte }
{
    byte == b'0' || byte == b'1'
}

/// Makes one pixel dark where it is, counted row after row; else the page stays as it is.
fn put(page: &mut BitPage, index: u32, dark: bool)
    requires { index < page.old.height * page.old.width }
    ensures { page.new ≡ (if dark then page_of page.old.width page.old.height
        (with_pixel (dark_at page.old) (pos (index % page.old.width)) (pos (index / page.old.width)) true)
        else page.old) }
{
    if dark {
        let width = page.width();
        page.set_dark(index % width, index / width, true);
    }
}

/// Puts the pixels of a plain raster, which stands at an offset of the bytes, on a light page. The
/// answer is the offset behind the last one.
fn fill(page: &mut BitPage, offset: usize, raster: &[u8]) -> Result<usize, PbmFault>
    requires light { page.old ≡ page_of page.old.width page.old.height nowhere }
    requires offset { offset + length raster.now < 2 ^ 64 }
    ensures exact { result ≡ raster_end (page.old.height * page.old.width) 0 offset raster.now }
    ensures filled { IfOk result (λ end. page.new ≡ page_of page.old.width page.old.height
        (listed page.old.width (pixels_in (take (end - offset) raster.now)))) }
    ensures within { IfOk result (λ end. (offset ≤ end) × (end ≤ offset + length raster.now)) }
{
    let need = page.height() * page.width();
    let mut have: u32 = 0;
    for (i, byte) in raster.iter().enumerate() {
        if have == need {
            return Ok(offset + i);
        }
        if is_pixel(*byte) {
            put(page, have, *byte == b'1');
            have += 1;
        } else if !is_space(*byte) {
            return Err(PbmFault::BadPixel((offset + i) as u64));
        }
    }
    if have < need {
        return Err(PbmFault::Truncated(u64::from(have), u64::from(need)));
    }
    Ok(offset + raster.len())
}

/// The page of a plain image that the bytes are, and the offset behind its last pixel. The bytes
/// begin with a magic.
#[tactic(auto, unfolding(crate::specs::Raster::plain_image))]
pub(crate) fn plain_image(alloc: Global, bytes: &[u8]) -> Result<(BitPage, usize), PbmFault>
    requires { 2 ≤ length bytes.now }
    ensures exact { Gives is_no_memory result (plain_image bytes.now) }
    ensures within { IfOk result (λ found. found.1 ≤ length bytes.now) }
    ensures sized { IfOk result (λ found. IsSized found.0.width found.0.height) }
{
    let header = in_size(0, bytes)?;
    let mut page = BitPage::new(alloc, header.width, header.height)?;
    let end = fill(&mut page, header.size, &bytes[header.size..])?;
    Ok((page, end))
}
