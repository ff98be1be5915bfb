ghost use Rattle.std.specs.Prelude.{◌≡◌, ◌+◌, ◌<◌, ◌≤◌, ◌^◌, length, IfOk};
ghost use Rattle.vx_pbm.specs.Header.{header_at, IsHeader};
ghost use Rattle.vx_pbm.specs.Raster.{in_size, raw_raster, raw_image, IsSized};

use crate::fault::PbmFault;
use crate::header::{Header, header_at};
use vx_bits::BitView;

/// The header of an image that begins at an offset of the bytes, where no side is above 4096.
#[tactic(auto, unfolding(crate::specs::Raster::in_size))]
pub(crate) fn in_size(at: usize, text: &[u8]) -> Result<Header, PbmFault>
    requires magic { 2 ≤ length text.now }
    requires offset { at + length text.now < 2 ^ 64 }
    ensures exact { result ≡ in_size at (header_at text.now) }
    ensures header { IfOk result (λ header. IsHeader text.now header) }
    ensures sized { IfOk result (λ header. IsSized header.width header.height) }
{
    match header_at(text) {
        Err(offset) => Err(PbmFault::BadHeader((at + offset) as u64)),
        Ok(header) => {
            if header.width <= 4096 && header.height <= 4096 {
                Ok(header)
            } else {
                Err(PbmFault::SizeTooLarge(header.width, header.height))
            }
        }
    }
}

/// The page of the raster behind a header, and the number of bytes up to its end.
#[tactic(auto, unfolding(crate::specs::Raster::raw_raster))]
fn raw_raster<'b>(header: Header, text: &'b [u8]) -> Result<(BitView<'b>, usize), PbmFault>
    requires header { IsHeader text.now header }
    requires sized { IsSized header.width header.height }
    ensures exact { result ≡ raw_raster header text.now }
    ensures within { IfOk result (λ found. found.1 ≤ length text.now) }
    ensures sized { IfOk result (λ found. IsSized found.0.width found.0.height) }
{
    let raster = &text[header.size..];
    let need = header.height as usize * ((header.width as usize + 7) / 8);
    if raster.len() < need {
        return Err(PbmFault::Truncated(raster.len() as u64, need as u64));
    }
    let page = BitView::new(header.width, header.height, &raster[..need]);
    Ok((page, header.size + need))
}

/// The page of a raw image that begins a text, and the number of its bytes. The text begins with
/// a magic and stands at an offset of the bytes.
#[tactic(auto, unfolding(crate::specs::Raster::raw_image))]
pub(crate) fn raw_image<'b>(at: usize, text: &'b [u8]) -> Result<(BitView<'b>, usize), PbmFault>
    requires magic { 2 ≤ length text.now }
    requires offset { at + length text.now < 2 ^ 64 }
    ensures exact { result ≡ raw_image at text.now }
    ensures within { IfOk result (λ found. found.1 ≤ length text.now) }
    ensures sized { IfOk result (λ found. IsSized found.0.width found.0.height) }
{
    let header = in_size(at, text)?;
    raw_raster(header, text)
}
