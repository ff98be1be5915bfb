ghost use Rattle.std.specs.Prelude.{◌≡◌, ◌+◌, ◌<◌, ◌≤◌, ◌^◌, length, IfOk};
ghost use Rattle.vx_pbm.specs.Raster.{IsSized};
ghost use Rattle.vx_gray.specs.Header.{header_at, IsHeader};
ghost use Rattle.vx_gray.specs.Images.{in_bounds, raster, image_at};

use crate::fault::PgmFault;
use crate::header::{Header, header_at};
use crate::view::GrayView;

/// The header of an image that begins at an offset of the bytes, where its greatest value is a byte
/// and no side is above 4096.
#[tactic(auto, unfolding(crate::specs::Images::in_bounds))]
fn in_bounds(at: usize, text: &[u8]) -> Result<Header, PgmFault>
    requires magic { 2 ≤ length text.now }
    requires offset { at + length text.now < 2 ^ 64 }
    ensures exact { result ≡ in_bounds at (header_at text.now) }
    ensures header { IfOk result (λ header. IsHeader text.now header) }
    ensures sized { IfOk result (λ header. IsSized header.width header.height) }
{
    match header_at(text) {
        Err(offset) => Err(PgmFault::BadHeader((at + offset) as u64)),
        Ok(header) => {
            if header.maxval > 255 {
                Err(PgmFault::BadMaxval(header.maxval))
            } else if header.width <= 4096 && header.height <= 4096 {
                Ok(header)
            } else {
                Err(PgmFault::SizeTooLarge(header.width, header.height))
            }
        }
    }
}

/// The page of the raster behind a header, and the number of bytes up to its end.
#[tactic(auto, unfolding(crate::specs::Images::raster))]
fn raster<'b>(header: Header, text: &'b [u8]) -> Result<(GrayView<'b>, usize), PgmFault>
    requires header { IsHeader text.now header }
    requires sized { IsSized header.width header.height }
    ensures exact { result ≡ raster header text.now }
    ensures within { IfOk result (λ found. found.1 ≤ length text.now) }
{
    let bytes = &text[header.size..];
    let need = header.height as usize * header.width as usize;
    if bytes.len() < need {
        return Err(PgmFault::Truncated(bytes.len() as u64, need as u64));
    }
    let page = GrayView::new(header.width, header.height, &bytes[..need]);
    Ok((page, header.size + need))
}

/// The page of an image that begins a text, and the number of its bytes. The text begins with a
/// magic and stands at an offset of the bytes.
#[tactic(auto, unfolding(crate::specs::Images::image_at))]
pub(crate) fn image_at<'b>(at: usize, text: &'b [u8]) -> Result<(GrayView<'b>, usize), PgmFault>
    requires magic { 2 ≤ length text.now }
    requires offset { at + length text.now < 2 ^ 64 }
    ensures exact { result ≡ image_at at text.now }
    ensures within { IfOk result (λ found. found.1 ≤ length text.now) }
{
    let header = in_bounds(at, text)?;
    raster(header, text)
}
