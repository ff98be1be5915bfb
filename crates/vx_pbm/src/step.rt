ghost use Rattle.std.specs.Prelude.{◌≡◌, ◌<◌, ◌≤◌, ◌^◌, ◌+◌, length, drop, true, false};
ghost use Rattle.vx_pbm.specs.Images.{unread_from, goes_on};
ghost use Rattle.vx_pbm.specs.Raster.{is_raw, is_plain};
ghost use Rattle.vx_pbm.specs.Step.{Finds};

use crate::fault::PbmFault;
use crate::header::is_space;
use crate::image::Image;
use crate::lent::raw_image;
use crate::plain::plain_image;
use std::alloc::Global;

/// An image, the offset behind it, and whether it is a plain one.
#[derive(Drop)]
pub(crate) struct Step<'b> {
    pub(crate) image: Image<'b>,
    pub(crate) at: usize,
    pub(crate) behind_plain: bool,
}

/// Whether something else than whitespace follows directly, as none may behind a plain image.
fn goes_on(text: &[u8]) -> bool
    ensures { result ≡ goes_on text.now }
{
    !text.is_empty() && !is_space(text[0])
}

/// The plain image that the bytes are.
fn plain_step<'b>(alloc: Global, bytes: &'b [u8]) -> Result<Option<Step<'b>>, PbmFault>
    requires magic { is_plain bytes.now ≡ true }
    requires room { 2 ≤ length bytes.now }
    ensures { Finds bytes.now (unread_from bytes.now 0 false) result }
{
    let (page, at) = plain_image(alloc, bytes)?;
    Ok(Some(Step {
        image: Image::made(page),
        at,
        behind_plain: true,
    }))
}

/// The raw image that stands in the bytes at an offset.
fn raw_step<'b>(bytes: &'b [u8], at: usize) -> Result<Option<Step<'b>>, PbmFault>
    requires magic { is_raw (drop at bytes.now) ≡ true }
    requires room { at + 2 ≤ length bytes.now }
    ensures { Finds bytes.now (unread_from bytes.now at false) result }
{
    let (page, size) = raw_image(at, &bytes[at..])?;
    Ok(Some(Step {
        image: Image::lent(page),
        at: at + size,
        behind_plain: false,
    }))
}

/// The first image of what is unread of the bytes.
pub(crate) fn first_step<'b>(
    alloc: Global,
    bytes: &'b [u8],
    at: usize,
    behind_plain: bool,
) -> Result<Option<Step<'b>>, PbmFault>
    requires { at ≤ length bytes.now }
    ensures { Finds bytes.now (unread_from bytes.now at behind_plain) result }
{
    let text = &bytes[at..];
    if behind_plain {
        return if goes_on(text) {
            Err(PbmFault::TrailingPlain(at as u64))
        } else {
            Ok(None)
        };
    }
    if text.is_empty() {
        return Ok(None);
    }
    if at == 0 && text.starts_with(b"P1") {
        return plain_step(alloc, bytes);
    }
    if text.starts_with(b"P4") {
        return raw_step(bytes, at);
    }
    Err(PbmFault::BadMagic(at as u64))
}
