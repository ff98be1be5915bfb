ghost use Rattle.std.specs.Prelude.{◌≤◌, length};
ghost use Rattle.vx_gray.specs.Images.{unread_from};
ghost use Rattle.vx_gray.specs.Step.{Finds};

use crate::fault::PgmFault;
use crate::image::image_at;
use crate::view::GrayView;

/// An image, and the offset behind it.
#[derive(Drop)]
pub(crate) struct Step<'b> {
    pub(crate) page: GrayView<'b>,
    pub(crate) at: usize,
}

/// The first image of what is unread of the bytes.
pub(crate) fn first_step<'b>(bytes: &'b [u8], at: usize) -> Result<Option<Step<'b>>, PgmFault>
    requires { at ≤ length bytes.now }
    ensures { Finds bytes.now (unread_from bytes.now at) result }
{
    let text = &bytes[at..];
    if text.is_empty() {
        return Ok(None);
    }
    if !text.starts_with(b"P5") {
        return Err(PgmFault::BadMagic(at as u64));
    }
    let (page, size) = image_at(at, text)?;
    Ok(Some(Step {
        page,
        at: at + size,
    }))
}
