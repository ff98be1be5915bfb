ghost use Rattle.std.specs.Prelude.{◌≡◌, ◌<◌, ◌≤◌, ◌+◌, length, IfOk};
ghost use Rattle.vx_pbm.specs.Images.{images_left};
ghost use Rattle.vx_command_count.specs.Gathering.{Gathers, IsFilled, left_by};

use vx_base::OutOfMemory;
use vx_pbm::{Image, PbmFault, PbmReader};

/// How a gathering of images ended.
#[derive(Drop)]
pub(crate) enum Ended {
    /// There may be more of them.
    NotYet,
    /// The scan has no more.
    AtEnd,
    /// The scan leaves the grammar of bitmaps here.
    AtFault(PbmFault),
}

/// The most images that are held at a time: those of 64 sheets.
pub(crate) const MOST: usize = 128;

/// Adds the images of a scan that come next, until there are 128.
pub(crate) fn gather<'b>(
    images: &mut Vec<Image<'b>>,
    reader: &mut PbmReader<'b>,
) -> Result<Ended, OutOfMemory>
    requires { length images.old.items < 128 }
    ensures gathers { IfOk result (λ ended. Gathers images.old.items (images_left reader.old)
        images.new.items (left_by ended reader.new)) }
    ensures filled { IfOk result (IsFilled 128 images.new.items reader.old reader.new) }
    ensures few { length images.new.items ≤ 128 }
    // An image takes a byte at least.
    ensures room { IfOk result (λ ended. length images.new.items + length reader.new.text
        ≤ length images.old.items + length reader.old.text) }
{
    while images.len() < MOST {
        match reader.next() {
            Ok(Some(image)) => images.push(image)?,
            Ok(None) => return Ok(Ended::AtEnd),
            Err(PbmFault::OutOfMemory) => return Err(OutOfMemory),
            Err(fault) => return Ok(Ended::AtFault(fault)),
        }
    }
    Ok(Ended::NotYet)
}
