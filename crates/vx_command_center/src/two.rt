ghost use Rattle.std.specs.Prelude.{◌≡◌, IfOk, None};
ghost use Rattle.vx_pbm.specs.Images.{images_left, with_page};
ghost use Rattle.vx_command_center.specs.Reads.{AreNext};

use vx_base::OutOfMemory;
use vx_pbm::{Image, PbmReader};

/// The images of a sheet.
#[derive(Drop)]
pub(crate) enum Two<'b> {
    /// Its front and its back, in either order.
    Both(Image<'b>, Image<'b>),
    /// A last image without a second.
    Single,
    /// None is left.
    AtEnd,
}

/// Lets an image go.
pub(crate) fn drop_image(_image: Image<'_>) {}

/// The images of a sheet, of which one was read.
fn second_of<'b>(reader: &mut PbmReader<'b>, first: Image<'b>) -> Result<Two<'b>, OutOfMemory>
    requires { (images_left reader.old).fault ≡ None }
    ensures { IfOk result (λ two.
        AreNext (with_page first.entry (images_left reader.old)) two (images_left reader.new)) }
{
    match reader.next() {
        Ok(Some(second)) => Ok(Two::Both(first, second)),
        Ok(None) => {
            drop_image(first);
            Ok(Two::Single)
        }
        Err(_no_memory) => {
            drop_image(first);
            Err(OutOfMemory)
        }
    }
}

/// The images of the next sheet of bitmaps that leave their grammar nowhere.
pub(crate) fn next_two<'b>(reader: &mut PbmReader<'b>) -> Result<Two<'b>, OutOfMemory>
    requires { (images_left reader.old).fault ≡ None }
    ensures { IfOk result (λ two. AreNext (images_left reader.old) two (images_left reader.new)) }
{
    match reader.next() {
        Ok(Some(first)) => second_of(reader, first),
        Ok(None) => Ok(Two::AtEnd),
        Err(_no_memory) => Err(OutOfMemory),
    }
}
