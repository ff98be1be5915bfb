//! Laws of what `gray` writes. These functions do nothing; their contracts are the laws.

ghost use Rattle.vx_command_gray.specs.Bitmaps.{BitmapsAreWritten, BitmapsFit, BitmapsReadBack};

use vx_command::texts_in_order;
use vx_gray::{bits_fit, images_are_sized};
use vx_pbm::{raw_images_join, what_is_written_reads_back};

/// However far the acts of a `gray` are done, it wrote the bitmaps of its images in order, and these are read
/// back as the bits of the images; so each image that fits a printed page with some marks is read back as one
/// that fits it with those marks.
pub fn bitmaps_are_written()
    ensures written { BitmapsAreWritten }
    ensures read_back { BitmapsReadBack }
    ensures fit { BitmapsFit }
{
    texts_in_order();
    raw_images_join();
    what_is_written_reads_back();
    images_are_sized();
    bits_fit();
}
