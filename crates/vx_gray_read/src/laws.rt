//! Laws of grayscale scans that are read. These functions do nothing; their contracts are the laws.

ghost use Rattle.vx_gray_read.specs.Told.{BitmapsAreImages, GrayScansAreTold};

use vx_command_gray::bitmaps_are_written;
use vx_command_read::fitting_scans_are_told;

/// Wherever a `gray` of scans met no fault of a device and had memory, and a file holds what it wrote, `read` of that
/// file, and perhaps of more, comes to the bits of each of its images in order; and of each image that fits a printed
/// page with some marks it writes the block of that page, with those marks, in its place.
pub fn gray_scans_are_told()
    ensures images { BitmapsAreImages }
    ensures told { GrayScansAreTold }
{
    bitmaps_are_written();
    fitting_scans_are_told();
}
