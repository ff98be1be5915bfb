//! Laws of what `read` writes. These functions do nothing; their contracts are the laws.

ghost use Rattle.vx_command_read.specs.Margin.{FittingScansAreTold};

use vx_command::{scanned_images_are_whole, taken_elections_are_valid, texts_in_order};
use vx_scan_model::{codes_name_printed_pages, fitting_scans_are_read};

/// However far the acts of `read` are done, what it wrote tells each image that fits a printed page with
/// some marks as that page, with those marks.
pub fn fitting_scans_are_told()
    ensures { FittingScansAreTold }
{
    texts_in_order();
    taken_elections_are_valid();
    scanned_images_are_whole();
    codes_name_printed_pages();
    fitting_scans_are_read();
}
