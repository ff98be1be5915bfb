//! Laws of what `check` writes. These functions do nothing; their contracts are the laws.

ghost use Rattle.vx_command_check.specs.Margin.{CertifiedPagesSayWhatFits};

use vx_check::accepted_readings_are_certificates;
use vx_command::{taken_elections_are_valid, texts_in_order};
use vx_pbm::images_are_whole;
use vx_scan_model::certificates_say_what_fits;

/// However far the acts of `check` are done, it wrote lines of pages, and where the line of an image that
/// fits a printed page with some marks is `certified`, the readings say that page of it, with those marks.
pub fn certified_pages_say_what_fits()
    ensures { CertifiedPagesSayWhatFits }
{
    accepted_readings_are_certificates();
    texts_in_order();
    taken_elections_are_valid();
    images_are_whole();
    certificates_say_what_fits();
}
