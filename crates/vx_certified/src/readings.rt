//! Laws of readings that are checked. These functions do nothing; their contracts are the laws.

ghost use Rattle.vx_certified.specs.Certified.{WrittenReadingsAreCertified};
ghost use Rattle.vx_certified.specs.Sayable.{ReadingsAreSayable, FaultsAreOneLine};

use vx_check::certificates_are_accepted;
use vx_command::taken_elections_are_valid;
use vx_layout::{planned_pages_can_be_printed, plans_stand_on_the_grid};
use vx_mark_model::accepted_places_are_framed;
use vx_readings::written_readings_are_read_back;
use vx_scan_model::{
    codes_name_printed_pages, every_scan_has_its_border, named_pages_stand_on_the_grid,
    readings_are_certificates,
};

/// What a scan is read as has the numbers that a block of readings can say.
pub fn readings_are_sayable()
    ensures { ReadingsAreSayable }
{
    accepted_places_are_framed();
    every_scan_has_its_border();
    readings_are_certificates();
    plans_stand_on_the_grid();
    named_pages_stand_on_the_grid();
    codes_name_printed_pages();
    planned_pages_can_be_printed();
}

/// The text of every fault of a page stands on one line, and has at least a byte.
pub fn faults_are_one_line()
    ensures { FaultsAreOneLine }
{}

/// Wherever `read` of one file of scans ends well, `check` of what it wrote accepts all of it, where that is
/// no longer than an input may be: it writes `page N certified` for each image that was read and
/// `page N no reading` for each that has a fault, in order, and ends well.
pub fn written_readings_are_certified()
    ensures { WrittenReadingsAreCertified }
{
    written_readings_are_read_back();
    readings_are_certificates();
    certificates_are_accepted();
    readings_are_sayable();
    faults_are_one_line();
    taken_elections_are_valid();
}
