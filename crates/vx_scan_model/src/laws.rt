//! Laws of borders and of scans that fit. These functions do nothing; their contracts are the laws.

ghost use Rattle.vx_scan_model.specs.Border.{BorderIsGiven, EachScanHasItsBorder};
ghost use Rattle.vx_scan_model.specs.Certificate.{ReadingsAreCertificates, CertificatesSayWhatFits, TurnedPagesAreNotCertified, PlacesAreTested};
ghost use Rattle.vx_scan_model.specs.Counted.{ShownPagesAreCounted};
ghost use Rattle.vx_scan_model.specs.Named.{NamedStandOnGrid, CodesNamePrintedPages};
ghost use Rattle.vx_scan_model.specs.Ink.{BubblesAreOutlined};
ghost use Rattle.vx_scan_model.specs.Fits.{TurnedPagesAreNone, FittingScansAreRead, FitsOnePage, ShearedPrintsFit, CleanPrintsFit};
ghost use Rattle.vx_scan_model.specs.Laws.{AreLaws, AreTurnedLaws};

use vx_code::{codes_are_given_back, no_bit_is_refused};
use vx_count::turned_twice_is_as_before;
use vx_layout::{
    planned_pages_can_be_printed, plans_have_the_elections_paper, plans_stand_on_the_grid,
    printed_pages_keep_clear,
};
use vx_margin::{
    borders_are_found, corner_chains_lie_at_marks, followed_places_are_chains,
    grid_places_lie_near, timing_marks_are_marks, turned_chains_lie_at_marks, turned_windows_hold,
    windows_hold,
};
use vx_mark_model::{a_list_is_followed, borders_are_one};

/// What is the border of a scan, or its first fault, is what the function of its page gives: so
/// there is one answer for each scan.
pub fn a_border_is_the_border()
    ensures { BorderIsGiven }
{
    a_list_is_followed();
    borders_are_one();
}

/// What the function of its page gives is the border of a scan, or its first fault: so each scan
/// has an answer.
pub fn every_scan_has_its_border()
    ensures { EachScanHasItsBorder }
{
    a_list_is_followed();
}

/// The laws of the crates below by which a scan that fits as it lies is read, and the further ones by which one
/// that fits when it is turned isn't read as it lies.
fn laws_below()
    ensures upright { AreLaws }
    ensures turned { AreTurnedLaws }
{
    a_list_is_followed();
    codes_are_given_back();
    no_bit_is_refused();
    planned_pages_can_be_printed();
    printed_pages_keep_clear();
    timing_marks_are_marks();
    borders_are_found();
    grid_places_lie_near();
    windows_hold();
    followed_places_are_chains();
    turned_chains_lie_at_marks();
    turned_windows_hold();
}

/// Where a scan fits a printed page with some marks when it is turned by 180 degrees, it has a fault as it lies.
pub fn turned_pages_are_none_as_they_lie()
    ensures { TurnedPagesAreNone }
{
    laws_below();
}

/// Of a scan that fits a printed page with some marks when it is turned by 180 degrees no reading whatever is a
/// certificate as it lies.
pub fn turned_pages_are_not_certified_as_they_lie()
    ensures { TurnedPagesAreNotCertified }
{
    laws_below();
}

/// In a scan that shows a printed page with its marks the printed and the blank boxes of the page code are told by
/// their counts, and the marked and the clear bubbles by their scores.
pub fn shown_pages_are_counted()
    ensures { ShownPagesAreCounted }
{
    laws_below();
}

/// Every scan that fits a printed page with its marks, as it lies or turned, is read as that page: its
/// marked bubbles are Marked and all others Clear. So a scan fits at most one page, with one set of marks.
pub fn fitting_scans_are_read()
    ensures read { FittingScansAreRead }
    ensures one { FitsOnePage }
{
    laws_below();
}

/// The bubbles of a page that a code names stand on the grid of the election's paper, and are fewer than
/// 1,000.
pub fn named_pages_stand_on_the_grid()
    ensures { NamedStandOnGrid }
{
    plans_stand_on_the_grid();
    plans_have_the_elections_paper();
    printed_pages_keep_clear();
}

/// A code that names a page, with the version of the election's paper, is that of a printed page, and the
/// code of a printed page names its plan.
pub fn codes_name_printed_pages()
    ensures { CodesNamePrintedPages }
{}

/// A place passes the test of a region exactly where it lies there, and that of acceptance exactly where it
/// is accepted.
pub fn places_are_tested()
    ensures { PlacesAreTested }
{}

/// What a scan is read as is a certificate of it.
pub fn readings_are_certificates()
    ensures { ReadingsAreCertificates }
{
    a_list_is_followed();
    followed_places_are_chains();
}

/// Every certificate of a scan, whoever made it, says the printed page that the scan fits, as it lies or
/// turned, and its marks: its said code is that page's, its marked bubbles are Marked and all others Clear.
pub fn certificates_say_what_fits()
    ensures { CertificatesSayWhatFits }
{
    laws_below();
    corner_chains_lie_at_marks();
    turned_twice_is_as_before();
}

/// The clean print of a planned page, sheared so that it stays in the frame, fits that page with no bubble
/// marked; and so it does as it is. So what `fitting_scans_are_read` says isn't said of nothing.
pub fn clean_prints_fit()
    ensures sheared { ShearedPrintsFit }
    ensures clean { CleanPrintsFit }
{
    printed_pages_keep_clear();
    timing_marks_are_marks();
}

/// In the zone of a bubble of a planned page nothing is printed but its outline.
pub fn bubbles_are_outlined()
    ensures { BubblesAreOutlined }
{
    printed_pages_keep_clear();
    timing_marks_are_marks();
}
