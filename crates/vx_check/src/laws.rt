//! Laws of what is accepted. These functions do nothing; their contracts are the laws.

ghost use Rattle.vx_check.specs.Accepted.{AcceptedAreCertificates, CertificatesAreAccepted};

use vx_code::{codes_are_given_back, read_codes_are_shown};
use vx_mark_model::accepted_places_are_framed;
use vx_scan_model::{codes_name_printed_pages, places_are_tested};

/// A reading that passes all tests of a page is a certificate of it.
pub fn accepted_readings_are_certificates()
    ensures { AcceptedAreCertificates }
{
    accepted_places_are_framed();
    codes_are_given_back();
    codes_name_printed_pages();
    places_are_tested();
}

/// Every certificate of a page passes all tests of it.
pub fn certificates_are_accepted()
    ensures { CertificatesAreAccepted }
{
    accepted_places_are_framed();
    codes_are_given_back();
    read_codes_are_shown();
    codes_name_printed_pages();
    places_are_tested();
}
