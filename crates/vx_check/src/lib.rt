//! Checking a reading of a scan, whoever made it: it is a certificate of the scan, or the first test that fails
//! says why not.
//!
//! What a certificate is stands in `specs/Certificate.antt` of `vx_scan_model`, the tests in their order in
//! `specs/Tests.antt` here. `check` answers exactly them, accepts exactly certificates, and so says nothing but
//! what the page says of every scan within the bounds of a printed page. It takes no memory and leaves the page
//! as it was.
#![tactic(auto)]

mod border;
mod bubbles;
mod checking;
mod code;
mod laws;
mod passing;

pub use checking::check;
pub use laws::{accepted_readings_are_certificates, certificates_are_accepted};
pub use vx_refusals::CheckFault;
