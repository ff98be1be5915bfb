//! The law of simulated scans, for proofs that stand on this crate.

ghost use Rattle.vx_simulate.specs.Simulated.{SimulatedScansFit};

use vx_layout::printed_pages_keep_clear;
use vx_scan_model::bubbles_are_outlined;

/// Every simulated scan of a printed page fits that page, with the marks that were drawn, whatever the
/// state of the generator.
pub fn simulated_scans_fit()
    ensures { SimulatedScansFit }
{
    bubbles_are_outlined();
    printed_pages_keep_clear();
}
