//! Laws of what `demo` says. These functions do nothing; their contracts are the laws.

ghost use Rattle.vx_certified.specs.Truth.{DemoElection, DemoPagesAreTrue, DemoSaysSo, DemosSaySo};

use vx_check::certificates_are_accepted;
use vx_command::texts_in_order;
use vx_election::defined_elections_are_valid;
use vx_layout::{planned_pages_can_be_printed, plans_are_numbered, plans_of_are_plans};
use vx_scan_model::{fitting_scans_are_read, readings_are_certificates};
use vx_simulate::simulated_scans_fit;

/// From every seed each page of every demo is read as its card, page and marks, and the checker accepts
/// what it is read as.
pub fn demo_pages_are_true()
    ensures { DemoPagesAreTrue }
{
    defined_elections_are_valid();
    plans_are_numbered();
    plans_of_are_plans();
    planned_pages_can_be_printed();
    simulated_scans_fit();
    fitting_scans_are_read();
    readings_are_certificates();
    certificates_are_accepted();
}

/// However far the acts of `demo` are done, what it wrote says `pages N as truth N certified N`, where its
/// election was read and its cards planned.
pub fn demo_says_so()
    ensures { DemoSaysSo }
{
    demo_pages_are_true();
    texts_in_order();
}

/// The election that `demo` makes is read, and its three cards can be planned.
pub fn demo_has_three_cards()
    ensures { DemoElection }
{}

/// Every demo says of the two pages of each of its sheets that all were read as they were printed and marked,
/// and all certified.
pub fn demos_say_so()
    ensures { DemosSaySo }
{
    demo_says_so();
    demo_has_three_cards();
}
