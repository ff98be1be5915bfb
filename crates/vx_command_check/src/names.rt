ghost use Rattle.std.specs.Prelude.{◌≡◌, ◌+◌, ◌<◌, ◌≤◌, ◌^◌, drop, length, Ok, MatchResult};
ghost use Rattle.vx_layout.specs.Plans.{ArePlansOf};
ghost use Rattle.vx_command_check.specs.Answers as answers;

use vx_command::Halt;
use vx_election_model::Election;
use vx_layout::{Bubble, CardPlans};
use vx_readings::{BubbleName, SaidReading};
use vx_refusals::CertFault;
use vx_scan_model::find_plan;

/// Whether a line names the bubble at a place.
fn is_named(name: BubbleName, bubbles: &[Bubble], place: usize) -> bool
    ensures { result ≡ answers.is_named name (drop place bubbles.now) }
{
    match bubbles.get(place) {
        Some(bubble) => name.contest == bubble.contest && name.option == bubble.option,
        None => false,
    }
}

/// The first line, from one on, that names another bubble than the plan.
fn other_name(first: u32, names: &[BubbleName], bubbles: &[Bubble]) -> Option<u32>
    requires { first + length names.now < 2 ^ 32 }
    ensures { result ≡ answers.other_name first names.now bubbles.now }
{
    for place in 0..names.len() {
        if !is_named(names[place], bubbles, place) {
            return Some(first + place as u32);
        }
    }
    None
}

/// Whether no line names another bubble, or the first that does.
fn name_halt(other: Option<u32>) -> Result<(), Halt>
    ensures { result ≡ answers.name_halt other }
{
    match other {
        None => Ok(()),
        Some(line) => Err(Halt::NotCertified(CertFault::Line(line))),
    }
}

/// Whether the bubbles that a block's lines name are those of the page that it says.
pub(crate) fn check_names(
    election: &Election,
    plans: &CardPlans,
    said: &SaidReading,
) -> Result<(), Halt>
    requires plans { ArePlansOf election.now plans.now }
    requires lines { said.now.first_bubble + length said.now.names < 2 ^ 32 }
    ensures { result ≡ answers.names_checked election.now said.now }
{
    let names = said.names.as_slice();
    match find_plan(election, plans, said.reading.code) {
        Ok(plan) => name_halt(other_name(said.first_bubble, names, plan.bubbles.as_slice())),
        Err(_) => name_halt(other_name(said.first_bubble, names, &[])),
    }
}
