//! The demo election as it is read, and what its plans say.

ghost use Rattle.std.specs.Prelude.{◌≡◌, ◌≤◌, IfOk, length};
ghost use Rattle.vx_base.specs.Refusals.{Gives};
ghost use Rattle.vx_election_model.specs.Valid.{IsValid};
ghost use Rattle.vx_command.specs.Devices.{TouchesNothing};
ghost use Rattle.vx_command.specs.Steps.{is_no_memory};
ghost use Rattle.vx_command_demo.specs.Outcome.{election_defined};
ghost use Rattle.vx_command_demo.specs.Summary as spec;

use crate::election::demo_text;
use std::alloc::Global;
use vx_command::Halt;
use vx_election::{ElectionFault, read_election};
use vx_election_model::Election;
use vx_layout::CardPlan;

/// The demo election, read from the text of its definition, or why `demo` halts.
#[tactic(auto, unfolding(crate::specs::Outcome::election_defined))]
pub(crate) fn read_demo(alloc: Global) -> Result<Election, Halt>
    ensures exact { Gives is_no_memory result election_defined }
    ensures valid { IfOk result IsValid }
    ensures devices { TouchesNothing result }
{
    let text = demo_text(alloc)?;
    match read_election(alloc, text.as_slice()) {
        Ok(election) => Ok(election),
        Err(ElectionFault::OutOfMemory) => Err(Halt::NoMemory),
        Err(fault) => Err(Halt::Election(fault)),
    }
}

/// How many characters of the texts of cards are drawn as the hollow box.
pub(crate) fn hollow_in(plans: &[CardPlan]) -> u64
    requires { length plans.now ≤ 1024 }
    ensures { result ≡ spec.hollow_in plans.now }
{
    let mut hollow = 0;
    for plan in plans {
        hollow += u64::from(plan.hollow);
    }
    hollow
}
