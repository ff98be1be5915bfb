ghost use Rattle.std.specs.Prelude.{IfErr, IfOk};
ghost use Rattle.vx_base.specs.Refusals.{Gives};
ghost use Rattle.vx_election_model.specs.Valid.{IsValid};
ghost use Rattle.vx_layout.specs.Plans.{ArePlansOf};
ghost use Rattle.vx_command.specs.Devices.{TouchesNothing};
ghost use Rattle.vx_command.specs.Elections.{plans_in};
ghost use Rattle.vx_command.specs.Steps.{is_no_memory, IsPlanHalt};

use crate::halt::{Halt, halt_of_card};
use std::alloc::Global;
use vx_election_model::Election;
use vx_layout::{CardPlans, plan_cards};

/// The plans of all cards of an election, in order, or why a command that needs them halts.
pub fn plan_all(alloc: Global, election: &Election) -> Result<CardPlans, Halt>
    requires { IsValid election.now }
    ensures exact { Gives is_no_memory result (plans_in election.now) }
    ensures are_plans { IfOk result (ArePlansOf election.now) }
    ensures halts { IfErr result IsPlanHalt }
    ensures devices { TouchesNothing result }
{
    match plan_cards(alloc, election) {
        Ok(plans) => Ok(plans),
        Err(fault) => Err(halt_of_card(fault)),
    }
}
