ghost use Rattle.std.specs.Prelude.{◌≡◌, ◌∷◌, [], true, IfOk, is_ok};
ghost use Rattle.std.specs.Option.{ForSome};
ghost use Rattle.vx_base.specs.Refusals.{Gives};
ghost use Rattle.vx_election_model.specs.Valid.{IsValid};
ghost use Rattle.vx_layout.specs.Pages.{IsNumbered};
ghost use Rattle.vx_layout.specs.Plan.{plan_of};
ghost use Rattle.vx_command.specs.Asking.{Asks};
ghost use Rattle.vx_command.specs.Devices.{TouchesInputsAndSink, TouchesNothing, TouchesSink, writes_nothing};
ghost use Rattle.vx_command.specs.Done.{IsWritten};
ghost use Rattle.vx_command.specs.Steps.{is_no_memory};
ghost use Rattle.vx_command_print.specs.Outcome.{card_made, card_outcome, print_outcome};

use crate::ballot::Ballot;
use crate::pages::print_pages;
use std::alloc::Global;
use vx_command::{Halt, asks_in_order, halt_of_card, steps_in_order, take_election};
use vx_election_model::{Election, drop_election};
use vx_io::{Inputs, Sink};
use vx_layout::{CardFault, CardPlan, drop_plan, plan_card};

/// The plan of a card, or why `print` halts.
fn plan_for(alloc: Global, election: &Election, card: u32) -> Result<CardPlan, Halt>
    requires { IsValid election.now }
    ensures exact { Gives is_no_memory result (card_made card (plan_of election.now card)) }
    ensures numbered { IfOk result (IsNumbered card) }
    ensures devices { TouchesNothing result }
{
    match plan_card(alloc, election, card) {
        Ok(plan) => Ok(plan),
        Err(fault) => Err(halt_of_card(CardFault { card, fault })),
    }
}

/// Plans a card of the election and prints its pages.
fn print_card<S: Sink>(
    alloc: Global,
    election: &Election,
    ballot: Ballot,
    out: &mut S,
) -> Result<(), Halt>
    requires { IsValid election.now }
    ensures done { IsWritten (card_outcome election.now ballot)
        (S.taken out.old) (S.taken out.new) result }
    ensures nothing_written { writes_nothing true result ≡ true → S.taken out.new ≡ S.taken out.old }
    ensures sink { TouchesSink S.Sink out.old out.new result }
{
    steps_in_order::<CardPlan>();
    let plan = plan_for(alloc, election, ballot.card)?;
    let done = print_pages(alloc, election, ballot, plan.pages.as_slice(), out);
    drop_plan(plan);
    done
}

/// Does the command `print`: takes the election under its name, and writes the ballot's pages as raw
/// bitmaps.
pub fn print<I: Inputs, S: Sink>(
    alloc: Global,
    election: &str,
    ballot: Ballot,
    inputs: &mut I,
    out: &mut S,
) -> Result<(), Halt>
    ensures done { ForSome (I.held inputs.old) (λ files.
        IsWritten (print_outcome election.now ballot files)
        (S.taken out.old) (S.taken out.new) result) }
    ensures nothing_written { writes_nothing true result ≡ true → S.taken out.new ≡ S.taken out.old }
    ensures devices { TouchesInputsAndSink I.Inputs S.Sink inputs.old inputs.new out.old out.new result }
    ensures asked { Asks I.Inputs (election.now ∷ []) inputs.old inputs.new (is_ok result) }
{
    asks_in_order::<I>();
    steps_in_order::<Election>();
    let given = take_election(alloc, inputs, election)?;
    let done = print_card(alloc, &given, ballot, out);
    drop_election(given);
    done
}
