ghost use Rattle.std.specs.Prelude.{◌≡◌, ◌≤◌, ◌∷◌, true, false, length, is_ok};
ghost use Rattle.std.specs.Option.{ForSome};
ghost use Rattle.vx_election_model.specs.Valid.{IsValid};
ghost use Rattle.vx_command.specs.Asking.{Asks};
ghost use Rattle.vx_command.specs.Devices.{TouchesInputsAndSink, writes_nothing};
ghost use Rattle.vx_command.specs.Done.{IsWritten};
ghost use Rattle.vx_command.specs.Elections.{once_planned};
ghost use Rattle.vx_command_read.specs.Outcome.{scans_outcome, read_outcome};

use crate::scans::read_scans;
use std::alloc::Global;
use vx_command::{Halt, asks_in_order, plan_all, steps_in_order, take_election};
use vx_election_model::{Election, drop_election};
use vx_io::{Inputs, Sink};
use vx_json::Texts;
use vx_layout::{CardPlans, drop_plans};

/// Plans all cards of the election and reads the scans.
fn read_planned<I: Inputs, S: Sink>(
    alloc: Global,
    election: &Election,
    scans: &Texts,
    inputs: &mut I,
    out: &mut S,
) -> Result<(), Halt>
    requires election { IsValid election.now }
    requires few { length scans.now ≤ 64 }
    ensures done { ForSome (I.held inputs.old) (λ files.
        IsWritten (once_planned election.now (scans_outcome election.now files 2 1 scans.now))
        (S.taken out.old) (S.taken out.new) result) }
    ensures nothing_written { writes_nothing false result ≡ true → S.taken out.new ≡ S.taken out.old }
    ensures devices { TouchesInputsAndSink I.Inputs S.Sink inputs.old inputs.new out.old out.new result }
    ensures asked { Asks I.Inputs scans.now inputs.old inputs.new (is_ok result) }
{
    asks_in_order::<I>();
    steps_in_order::<CardPlans>();
    let plans = plan_all(alloc, election)?;
    let done = read_scans(alloc, election, &plans, scans.as_slice(), inputs, out);
    drop_plans(plans);
    done
}

/// Does the command `read`: takes the election under its name, plans all its cards, and writes what
/// each image of the scans under their names is read as, or its fault. The election is word 1, the
/// scans are the words from 2 on.
pub fn read<I: Inputs, S: Sink>(
    alloc: Global,
    election: &str,
    scans: &Texts,
    inputs: &mut I,
    out: &mut S,
) -> Result<(), Halt>
    requires { length scans.now ≤ 64 }
    ensures done { ForSome (I.held inputs.old) (λ files.
        IsWritten (read_outcome election.now scans.now files)
        (S.taken out.old) (S.taken out.new) result) }
    ensures nothing_written { writes_nothing false result ≡ true → S.taken out.new ≡ S.taken out.old }
    ensures devices { TouchesInputsAndSink I.Inputs S.Sink inputs.old inputs.new out.old out.new result }
    ensures asked { Asks I.Inputs (election.now ∷ scans.now) inputs.old inputs.new (is_ok result) }
{
    asks_in_order::<I>();
    steps_in_order::<Election>();
    let given = take_election(alloc, inputs, election)?;
    let done = read_planned(alloc, &given, scans, inputs, out);
    drop_election(given);
    done
}
