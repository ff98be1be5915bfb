ghost use Rattle.std.specs.Prelude.{◌≡◌, ◌≤◌, ◌∷◌, true, false, length, is_ok};
ghost use Rattle.std.specs.Option.{ForSome};
ghost use Rattle.vx_election_model.specs.Valid.{IsValid};
ghost use Rattle.vx_layout.specs.Plans.{ArePlansOf};
ghost use Rattle.vx_command.specs.Asking.{Asks};
ghost use Rattle.vx_command.specs.Devices.{TouchesInputsAndSink, writes_nothing};
ghost use Rattle.vx_command.specs.Done.{IsWritten};
ghost use Rattle.vx_command.specs.Elections.{once_planned};
ghost use Rattle.vx_command_try.specs.Outcome.{tried_outcome, try_outcome};
ghost use Rattle.vx_command_try.specs.Setting.{IsSet};

use crate::setting::Setting;
use crate::work::Trying;
use std::alloc::Global;
use vx_command::{Halt, asks_in_order, plan_all, steps_in_order, take_election};
use vx_election_model::{Election, drop_election};
use vx_io::{Inputs, Sink};
use vx_json::Texts;
use vx_layout::{CardPlans, drop_plans, plans_show_each_option};
use vx_walk::walk_scans;

/// The word of the first scan.
const FIRST_SCAN: u32 = 2;

/// What stays the same over a `try` of planned cards.
fn set_up<'a>(election: &'a Election, plans: &'a CardPlans) -> Setting<'a>
    requires election { IsValid election.now }
    requires plans { ArePlansOf election.now plans.now }
    ensures set { IsSet result }
    ensures election { result.election.now ≡ election.now }
{
    plans_show_each_option();
    Setting { election, plans }
}

/// Tries the scans.
fn try_scans<I: Inputs, S: Sink>(
    alloc: Global,
    setting: &Setting<'_>,
    scans: &Texts,
    inputs: &mut I,
    out: &mut S,
) -> Result<(), Halt>
    requires set { IsSet setting.now }
    requires few { length scans.now ≤ 64 }
    ensures done { ForSome (I.held inputs.old) (λ files.
        IsWritten (tried_outcome setting.now.election.now files scans.now) (S.taken out.old) (S.taken out.new) result) }
    ensures devices { TouchesInputsAndSink I.Inputs S.Sink inputs.old inputs.new out.old out.new result }
    ensures asked { Asks I.Inputs scans.now inputs.old inputs.new (is_ok result) }
    ensures late { writes_nothing false result ≡ false }
{
    let mut trying = Trying::new(alloc, *setting);
    walk_scans(
        alloc,
        &mut trying,
        scans.as_slice(),
        FIRST_SCAN,
        inputs,
        out,
    )
}

/// Plans all cards of the election and tries the scans.
fn try_planned<I: Inputs, S: Sink>(
    alloc: Global,
    election: &Election,
    scans: &Texts,
    inputs: &mut I,
    out: &mut S,
) -> Result<(), Halt>
    requires election { IsValid election.now }
    requires few { length scans.now ≤ 64 }
    ensures done { ForSome (I.held inputs.old) (λ files.
        IsWritten (once_planned election.now (tried_outcome election.now files scans.now))
        (S.taken out.old) (S.taken out.new) result) }
    ensures nothing_written { writes_nothing false result ≡ true → S.taken out.new ≡ S.taken out.old }
    ensures devices { TouchesInputsAndSink I.Inputs S.Sink inputs.old inputs.new out.old out.new result }
    ensures asked { Asks I.Inputs scans.now inputs.old inputs.new (is_ok result) }
{
    asks_in_order::<I>();
    steps_in_order::<CardPlans>();
    let plans = plan_all(alloc, election)?;
    let setting = set_up(election, &plans);
    let done = try_scans(alloc, &setting, scans, inputs, out);
    drop_plans(plans);
    done
}

/// Does the command `try`: takes the election under its name, plans all its cards, and reads the images of
/// the scans under their names two by two, as `count` does: it writes a line for each sheet, and how many
/// there are. At the first images that are no sheet it says why, and halts; nothing behind them is read or
/// taken. It keeps nothing. The election is word 1, the scans are the words from 2 on.
pub fn try_sheets<I: Inputs, S: Sink>(
    alloc: Global,
    election: &str,
    scans: &Texts,
    inputs: &mut I,
    out: &mut S,
) -> Result<(), Halt>
    requires { length scans.now ≤ 64 }
    ensures done { ForSome (I.held inputs.old) (λ files.
        IsWritten (try_outcome election.now scans.now files)
        (S.taken out.old) (S.taken out.new) result) }
    ensures nothing_written { writes_nothing false result ≡ true → S.taken out.new ≡ S.taken out.old }
    ensures devices { TouchesInputsAndSink I.Inputs S.Sink inputs.old inputs.new out.old out.new result }
    ensures asked { Asks I.Inputs (election.now ∷ scans.now) inputs.old inputs.new (is_ok result) }
{
    asks_in_order::<I>();
    steps_in_order::<Election>();
    let given = take_election(alloc, inputs, election)?;
    let done = try_planned(alloc, &given, scans, inputs, out);
    drop_election(given);
    done
}
