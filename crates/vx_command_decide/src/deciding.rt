ghost use Rattle.std.specs.Prelude.{◌≡◌, ◌∷◌, [], true, false, is_ok};
ghost use Rattle.std.specs.Option.{ForSome};
ghost use Rattle.vx_election_model.specs.Valid.{IsValid};
ghost use Rattle.vx_command.specs.Asking.{Asks};
ghost use Rattle.vx_command.specs.Devices.{LeavesDevices, writes_nothing};
ghost use Rattle.vx_command.specs.Done.{IsDone};
ghost use Rattle.vx_journal.specs.Steps.{once_read};
ghost use Rattle.vx_command_decide.specs.Outcome.{begun_outcome, decide_outcome, script_outcome};

use crate::lines::decide_lines;
use std::alloc::Global;
use vx_base::Bytes;
use vx_command::{Halt, acts_in_order, asks_in_order, steps_in_order, take_election, take_input};
use vx_election_model::{Election, drop_election};
use vx_io::{Inputs, Keeper, Sink};
use vx_journal::{Journal, begin_journal, drop_journal, journals_in_order, read_journal};
use vx_script::SCRIPT_LIMIT;

/// Takes the script and does its lines.
fn decide_script<I: Inputs, S: Sink, K: Keeper>(
    alloc: Global,
    election: &Election,
    journal: &mut Journal<'_>,
    script: &str,
    inputs: &mut I,
    out: &mut S,
    keeper: &mut K,
) -> Result<(), Halt>
    requires valid { IsValid election.now }
    requires same { journal.old.center.election ≡ election.now }
    ensures done { ForSome (I.held inputs.old) (λ files.
        IsDone (script_outcome election.now journal.old.center.events (files script.now))
        (S.taken out.old) (S.taken out.new) (K.held keeper.old) (K.held keeper.new) result) }
    ensures devices { LeavesDevices I.Inputs S.Sink K.Keeper inputs.old inputs.new out.old out.new
        keeper.old keeper.new result }
    ensures asked { Asks I.Inputs (script.now ∷ []) inputs.old inputs.new (is_ok result) }
    ensures late { writes_nothing false result ≡ false }
{
    asks_in_order::<I>();
    steps_in_order::<Bytes>();
    let bytes = take_input(Bytes::new(alloc), inputs, script, 2, SCRIPT_LIMIT)?;
    decide_lines(alloc, election, journal, bytes.as_slice(), out, keeper)
}

/// Begins the journal where no record was there, and does the script.
fn decide_begun<I: Inputs, S: Sink, K: Keeper>(
    alloc: Global,
    election: &Election,
    journal: &mut Journal<'_>,
    script: &str,
    inputs: &mut I,
    out: &mut S,
    keeper: &mut K,
) -> Result<(), Halt>
    requires valid { IsValid election.now }
    requires same { journal.old.center.election ≡ election.now }
    ensures done { ForSome (I.held inputs.old) (λ files.
        IsDone (begun_outcome election.now (files script.now) journal.old)
        (S.taken out.old) (S.taken out.new) (K.held keeper.old) (K.held keeper.new) result) }
    ensures devices { LeavesDevices I.Inputs S.Sink K.Keeper inputs.old inputs.new out.old out.new
        keeper.old keeper.new result }
    ensures asked { Asks I.Inputs (script.now ∷ []) inputs.old inputs.new (is_ok result) }
    ensures late { writes_nothing false result ≡ false }
{
    asks_in_order::<I>();
    acts_in_order();
    begin_journal(alloc, election, journal, keeper)?;
    decide_script(alloc, election, journal, script, inputs, out, keeper)
}

/// Reads the journal and does the script.
fn decide_for<I: Inputs, S: Sink, K: Keeper>(
    alloc: Global,
    election: &Election,
    script: &str,
    inputs: &mut I,
    out: &mut S,
    keeper: &mut K,
) -> Result<(), Halt>
    requires { IsValid election.now }
    ensures done { ForSome (I.held inputs.old) (λ files. ForSome (K.held keeper.old) (λ records.
        IsDone (once_read election.now records (begun_outcome election.now (files script.now)))
        (S.taken out.old) (S.taken out.new) (K.held keeper.old) (K.held keeper.new) result)) }
    ensures nothing_written { writes_nothing false result ≡ true → S.taken out.new ≡ S.taken out.old }
    ensures devices { LeavesDevices I.Inputs S.Sink K.Keeper inputs.old inputs.new out.old out.new
        keeper.old keeper.new result }
    ensures asked { Asks I.Inputs (script.now ∷ []) inputs.old inputs.new (is_ok result) }
{
    asks_in_order::<I>();
    journals_in_order();
    let mut journal = read_journal(alloc, election, keeper)?;
    let done = decide_begun(alloc, election, &mut journal, script, inputs, out, keeper);
    drop_journal(journal);
    done
}

/// Does the command `decide`: takes the election under its name, which is word 1, reads its journal
/// and begins it where it is empty, takes the script under its name, which is word 2, and does its
/// lines. Lines are counted from 1.
pub fn decide<I: Inputs, S: Sink, K: Keeper>(
    alloc: Global,
    election: &str,
    script: &str,
    inputs: &mut I,
    out: &mut S,
    keeper: &mut K,
) -> Result<(), Halt>
    ensures done { ForSome (I.held inputs.old) (λ files. ForSome (K.held keeper.old) (λ records.
        IsDone (decide_outcome election.now script.now files records)
        (S.taken out.old) (S.taken out.new) (K.held keeper.old) (K.held keeper.new) result)) }
    ensures nothing_written { writes_nothing false result ≡ true → S.taken out.new ≡ S.taken out.old }
    ensures devices { LeavesDevices I.Inputs S.Sink K.Keeper inputs.old inputs.new out.old out.new
        keeper.old keeper.new result }
    ensures asked { Asks I.Inputs (election.now ∷ script.now ∷ []) inputs.old inputs.new (is_ok result) }
{
    asks_in_order::<I>();
    steps_in_order::<Election>();
    let given = take_election(alloc, inputs, election)?;
    let done = decide_for(alloc, &given, script, inputs, out, keeper);
    drop_election(given);
    done
}
