ghost use Rattle.std.specs.Prelude.{◌≡◌, ◌∷◌, [], true, false, is_ok};
ghost use Rattle.std.specs.Option.{ForSome};
ghost use Rattle.vx_election_model.specs.Valid.{IsValid};
ghost use Rattle.vx_command.specs.Asking.{Asks};
ghost use Rattle.vx_command.specs.Devices.{LeavesDevices, TouchesSinkAndKeeper, writes_nothing};
ghost use Rattle.vx_command.specs.Done.{IsDone};
ghost use Rattle.vx_cvr.specs.Pieces.{report_pieces};
ghost use Rattle.vx_journal.specs.Steps.{once_read};
ghost use Rattle.vx_command_export.specs.Outcome.{export_outcome, writing_each};

use crate::pieces::write_report;
use std::alloc::Global;
use vx_command::{Halt, asks_in_order, steps_in_order, take_election};
use vx_election_model::{Election, drop_election};
use vx_io::{Inputs, Keeper, Sink};
use vx_journal::{drop_journal, journals_in_order, read_journal};

/// Reads the journal and writes its report.
fn export_for<S: Sink, K: Keeper>(
    alloc: Global,
    election: &Election,
    moment: &str,
    device: &str,
    out: &mut S,
    keeper: &mut K,
) -> Result<(), Halt>
    requires { IsValid election.now }
    ensures done { ForSome (K.held keeper.old) (λ records.
        IsDone (once_read election.now records
        (λ journal. writing_each (report_pieces election.now journal.center.events moment.now device.now)))
        (S.taken out.old) (S.taken out.new) (K.held keeper.old) (K.held keeper.new) result) }
    ensures nothing_written { writes_nothing false result ≡ true → S.taken out.new ≡ S.taken out.old }
    ensures held { K.held keeper.new ≡ K.held keeper.old }
    ensures devices { TouchesSinkAndKeeper S.Sink K.Keeper out.old out.new keeper.old keeper.new result }
{
    journals_in_order();
    let journal = read_journal(alloc, election, keeper)?;
    let done = write_report(alloc, election, &journal.center, moment, device, out);
    drop_journal(journal);
    done
}

/// Does the command `export`: takes the election under its name, which is word 1, reads its journal,
/// and writes the report of its events, with a moment (`YYYY-MM-DDTHH:MM:SSZ`) and the device that
/// reports (its UUID in lower case with hyphens).
pub fn export<I: Inputs, S: Sink, K: Keeper>(
    alloc: Global,
    election: &str,
    moment: &str,
    device: &str,
    inputs: &mut I,
    out: &mut S,
    keeper: &mut K,
) -> Result<(), Halt>
    ensures done { ForSome (I.held inputs.old) (λ files. ForSome (K.held keeper.old) (λ records.
        IsDone (export_outcome election.now moment.now device.now files records)
        (S.taken out.old) (S.taken out.new) (K.held keeper.old) (K.held keeper.new) result)) }
    ensures nothing_written { writes_nothing false result ≡ true → S.taken out.new ≡ S.taken out.old }
    ensures held { K.held keeper.new ≡ K.held keeper.old }
    ensures devices { LeavesDevices I.Inputs S.Sink K.Keeper inputs.old inputs.new out.old out.new
        keeper.old keeper.new result }
    ensures asked { Asks I.Inputs (election.now ∷ []) inputs.old inputs.new (is_ok result) }
{
    asks_in_order::<I>();
    steps_in_order::<Election>();
    let given = take_election(alloc, inputs, election)?;
    let done = export_for(alloc, &given, moment, device, out, keeper);
    drop_election(given);
    done
}
