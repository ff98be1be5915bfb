ghost use Rattle.std.specs.Prelude.{◌≡◌, ◌∷◌, [], Bool, true, false, Ok, is_ok};
ghost use Rattle.std.specs.Option.{ForSome};
ghost use Rattle.vx_base.specs.Refusals.{Gives};
ghost use Rattle.vx_election_model.specs.Valid.{IsValid};
ghost use Rattle.vx_command.specs.Acts.{writing};
ghost use Rattle.vx_command.specs.Asking.{Asks};
ghost use Rattle.vx_command.specs.Devices.{LeavesDevices, TouchesNothing, TouchesSink, TouchesSinkAndKeeper, writes_nothing};
ghost use Rattle.vx_command.specs.Done.{IsDone, IsWritten};
ghost use Rattle.vx_command.specs.Steps.{is_no_memory};
ghost use Rattle.vx_journal.specs.Steps.{once_read};
ghost use Rattle.vx_account.specs.Outcome.{account_outcome};

use crate::account::Account;
use std::alloc::Global;
use vx_base::Bytes;
use vx_center::Center;
use vx_command::{Halt, acts_in_order, asks_in_order, steps_in_order, take_election, write_text};
use vx_election_model::{Election, drop_election};
use vx_io::{Inputs, Keeper, Sink};
use vx_journal::{drop_journal, journals_in_order, read_journal};

/// The text of an account, or why its command halts.
fn text_of<A: Account>(
    alloc: Global,
    account: &A,
    election: &Election,
    center: &Center<'_>,
) -> Result<Bytes, Halt>
    requires valid { IsValid election.now }
    requires same { center.now.election ≡ election.now }
    ensures exact { Gives is_no_memory result (Ok (A.says account.now election.now center.now.events)) }
    ensures devices { TouchesNothing result }
{
    let text = account.text(alloc, election, center)?;
    Ok(text)
}

/// Writes an account.
fn write_account<A: Account, S: Sink>(
    alloc: Global,
    account: &A,
    election: &Election,
    center: &Center<'_>,
    out: &mut S,
) -> Result<(), Halt>
    requires valid { IsValid election.now }
    requires same { center.now.election ≡ election.now }
    ensures done { IsWritten (writing (A.says account.now election.now center.now.events))
        (S.taken out.old) (S.taken out.new) result }
    ensures sink { TouchesSink S.Sink out.old out.new result }
    ensures late { (first : Bool) → writes_nothing first result ≡ false }
{
    acts_in_order();
    let text = text_of(alloc, account, election, center)?;
    write_text(out, text.as_slice())
}

/// Reads the journal and writes an account of it.
fn account_of<A: Account, S: Sink, K: Keeper>(
    alloc: Global,
    account: &A,
    election: &Election,
    out: &mut S,
    keeper: &mut K,
) -> Result<(), Halt>
    requires { IsValid election.now }
    ensures done { ForSome (K.held keeper.old) (λ records.
        IsDone (once_read election.now records
        (λ journal. writing (A.says account.now election.now journal.center.events)))
        (S.taken out.old) (S.taken out.new) (K.held keeper.old) (K.held keeper.new) result) }
    ensures nothing_written { writes_nothing false result ≡ true → S.taken out.new ≡ S.taken out.old }
    ensures held { K.held keeper.new ≡ K.held keeper.old }
    ensures devices { TouchesSinkAndKeeper S.Sink K.Keeper out.old out.new keeper.old keeper.new result }
{
    journals_in_order();
    let journal = read_journal(alloc, election, keeper)?;
    let done = write_account(alloc, account, election, &journal.center, out);
    drop_journal(journal);
    done
}

/// Does a command that takes the election under its name, which is word 1, reads its journal, and writes an account of
/// the events that it keeps. It halts as `take_election`, `read_journal` and `write_text` do, and at want of memory.
pub fn give_account<A: Account, I: Inputs, S: Sink, K: Keeper>(
    alloc: Global,
    account: &A,
    election: &str,
    inputs: &mut I,
    out: &mut S,
    keeper: &mut K,
) -> Result<(), Halt>
    ensures done { ForSome (I.held inputs.old) (λ files. ForSome (K.held keeper.old) (λ records.
        IsDone (account_outcome (A.says account.now) election.now files records)
        (S.taken out.old) (S.taken out.new) (K.held keeper.old) (K.held keeper.new) result)) }
    ensures nothing_written { writes_nothing false result ≡ true → S.taken out.new ≡ S.taken out.old }
    ensures held { K.held keeper.new ≡ K.held keeper.old }
    ensures devices { LeavesDevices I.Inputs S.Sink K.Keeper inputs.old inputs.new out.old out.new
        keeper.old keeper.new result }
    ensures asked { Asks I.Inputs (election.now ∷ []) inputs.old inputs.new (is_ok result) }
{
    asks_in_order::<I>();
    steps_in_order::<Election>();
    let given = take_election(alloc, inputs, election)?;
    let done = account_of(alloc, account, &given, out, keeper);
    drop_election(given);
    done
}
