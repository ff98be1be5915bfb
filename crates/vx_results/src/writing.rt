ghost use Rattle.std.specs.Prelude.{◌≡◌, ◌∷◌, [], true, false, is_ok, string_bytes};
ghost use Rattle.std.specs.Option.{ForSome};
ghost use Rattle.vx_command.specs.Asking.{Asks};
ghost use Rattle.vx_command.specs.Devices.{LeavesDevices, writes_nothing};
ghost use Rattle.vx_command.specs.Done.{IsDone};
ghost use Rattle.vx_results.specs.Outcome.{results_outcome, summary_outcome};

use crate::summarizing::summary_text;
use crate::telling::results_text;
use std::alloc::Global;
use vx_account::{Account, give_account};
use vx_base::{Bytes, OutOfMemory};
use vx_center::Center;
use vx_command::Halt;
use vx_election_model::Election;
use vx_io::{Inputs, Keeper, Sink};

/// The bytes of a text.
fn bytes_of(text: String) -> Bytes
    ensures { result ≡ string_bytes text }
{
    Bytes::from_vec(text.into_bytes())
}

/// What `results` writes of a journal.
struct ResultsAccount;

impl Account for ResultsAccount {
    ghost use Rattle.vx_results.specs.Results.{results_text};

    ghost says = { λ _. results_text };

    fn text(
        &self,
        alloc: Global,
        election: &Election,
        center: &Center<'_>,
    ) -> Result<Bytes, OutOfMemory> {
        let text = results_text(alloc, election, center)?;
        Ok(bytes_of(text))
    }
}

/// What `summary` writes of a journal.
struct SummaryAccount;

impl Account for SummaryAccount {
    ghost use Rattle.vx_results.specs.Summary.{summary_text};

    ghost says = { λ _. summary_text };

    fn text(
        &self,
        alloc: Global,
        election: &Election,
        center: &Center<'_>,
    ) -> Result<Bytes, OutOfMemory> {
        let text = summary_text(alloc, election, center)?;
        Ok(bytes_of(text))
    }
}

/// Does the command `results`: takes the election under its name, which is word 1, reads its journal, and
/// writes the totals of what the report of its events says, and then how many contests wait.
pub fn results<I: Inputs, S: Sink, K: Keeper>(
    alloc: Global,
    election: &str,
    inputs: &mut I,
    out: &mut S,
    keeper: &mut K,
) -> Result<(), Halt>
    ensures done { ForSome (I.held inputs.old) (λ files. ForSome (K.held keeper.old) (λ records.
        IsDone (results_outcome election.now files records)
        (S.taken out.old) (S.taken out.new) (K.held keeper.old) (K.held keeper.new) result)) }
    ensures nothing_written { writes_nothing false result ≡ true → S.taken out.new ≡ S.taken out.old }
    ensures held { K.held keeper.new ≡ K.held keeper.old }
    ensures devices { LeavesDevices I.Inputs S.Sink K.Keeper inputs.old inputs.new out.old out.new
        keeper.old keeper.new result }
    ensures asked { Asks I.Inputs (election.now ∷ []) inputs.old inputs.new (is_ok result) }
{
    give_account(alloc, &ResultsAccount, election, inputs, out, keeper)
}

/// Does the command `summary`: takes the election under its name, which is word 1, reads its journal, and
/// writes how many sheets were added by unit and kind and by batch, the votes, over votes and undervotes of each
/// contest by unit and kind and the names that were written in, and then how many contests wait.
pub fn summary<I: Inputs, S: Sink, K: Keeper>(
    alloc: Global,
    election: &str,
    inputs: &mut I,
    out: &mut S,
    keeper: &mut K,
) -> Result<(), Halt>
    ensures done { ForSome (I.held inputs.old) (λ files. ForSome (K.held keeper.old) (λ records.
        IsDone (summary_outcome election.now files records)
        (S.taken out.old) (S.taken out.new) (K.held keeper.old) (K.held keeper.new) result)) }
    ensures nothing_written { writes_nothing false result ≡ true → S.taken out.new ≡ S.taken out.old }
    ensures held { K.held keeper.new ≡ K.held keeper.old }
    ensures devices { LeavesDevices I.Inputs S.Sink K.Keeper inputs.old inputs.new out.old out.new
        keeper.old keeper.new result }
    ensures asked { Asks I.Inputs (election.now ∷ []) inputs.old inputs.new (is_ok result) }
{
    give_account(alloc, &SummaryAccount, election, inputs, out, keeper)
}
