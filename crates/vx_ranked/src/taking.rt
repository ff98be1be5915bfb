ghost use Rattle.std.specs.Prelude.{◌≡◌, ◌∷◌, [], false, is_ok, IfErr};
ghost use Rattle.std.specs.Option.{ForSome};
ghost use Rattle.vx_election_model.specs.Valid.{IsValid};
ghost use Rattle.vx_layout.specs.Plans.{ArePlansOf};
ghost use Rattle.vx_command.specs.Asking.{Asks};
ghost use Rattle.vx_command.specs.Devices.{LeavesDevices, TouchesInputsAndSink};
ghost use Rattle.vx_ranked.specs.Done.{IsRankedDone, IsRankedWritten};
ghost use Rattle.vx_ranked.specs.Outcome.{file_outcome, journal_outcome, planned_outcome, ranked_outcome};
ghost use Rattle.vx_ranked.specs.Status.{may_have_written, IsStop};

use crate::fault::RankedFault;
use crate::writing::write_rounds;
use std::alloc::Global;
use vx_base::Bytes;
use vx_center::Center;
use vx_command::{
    Halt, INPUT_LIMIT, asks_in_order, plan_all, steps_in_order, take_election, take_input,
};
use vx_election_model::{Election, drop_election};
use vx_io::{Inputs, Keeper, Sink};
use vx_journal::{drop_journal, journals_in_order, read_journal};
use vx_layout::{CardPlans, drop_plans};

/// Takes the file of ranked contests under its name, which is word 2, and writes the rounds of its groups.
fn rank_file<I: Inputs, S: Sink>(
    alloc: Global,
    election: &Election,
    plans: &CardPlans,
    center: &Center<'_>,
    ranked: &str,
    inputs: &mut I,
    out: &mut S,
) -> Result<Option<RankedFault>, Halt>
    requires valid { IsValid election.now }
    requires plans { ArePlansOf election.now plans.now }
    requires same { center.now.election ≡ election.now }
    ensures done { ForSome (I.held inputs.old) (λ files.
        IsRankedWritten (file_outcome election.now plans.now center.now.events (files ranked.now))
        (S.taken out.old) (S.taken out.new) result) }
    ensures stops { IfErr result IsStop }
    ensures nothing_written { may_have_written result ≡ false → S.taken out.new ≡ S.taken out.old }
    ensures devices { TouchesInputsAndSink I.Inputs S.Sink inputs.old inputs.new out.old out.new result }
    ensures asked { Asks I.Inputs (ranked.now ∷ []) inputs.old inputs.new (is_ok result) }
{
    asks_in_order::<I>();
    steps_in_order::<Bytes>();
    let bytes = take_input(Bytes::new(alloc), inputs, ranked, 2, INPUT_LIMIT)?;
    write_rounds(alloc, election, plans, center, bytes.as_slice(), out)
}

/// Reads the journal, and writes the rounds of the groups of a file.
fn rank_journal<I: Inputs, S: Sink, K: Keeper>(
    alloc: Global,
    election: &Election,
    plans: &CardPlans,
    ranked: &str,
    inputs: &mut I,
    out: &mut S,
    keeper: &mut K,
) -> Result<Option<RankedFault>, Halt>
    requires valid { IsValid election.now }
    requires plans { ArePlansOf election.now plans.now }
    ensures done { ForSome (I.held inputs.old) (λ files. ForSome (K.held keeper.old) (λ records.
        IsRankedDone (journal_outcome election.now plans.now (files ranked.now) records)
        (S.taken out.old) (S.taken out.new) (K.held keeper.old) (K.held keeper.new) result)) }
    ensures stops { IfErr result IsStop }
    ensures nothing_written { may_have_written result ≡ false → S.taken out.new ≡ S.taken out.old }
    ensures held { K.held keeper.new ≡ K.held keeper.old }
    ensures devices { LeavesDevices I.Inputs S.Sink K.Keeper inputs.old inputs.new out.old out.new
        keeper.old keeper.new result }
    ensures asked { Asks I.Inputs (ranked.now ∷ []) inputs.old inputs.new (is_ok result) }
{
    asks_in_order::<I>();
    journals_in_order();
    let journal = read_journal(alloc, election, keeper)?;
    let done = rank_file(alloc, election, plans, &journal.center, ranked, inputs, out);
    drop_journal(journal);
    done
}

/// Plans the cards of an election, and writes the rounds of the groups of the file by its journal.
fn rank_planned<I: Inputs, S: Sink, K: Keeper>(
    alloc: Global,
    election: &Election,
    ranked: &str,
    inputs: &mut I,
    out: &mut S,
    keeper: &mut K,
) -> Result<Option<RankedFault>, Halt>
    requires { IsValid election.now }
    ensures done { ForSome (I.held inputs.old) (λ files. ForSome (K.held keeper.old) (λ records.
        IsRankedDone (planned_outcome election.now (files ranked.now) records)
        (S.taken out.old) (S.taken out.new) (K.held keeper.old) (K.held keeper.new) result)) }
    ensures stops { IfErr result IsStop }
    ensures nothing_written { may_have_written result ≡ false → S.taken out.new ≡ S.taken out.old }
    ensures held { K.held keeper.new ≡ K.held keeper.old }
    ensures devices { LeavesDevices I.Inputs S.Sink K.Keeper inputs.old inputs.new out.old out.new
        keeper.old keeper.new result }
    ensures asked { Asks I.Inputs (ranked.now ∷ []) inputs.old inputs.new (is_ok result) }
{
    asks_in_order::<I>();
    steps_in_order::<CardPlans>();
    let plans = plan_all(alloc, election)?;
    let done = rank_journal(alloc, election, &plans, ranked, inputs, out, keeper);
    drop_plans(plans);
    done
}

/// Takes the election under its name, which is word 1, plans its cards, and writes the rounds of the groups
/// of the file under the other name by its journal.
pub(crate) fn rank<I: Inputs, S: Sink, K: Keeper>(
    alloc: Global,
    election: &str,
    ranked: &str,
    inputs: &mut I,
    out: &mut S,
    keeper: &mut K,
) -> Result<Option<RankedFault>, Halt>
    ensures done { ForSome (I.held inputs.old) (λ files. ForSome (K.held keeper.old) (λ records.
        IsRankedDone (ranked_outcome election.now ranked.now files records)
        (S.taken out.old) (S.taken out.new) (K.held keeper.old) (K.held keeper.new) result)) }
    ensures stops { IfErr result IsStop }
    ensures nothing_written { may_have_written result ≡ false → S.taken out.new ≡ S.taken out.old }
    ensures held { K.held keeper.new ≡ K.held keeper.old }
    ensures devices { LeavesDevices I.Inputs S.Sink K.Keeper inputs.old inputs.new out.old out.new
        keeper.old keeper.new result }
    ensures asked { Asks I.Inputs (election.now ∷ ranked.now ∷ []) inputs.old inputs.new (is_ok result) }
{
    asks_in_order::<I>();
    steps_in_order::<Election>();
    let given = take_election(alloc, inputs, election)?;
    let done = rank_planned(alloc, &given, ranked, inputs, out, keeper);
    drop_election(given);
    done
}
