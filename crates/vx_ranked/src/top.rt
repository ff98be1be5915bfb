ghost use Rattle.std.specs.Prelude.{◌≡◌, ◌↔◌, ◌∷◌, [], true, ℕ, List, false, is_ok, Some};
ghost use Rattle.vx_io.specs.Outside.{Files};
ghost use Rattle.vx_command.specs.Asking.{Asks};
ghost use Rattle.vx_command.specs.Devices.{LeavesDevices};
ghost use Rattle.vx_ranked.specs.Done.{IsRankedDone};
ghost use Rattle.vx_ranked.specs.Outcome.{ranked_outcome};
ghost use Rattle.vx_ranked.specs.Status.{ended_of, may_have_written};
ghost use Rattle.vx_ranked.specs.Words.{NoRanked, SpellsRanked};

use crate::status::{RankedStatus, status_of};
use crate::taking::rank;
use crate::words::ranked_words;
use std::alloc::Global;
use vx_command::asks_in_order;
use vx_io::{Inputs, Keeper, Sink, Words};

/// Does the command `ranked`, whole: reads its words, takes the election, whose cards it plans, reads its
/// journal, takes the file of ranked contests, and writes for each of its groups how many sheets have a
/// ranking and how many wait, the rounds of the count, and who won.
///
/// Where the inputs and the keeper tell what they hold, the acts of the outcome are done in order: all of
/// them, and the status is the outcome's; or up to one at which a device failed, with that device's fault as
/// the status, or before which memory ran out. A device's count of faults rises where the status is its
/// fault, and stands still otherwise. Nothing is written before the last input is accepted, and nothing is
/// appended.
pub fn run_ranked<I: Inputs, S: Sink, K: Keeper>(
    alloc: Global,
    words: &Words,
    inputs: &mut I,
    out: &mut S,
    keeper: &mut K,
) -> RankedStatus
    ensures usage { (result ≡ RankedStatus.Usage) ↔ NoRanked words.now }
    ensures done { (files : Files) → I.held inputs.old ≡ Some files →
        (records : List (List ℕ)) → K.held keeper.old ≡ Some records →
        (election ranked : List ℕ) → SpellsRanked words.now election ranked →
        IsRankedDone (ranked_outcome election ranked files records)
        (S.taken out.old) (S.taken out.new) (K.held keeper.old) (K.held keeper.new) (ended_of result) }
    // Of inputs and keepers that don't tell, too.
    ensures nothing_written { may_have_written (ended_of result) ≡ false → S.taken out.new ≡ S.taken out.old }
    ensures nothing_appended { K.held keeper.new ≡ K.held keeper.old }
    ensures devices { LeavesDevices I.Inputs S.Sink K.Keeper inputs.old inputs.new out.old out.new
        keeper.old keeper.new (ended_of result) }
    ensures asked { (election ranked : List ℕ) → SpellsRanked words.now election ranked →
        Asks I.Inputs (election ∷ ranked ∷ []) inputs.old inputs.new (is_ok (ended_of result)) }
    ensures usage_writes_nothing { result ≡ RankedStatus.Usage → S.taken out.new ≡ S.taken out.old }
    ensures usage_asks_nothing { result ≡ RankedStatus.Usage → Asks I.Inputs [] inputs.old inputs.new true }
{
    asks_in_order::<I>();
    match ranked_words(words) {
        None => RankedStatus::Usage,
        Some((election, ranked)) => {
            status_of(rank(alloc, election, ranked, inputs, out, keeper))
        }
    }
}
