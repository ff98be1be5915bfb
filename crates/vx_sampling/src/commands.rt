//! The two commands, each by what it asks.

ghost use Rattle.std.specs.Prelude.{◌≡◌, [], ◌∷◌, true, false, is_ok};
ghost use Rattle.std.specs.Option.{ForSome};
ghost use Rattle.vx_command.specs.Asking.{Asks};
ghost use Rattle.vx_command.specs.Devices.{LeavesDevices, writes_nothing};
ghost use Rattle.vx_command.specs.Done.{IsDone};
ghost use Rattle.vx_words.specs.Samples.{IsSeed, seed_bytes};
ghost use Rattle.vx_sampling.specs.RiskOutcome.{risk_outcome};
ghost use Rattle.vx_sampling.specs.SampleOutcome.{sample_outcome};

use crate::asking::{Told, asked_by};
use crate::walking::answer;
use std::alloc::Global;
use vx_command::Halt;
use vx_io::{Inputs, Keeper, Sink};

/// Does the command `sample`: takes the election under its name, which is word 1, reads its journal, takes what
/// hands read of its sheets under its name, which is word 4, and writes for each record that the first `size`
/// words of the generator with the seed draw, how what the record says compares with that. The seed is given
/// as its word, 64 hexadecimal digits in lower case.
pub fn sample<I: Inputs, S: Sink, K: Keeper>(
    alloc: Global,
    election: &str,
    seed: &str,
    size: u32,
    hand: &str,
    inputs: &mut I,
    out: &mut S,
    keeper: &mut K,
) -> Result<(), Halt>
    requires { IsSeed seed.now (seed_bytes seed.now) }
    ensures done { ForSome (I.held inputs.old) (λ files. ForSome (K.held keeper.old) (λ records.
        IsDone (sample_outcome election.now seed.now size hand.now files records)
        (S.taken out.old) (S.taken out.new) (K.held keeper.old) (K.held keeper.new) result)) }
    ensures nothing_written { writes_nothing false result ≡ true → S.taken out.new ≡ S.taken out.old }
    ensures held { K.held keeper.new ≡ K.held keeper.old }
    ensures devices { LeavesDevices I.Inputs S.Sink K.Keeper inputs.old inputs.new out.old out.new
        keeper.old keeper.new result }
    ensures asked { Asks I.Inputs (election.now ∷ hand.now ∷ []) inputs.old inputs.new (is_ok result) }
{
    let asked = asked_by(seed, size, Told::Comparison);
    answer(alloc, asked, election, hand, inputs, out, keeper)
}

/// Does the command `risk`: takes the election under its name, which is word 1, reads its journal, takes what
/// hands read of its sheets under its name, which is word 4, and writes for each contest what the draws that the
/// first `size` words of the generator with the seed make, with replacement, bound the risk of its outcome by,
/// and whether that is at most `limit` thousandths. The seed is given as its word, 64 hexadecimal digits in lower
/// case.
pub fn risk<I: Inputs, S: Sink, K: Keeper>(
    alloc: Global,
    election: &str,
    seed: &str,
    size: u32,
    hand: &str,
    limit: u32,
    inputs: &mut I,
    out: &mut S,
    keeper: &mut K,
) -> Result<(), Halt>
    requires { IsSeed seed.now (seed_bytes seed.now) }
    ensures done { ForSome (I.held inputs.old) (λ files. ForSome (K.held keeper.old) (λ records.
        IsDone (risk_outcome election.now seed.now size hand.now limit files records)
        (S.taken out.old) (S.taken out.new) (K.held keeper.old) (K.held keeper.new) result)) }
    ensures nothing_written { writes_nothing false result ≡ true → S.taken out.new ≡ S.taken out.old }
    ensures held { K.held keeper.new ≡ K.held keeper.old }
    ensures devices { LeavesDevices I.Inputs S.Sink K.Keeper inputs.old inputs.new out.old out.new
        keeper.old keeper.new result }
    ensures asked { Asks I.Inputs (election.now ∷ hand.now ∷ []) inputs.old inputs.new (is_ok result) }
{
    let asked = asked_by(seed, size, Told::Risk(limit));
    answer(alloc, asked, election, hand, inputs, out, keeper)
}
