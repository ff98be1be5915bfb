ghost use Rattle.std.specs.Prelude.{◌≡◌, ◌∷◌, [], true, false, is_ok};
ghost use Rattle.std.specs.Option.{ForSome};
ghost use Rattle.vx_command.specs.Asking.{Asks};
ghost use Rattle.vx_command.specs.Devices.{LeavesDevices, writes_nothing};
ghost use Rattle.vx_command.specs.Done.{IsDone};
ghost use Rattle.vx_command_queue.specs.Outcome.{queue_outcome};

use crate::lines::push_count;
use crate::walk::waiting_lines;
use std::alloc::Global;
use vx_account::{Account, give_account};
use vx_base::{Bytes, OutOfMemory};
use vx_center::Center;
use vx_command::Halt;
use vx_election_model::Election;
use vx_io::{Inputs, Keeper, Sink};

/// What `queue` writes of a journal: what waits.
struct WhatWaits;

impl Account for WhatWaits {
    ghost use Rattle.vx_command_queue.specs.Queue.{queue_text};

    ghost says = { λ _. queue_text };

    fn text(
        &self,
        alloc: Global,
        election: &Election,
        center: &Center<'_>,
    ) -> Result<Bytes, OutOfMemory> {
        let mut queue = waiting_lines(alloc, election, center)?;
        push_count(&mut queue.text, queue.count)?;
        Ok(Bytes::from_vec(queue.text.into_bytes()))
    }
}

/// Does the command `queue`: takes the election under its name, which is word 1, reads its journal,
/// and writes the contests that wait for a decision, in order, and then how many they are.
pub fn queue<I: Inputs, S: Sink, K: Keeper>(
    alloc: Global,
    election: &str,
    inputs: &mut I,
    out: &mut S,
    keeper: &mut K,
) -> Result<(), Halt>
    ensures done { ForSome (I.held inputs.old) (λ files. ForSome (K.held keeper.old) (λ records.
        IsDone (queue_outcome election.now files records)
        (S.taken out.old) (S.taken out.new) (K.held keeper.old) (K.held keeper.new) result)) }
    ensures nothing_written { writes_nothing false result ≡ true → S.taken out.new ≡ S.taken out.old }
    ensures held { K.held keeper.new ≡ K.held keeper.old }
    ensures devices { LeavesDevices I.Inputs S.Sink K.Keeper inputs.old inputs.new out.old out.new
        keeper.old keeper.new result }
    ensures asked { Asks I.Inputs (election.now ∷ []) inputs.old inputs.new (is_ok result) }
{
    give_account(alloc, &WhatWaits, election, inputs, out, keeper)
}
