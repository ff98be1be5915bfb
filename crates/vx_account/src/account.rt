ghost use Rattle.std.specs.Prelude.{◌≡◌, IfOk};
ghost use Rattle.vx_election_model.specs.Valid.{IsValid};

use std::alloc::Global;
use vx_base::{Bytes, OutOfMemory};
use vx_center::Center;
use vx_election_model::Election;

/// A text of an election's kept events, which a command writes.
pub trait Account {
    ghost use Rattle.std.specs.Prelude.{ℕ, List};
    ghost use Rattle.vx_election_model.specs.declared.election.Election.{Election};
    ghost use Rattle.vx_events.specs.declared.event.Event.{Event};

    /// What is written of the kept events of an election.
    ghost says: { Self → Election → List Event → List ℕ };

    /// The text's bytes, of the events that the machine has kept. The only refusal is want of memory.
    fn text(
        &self,
        alloc: Global,
        election: &Election,
        center: &Center<'_>,
    ) -> Result<Bytes, OutOfMemory>
        requires valid { IsValid election.now }
        requires same { center.now.election ≡ election.now }
        ensures { IfOk result (λ text. text ≡ says self.now election.now center.now.events) };
}
