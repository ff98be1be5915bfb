//! What is done at a shared center for the items of a list.
ghost use Rattle.std.specs.Prelude.{◌≡◌, ◌≤◌, [], All, IfOk, OnErr, length};
ghost use Rattle.vx_events.specs.Fits.{Fits};
ghost use Rattle.vx_shared.specs.Gained.{HasMade, HasMadeFront};

use crate::desk::Desk;
use crate::making::make_all;
use crate::pass::Pass;
use std::alloc::Global;
use std::sync::Wait;
use vx_base::{Bytes, OutOfMemory};
use vx_center::Events;

/// Work that is done for each item of a list, by a thread of its own.
pub trait Work<T>: Sync {
    ghost use Rattle.std.specs.Prelude.{ℕ, List};
    ghost use Rattle.vx_election_model.specs.declared.election.Election.{Election};
    ghost use Rattle.vx_events.specs.declared.event.Event.{Event};

    // The events that the center is called with for an item, in order.
    ghost events: { Self → T → List Event };

    // The bytes that are answered for it.
    ghost text: { Self → T → List ℕ };

    // How many calls it may need.
    ghost calls: { Self → T → ℕ };

    // It may be done at a center of this election.
    ghost may: { Self → Election → T → Type 0 };

    /// How many calls an item may need.
    fn calls(&self, item: &T) -> u64
        ensures { result ≡ calls self.now item.now };

    /// Does an item. Where there is no memory, a front of its events was made.
    fn run<R: Wait, S: Desk>(
        &self,
        rt: &R,
        alloc: Global,
        shared: &S,
        pass: Pass,
        item: &T,
    ) -> (Pass, Result<Bytes, OutOfMemory>)
        requires belongs { pass.of ≡ S.id shared.now }
        requires enough { calls self.now item.now ≤ pass.calls }
        requires may { may self.now pass.origin.election item.now }
        ensures made { IfOk result.1 (λ _. HasMade pass (events self.now item.now) result.0) }
        ensures told { IfOk result.1 (λ told. told ≡ text self.now item.now) }
        ensures front { OnErr result.1 (HasMadeFront pass (events self.now item.now) result.0) };
}

/// Scripts: the center is called with each of their events.
#[derive(Clone, Copy, Debug)]
pub struct Scripts;

impl Work<Events> for Scripts {
    ghost events = { λ _ script. script };

    ghost text = { λ _ _. [] };

    ghost calls = { λ _ script. length script };

    ghost may = { λ _ election script. All (Fits election) script };

    fn calls(&self, item: &Events) -> u64 {
        item.len() as u64
    }

    fn run<R: Wait, S: Desk>(
        &self,
        rt: &R,
        alloc: Global,
        shared: &S,
        pass: Pass,
        item: &Events,
    ) -> (Pass, Result<Bytes, OutOfMemory>) {
        let (pass, answer) = make_all(rt, alloc, shared, pass, item.as_slice());
        match answer {
            Ok(()) => (pass, Ok(Bytes::new(alloc))),
            Err(no_memory) => (pass, Err(no_memory)),
        }
    }
}
