ghost use Rattle.std.specs.Prelude.{◌≡◌, ◌++◌, ◌∷◌, [], IfOk, OnErr};
ghost use Rattle.vx_events.specs.Fits.{Fits};
ghost use Rattle.vx_shared.specs.Legal.{IsLegal, after, entry, stored};

use crate::history::{Entries, Entry};
use std::alloc::Global;
use std::marker::Model;
use std::snapshot::Snapshot;
use vx_base::OutOfMemory;
use vx_center::Center;
use vx_events::{Event, Reply};

/// What the turn protects: the center, and the history of its calls. Contracts see what the center
/// was before the first call, and the history.
#[derive(Drop)]
pub struct Held<'e> {
    center: Center<'e>,
    history: Vec<Entry>,
    first: Snapshot<Center<'e>>,
}

impl<'e> Model for Held<'e> {
    ghost use Rattle.vx_shared.specs.Legal.{IsHeld, Stored, stored};

    ghost Value = { Stored };

    ghost view = { λ held. stored held.first.value held.history.items };

    ghost invariant = { λ held. IsHeld held.first.value held.center held.history.items };
}

impl<'e> Held<'e> {
    /// A center that wasn't called yet; takes no memory.
    pub fn new(alloc: Global, center: Center<'e>) -> Held<'e>
        ensures { result ≡ stored center.entry [] }
    {
        let first = Snapshot::of(&center);
        Held {
            center,
            history: Vec::new(alloc),
            first,
        }
    }

    /// The answer to an event that fits. The call is put into the history. After want of memory
    /// all is as before.
    pub fn apply(&mut self, alloc: Global, event: Event) -> Result<Reply, OutOfMemory>
        requires { Fits self.old.start.election event }
        ensures called { IfOk result (λ reply.
            self.new ≡ stored self.old.start (self.old.history ++ entry event reply ∷ [])) }
        ensures legal { IsLegal self.new.start self.new.history }
        ensures as_before { OnErr result (self.new ≡ self.old) }
    {
        self.history.reserve(1)?;
        let reply = self.center.apply(alloc, &event)?;
        self.history.push_reserved(Entry { event, reply });
        Ok(reply)
    }

    /// The center, and the history of its calls.
    pub fn into_parts(self) -> (Center<'e>, Entries)
        ensures center { result.0 ≡ after self.entry.start self.entry.history }
        ensures history { result.1 ≡ self.entry.history }
        ensures legal { IsLegal self.entry.start self.entry.history }
    {
        let Held {
            center,
            history,
            first: _,
        } = self;
        (center, Entries::from_vec(history))
    }
}
