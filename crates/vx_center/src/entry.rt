ghost use Rattle.std.specs.Prelude.{◌≡◌, ◌++◌, ◌∷◌, [], None, OnErr, OnOk};
ghost use Rattle.vx_center.specs.States.{Entry};

use crate::center::Events;
use crate::decided::Decided;
use std::alloc::Global;
use std::marker::Model;
use vx_base::OutOfMemory;
use vx_events::Event;

/// What is kept of a sheet beside its event. Contracts see it as an `Entry`.
#[derive(Debug, Drop)]
pub(crate) struct SheetEntry {
    at: usize,
    holder: Option<u32>,
    decided: Vec<Decided>,
}

impl Model for SheetEntry {
    ghost use Rattle.vx_center.specs.States.{Entry};

    ghost Value = { Entry };

    ghost view = { λ entry. record { at = entry.at; holder = entry.holder; decided = entry.decided.items } };
}

impl SheetEntry {
    /// A sheet whose event has this place among the kept ones: nobody holds it, nothing is decided.
    /// Takes no memory.
    pub(crate) fn new(alloc: Global, at: usize) -> Self
        ensures { result ≡ record { at = at; holder = None; decided = [] } }
    {
        SheetEntry {
            at,
            holder: None,
            decided: Vec::new(alloc),
        }
    }

    /// The place of the sheet's event among the kept ones.
    pub(crate) fn at(&self) -> usize
        ensures { result ≡ self.now.at }
    {
        self.at
    }

    /// The station that holds the sheet.
    pub(crate) fn holder(&self) -> Option<u32>
        ensures { result ≡ self.now.holder }
    {
        self.holder
    }

    /// What was decided of the sheet, in order.
    pub(crate) fn decided(&self) -> &[Decided]
        ensures { result.now ≡ self.now.decided }
    {
        self.decided.as_slice()
    }

    /// From now on this station holds the sheet, or none does.
    pub(crate) fn give_to(&mut self, holder: Option<u32>)
        ensures { self.new ≡ record self.old { holder = holder } }
    {
        self.holder = holder;
    }

    /// Keeps an event that decides something of the sheet, and what it decides. After want of memory
    /// all is as before.
    pub(crate) fn decide(
        &mut self,
        events: &mut Events,
        event: Event,
        decided: Decided,
    ) -> Result<(), OutOfMemory>
        ensures kept { OnOk result (events.new ≡ events.old ++ event ∷ []) }
        ensures decided { OnOk result (self.new ≡ record self.old { decided = self.old.decided ++ decided ∷ [] }) }
        ensures as_before { OnErr result (events.new ≡ events.old) }
        ensures entry_as_before { OnErr result (self.new ≡ self.old) }
    {
        self.decided.reserve(1)?;
        events.push(event)?;
        self.decided.push(decided).unwrap();
        Ok(())
    }
}
