ghost use Rattle.std.specs.Prelude.{◌≡◌, IfOk};

use crate::decision::Decision;
use crate::key::Key;
use std::alloc::Global;
use vx_base::OutOfMemory;
use vx_rules::SheetMarks;

/// What happens in a count, each of it at one moment.
#[derive(Debug, Drop)]
pub enum Event {
    /// A sheet comes in.
    Add {
        key: Key,
        sheet: SheetMarks,
    },
    /// A station, 1 to 9,999, takes a sheet to decide on it.
    Claim {
        station: u32,
        key: Key,
    },
    /// The station gives the sheet back.
    Release {
        station: u32,
        key: Key,
    },
    /// The station decides something of a contest, which is known by its place in the election's
    /// list.
    Decide {
        station: u32,
        key: Key,
        contest: u32,
        decision: Decision,
    },
}

impl Event {
    /// An equal value.
    pub fn copy(&self, alloc: Global) -> Result<Event, OutOfMemory>
        ensures { IfOk result (λ copy. copy ≡ self.now) }
    {
        match self {
            Event::Add { key, sheet } => Ok(Event::Add {
                key: key.copy(alloc)?,
                sheet: sheet.copy(alloc)?,
            }),
            Event::Claim { station, key } => Ok(Event::Claim {
                station: *station,
                key: key.copy(alloc)?,
            }),
            Event::Release { station, key } => Ok(Event::Release {
                station: *station,
                key: key.copy(alloc)?,
            }),
            Event::Decide {
                station,
                key,
                contest,
                decision,
            } => Ok(Event::Decide {
                station: *station,
                key: key.copy(alloc)?,
                contest: *contest,
                decision: decision.copy(alloc)?,
            }),
        }
    }
}

fn shared<T: Send + Sync>() {}

/// Threads may share an event and hand it over.
pub fn event_is_shared() {
    shared::<Event>()
}

/// Lets an event go. That this is safe is proved here; a crate that calls it needn't prove it again.
pub fn drop_event(_event: Event) {}
