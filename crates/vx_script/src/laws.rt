//! A law of scripts. This function does nothing; its contract is the law.

ghost use Rattle.vx_script.specs.Laws.{SaidEventsAreHeld};

/// The event of a line fits the election, and has a record.
pub fn said_events_are_held()
    ensures { SaidEventsAreHeld }
{}
