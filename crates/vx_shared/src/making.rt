//! Calls of one thread.
ghost use Rattle.std.specs.Prelude.{◌≡◌, ◌<◌, ◌≤◌, ◌∷◌, [], length, All, OnErr, OnOk};
ghost use Rattle.vx_events.specs.Fits.{Fits};
ghost use Rattle.vx_shared.specs.Gained.{HasMade, HasMadeFront, MakesAlso};

use crate::desk::Desk;
use crate::pass::Pass;
use std::alloc::Global;
use std::sync::Wait;
use vx_base::OutOfMemory;
use vx_events::Event;

/// Calls the center with an event. Where there is no memory, the pass is as before.
pub fn make<R: Wait, S: Desk>(
    rt: &R,
    alloc: Global,
    shared: &S,
    pass: Pass,
    event: Event,
) -> (Pass, Result<(), OutOfMemory>)
    requires belongs { pass.of ≡ S.id shared.now }
    requires calls { 0 < pass.calls }
    requires fits { Fits pass.origin.election event }
    ensures made { OnOk result.1 (MakesAlso pass (event ∷ []) result.0) }
    ensures refused { OnErr result.1 (result.0 ≡ pass) }
{
    let (pass, answer) = shared.call(rt, alloc, pass, event);
    match answer {
        Ok(_) => (pass, Ok(())),
        Err(no_memory) => (pass, Err(no_memory)),
    }
}

/// Calls the center with each of these events, in order. Where there is no memory, a front of them was
/// made.
pub fn make_all<R: Wait, S: Desk>(
    rt: &R,
    alloc: Global,
    shared: &S,
    pass: Pass,
    events: &[Event],
) -> (Pass, Result<(), OutOfMemory>)
    requires belongs { pass.of ≡ S.id shared.now }
    requires calls { length events.now ≤ pass.calls }
    requires fits { All (Fits pass.origin.election) events.now }
    ensures made { OnOk result.1 (HasMade pass events.now result.0) }
    ensures front { OnErr result.1 (HasMadeFront pass events.now result.0) }
{
    let mut now = pass;
    for event in events {
        let Ok(copy) = event.copy(alloc) else {
            return (now, Err(OutOfMemory));
        };
        let (after, answer) = make(rt, alloc, shared, now, copy);
        if answer.is_err() {
            return (after, Err(OutOfMemory));
        }
        now = after;
    }
    (now, Ok(()))
}
