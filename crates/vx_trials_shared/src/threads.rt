ghost use Rattle.std.specs.Prelude.{◌≡◌, ◌++◌, [], ◌∷◌, IfOk, OnOk};
ghost use Rattle.vx_election_model.specs.Valid.{IsValid};
ghost use Rattle.vx_events.specs.Fits.{Fits};
ghost use Rattle.vx_trials_shared.specs.Same.{AreScripts, IsScript};

use crate::ended::{Ended, assert_fits, assert_replayed, drop_ended, run_scripts};
use crate::hall::{added, claimed, hall};
use std::alloc::Global;
use std::process::Abort;
use std::sync::Wait;
use std::test::Fail;
use std::thread::Threads;
use vx_base::{Bytes, OutOfMemory};
use vx_center::{Center, Event, Events, drop_center};
use vx_election_model::{Election, drop_election};
use vx_workers::OpenGate;

/// Adds a copy of an event to a script.
fn push_copy(alloc: Global, script: &mut Events, event: &Event) -> Result<(), OutOfMemory>
    ensures { OnOk result (script.new ≡ script.old ++ event.now ∷ []) }
{
    script.push(event.copy(alloc)?)?;
    Ok(())
}

/// A script that adds the sheet and claims it, 625 times each, in turns.
fn script(
    alloc: Global,
    _election: &Election,
    add: &Event,
    claim: &Event,
) -> Result<Events, OutOfMemory>
    requires add { Fits _election.now add.now }
    requires claim { Fits _election.now claim.now }
    ensures { IfOk result (IsScript _election.now 1250) }
{
    let mut events = Events::new(alloc);
    let mut turns: u32 = 0;
    while turns < 625 {
        push_copy(alloc, &mut events, add)?;
        push_copy(alloc, &mut events, claim)?;
        turns += 1;
    }
    Ok(events)
}

/// Such a script for each of eight threads.
fn scripts(
    alloc: Global,
    _election: &Election,
    add: &Event,
    claim: &Event,
) -> Result<Vec<Events>, OutOfMemory>
    requires add { Fits _election.now add.now }
    requires claim { Fits _election.now claim.now }
    ensures { IfOk result (λ scripts. AreScripts _election.now 1250 8 scripts.items) }
{
    let mut scripts = Vec::new(alloc);
    let mut threads: u32 = 0;
    while threads < 8 {
        scripts.push(script(alloc, _election, add, claim)?)?;
        threads += 1;
    }
    Ok(scripts)
}

/// Eight threads run them.
fn run_eight<'e, R: Threads + Wait + Sync>(
    rt: &R,
    alloc: Global,
    center: Center<'e>,
    scripts: &[Events],
) -> Result<(Ended<'e>, Bytes), OutOfMemory>
    requires { AreScripts center.election 1250 8 scripts.now }
{
    let (ended, answer) = run_scripts(rt, alloc, center, scripts, 1250, &OpenGate)?;
    Ok((ended, answer?))
}

/// All calls are used up. One add is kept, and each claim behind it.
fn assert_ended<R: Abort>(
    rt: &R,
    alloc: Global,
    election: &Election,
    ended: &Ended<'_>,
    text: &Bytes,
) -> Result<(), Fail>
    requires { IsValid election.now }
{
    assert!(rt; text.is_empty());
    assert_eq!(rt; ended.left, (8, 0, 10_000));
    assert_eq!(rt; ended.center.events().len(), 5_001);
    assert_replayed(rt, alloc, election, ended.history.as_slice())
}

/// The scripts of a center whose election the events fit.
fn scripts_for<R: Abort>(
    rt: &R,
    alloc: Global,
    election: &Election,
    center: &Center<'_>,
) -> Result<Vec<Events>, OutOfMemory>
    requires { center.now.election ≡ election.now }
    ensures { IfOk result (λ scripts. AreScripts election.now 1250 8 scripts.items) }
{
    let claim = claimed(alloc, 1)?;
    let add = added(alloc)?;
    assert_fits(rt, center, &claim);
    assert_fits(rt, center, &add);
    scripts(alloc, election, &add, &claim)
}

/// Eight threads use 10,000 calls up.
fn ended<'e, R: Threads + Wait + Sync + Abort>(
    rt: &R,
    alloc: Global,
    election: &'e Election,
) -> Result<(Ended<'e>, Bytes), OutOfMemory>
    requires { IsValid election.now }
{
    let center = Center::new(alloc, election);
    match scripts_for(rt, alloc, election, &center) {
        Ok(scripts) => run_eight(rt, alloc, center, scripts.as_slice()),
        Err(no_memory) => {
            drop_center(center);
            Err(no_memory)
        }
    }
}

/// Eight threads end.
fn assert_ends<R: Threads + Wait + Sync + Abort>(
    rt: &R,
    alloc: Global,
    election: &Election,
) -> Result<(), Fail>
    requires { IsValid election.now }
{
    let (ended, text) = ended(rt, alloc, election)?;
    let done = assert_ended(rt, alloc, election, &ended, &text);
    drop_ended(ended);
    done
}

#[test]
fn eight_threads_end(rt: HostRuntime) -> Result<(), Fail> {
    let election = hall(rt.alloc())?;
    let done = assert_ends(&rt, rt.alloc(), &election);
    drop_election(election);
    done
}
