//! A shared center that was closed: what is looked at then.

ghost use Rattle.std.specs.Prelude.{◌<◌, ◌≤◌, All, length};
ghost use Rattle.vx_election_model.specs.Valid.{IsValid};
ghost use Rattle.vx_events.specs.Fits.{Fits};
ghost use Rattle.vx_trials_shared.specs.Same.{IsScript};

use std::alloc::Global;
use std::process::Abort;
use std::sync::Wait;
use std::test::Fail;
use std::thread::Threads;
use vx_base::{Bytes, OutOfMemory};
use vx_center::{Center, Event, Events, drop_center};
use vx_election_model::Election;
use vx_shared::{Entries, Entry, Scripts, SharedCenter, run_all};
use vx_workers::Gate;

/// The center and the history of its calls; and the shares, the calls that were left and how much of the
/// history it had seen, of the pass that closed it.
#[derive(Drop)]
pub struct Ended<'e> {
    pub center: Center<'e>,
    pub history: Entries,
    pub left: (u32, u64, u64),
}

/// Lets it go, in one place.
pub fn drop_ended(ended: Ended<'_>) {
    let Ended {
        center,
        history: _history,
        ..
    } = ended;
    drop_center(center);
}

/// An event fits the election of a center.
pub fn assert_fits<R: Abort>(rt: &R, center: &Center<'_>, event: &Event)
    ensures { Fits center.now.election event.now }
{
    assert!(rt; center.fits(event));
}

/// Runs scripts of so many events each at most by a thread each, and closes the center behind them. What
/// is answered beside is the text of the work.
pub fn run_scripts<'e, R: Threads + Wait + Sync, G: Gate>(
    rt: &R,
    alloc: Global,
    center: Center<'e>,
    scripts: &[Events],
    each: u32,
    gate: &G,
) -> Result<(Ended<'e>, Result<Bytes, OutOfMemory>), OutOfMemory>
    requires some { 0 < length scripts.now }
    requires few { length scripts.now ≤ 8 }
    requires calls { 0 < each }
    requires few_calls { each ≤ 1250 }
    requires scripts { All (IsScript center.election each) scripts.now }
{
    let shares = scripts.len() as u32;
    let calls = u64::from(shares * each);
    let (shared, pass) = SharedCenter::new(alloc, center, shares, calls)?;
    let (pass, answer) = run_all(rt, alloc, &shared, pass, &Scripts, scripts, gate);
    let left = (pass.shares(), pass.calls_left(), pass.seen());
    let (center, history) = shared.close(pass);
    Ok((
        Ended {
            center,
            history,
            left,
        },
        answer,
    ))
}

/// A center answers each event of a history as it says.
fn replay<R: Abort>(
    rt: &R,
    alloc: Global,
    center: &mut Center<'_>,
    history: &[Entry],
) -> Result<(), Fail> {
    for entry in history {
        assert_fits(rt, center, &entry.event);
        assert_eq!(rt; center.apply(alloc, &entry.event)?, entry.reply);
    }
    Ok(())
}

/// A second center answers each event of a history as it says.
pub fn assert_replayed<R: Abort>(
    rt: &R,
    alloc: Global,
    election: &Election,
    history: &[Entry],
) -> Result<(), Fail>
    requires { IsValid election.now }
{
    let mut center = Center::new(alloc, election);
    let done = replay(rt, alloc, &mut center, history);
    drop_center(center);
    done
}
