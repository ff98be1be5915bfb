//! Two scripts as items of a center, which `run_items` runs side by side.

ghost use Rattle.std.specs.Prelude.{◌≡◌, ◌≤◌, All, IfOk, length};
ghost use Rattle.vx_command_center.specs.Items.{FitsItem, possible_in_all};
ghost use Rattle.vx_election_model.specs.Valid.{IsValid};
ghost use Rattle.vx_events.specs.Fits.{Fits};
ghost use Rattle.vx_layout.specs.Plans.{ArePlansOf};
ghost use Rattle.vx_trials_shared.specs.Same.{AreItems, IsItem};

use crate::ended::{Ended, assert_fits, assert_replayed, drop_ended};
use crate::hall::{added, claimed, hall};
use std::alloc::Global;
use std::process::Abort;
use std::sync::Wait;
use std::sync::atomic::{AtomicBool, AtomicU64, Ordering};
use std::test::Fail;
use std::thread::Threads;
use vx_base::{Bytes, OutOfMemory};
use vx_center::{Center, Event, Events, drop_center};
use vx_command_center::{Item, run_items};
use vx_election_model::{Election, drop_election};
use vx_layout::{CardPlans, drop_plans, plan_cards};
use vx_shared::SharedCenter;
use vx_workers::Gate;

/// The turns for which a gate holds a script, each of them one load.
const TURNS: u32 = 100_000_000;

/// Holds script 1 at its first entry until script 2 has entered twice, so until a call of script 2 was
/// answered; and script 2 at its second entry until script 1 has entered.
#[derive(Drop)]
struct Crossing {
    first: AtomicU64,
    second: AtomicU64,
    is_spent: AtomicBool,
}

impl Crossing {
    fn new() -> Self {
        Crossing {
            first: AtomicU64::new(0),
            second: AtomicU64::new(0),
            is_spent: AtomicBool::new(false),
        }
    }

    /// Both scripts have entered twice, and neither was held for all its turns.
    fn is_met(&self) -> bool {
        self.first.load(Ordering::SeqCst) == 2
            && self.second.load(Ordering::SeqCst) == 2
            && !self.is_spent.load(Ordering::SeqCst)
    }

    /// Holds a script until the other has entered so often.
    fn hold(&self, other: &AtomicU64, often: u64) -> bool {
        for _ in 0..TURNS {
            if other.load(Ordering::SeqCst) >= often {
                return true;
            }
        }
        self.is_spent.store(true, Ordering::SeqCst);
        false
    }
}

impl Gate for Crossing {
    fn enter(&self, call: u32) -> bool {
        if call == 1 {
            self.first.fetch_add(1, Ordering::SeqCst) != 0 || self.hold(&self.second, 2)
        } else {
            self.second.fetch_add(1, Ordering::SeqCst) != 1 || self.hold(&self.first, 1)
        }
    }
}

/// An event fits the election of a center.
fn assert_fits_of<R: Abort>(rt: &R, center: &Center<'_>, election: &Election, event: &Event)
    requires { center.now.election ≡ election.now }
    ensures { Fits election.now event.now }
{
    assert_fits(rt, center, event)
}

/// A script of two events that fit the center.
fn script<R: Abort>(
    rt: &R,
    alloc: Global,
    center: &Center<'_>,
    election: &Election,
    one: Event,
    other: Event,
) -> Result<Item, OutOfMemory>
    requires { center.now.election ≡ election.now }
    ensures { IfOk result (IsItem election.now 2) }
{
    assert_fits_of(rt, center, election, &one);
    assert_fits_of(rt, center, election, &other);
    let events = Events::from_vec(vec![in alloc; one, other]?);
    Ok(Item::Script { events })
}

/// The sheet is added, and claimed by the first station.
fn first_script<R: Abort>(
    rt: &R,
    alloc: Global,
    center: &Center<'_>,
    election: &Election,
) -> Result<Item, OutOfMemory>
    requires { center.now.election ≡ election.now }
    ensures { IfOk result (IsItem election.now 2) }
{
    let claim = claimed(alloc, 1)?;
    let add = added(alloc)?;
    script(rt, alloc, center, election, add, claim)
}

/// The second station claims the sheet, and it is added.
fn second_script<R: Abort>(
    rt: &R,
    alloc: Global,
    center: &Center<'_>,
    election: &Election,
) -> Result<Item, OutOfMemory>
    requires { center.now.election ≡ election.now }
    ensures { IfOk result (IsItem election.now 2) }
{
    let claim = claimed(alloc, 2)?;
    let add = added(alloc)?;
    script(rt, alloc, center, election, claim, add)
}

/// Both scripts.
fn both<R: Abort>(
    rt: &R,
    alloc: Global,
    center: &Center<'_>,
    election: &Election,
) -> Result<Vec<Item>, OutOfMemory>
    requires { center.now.election ≡ election.now }
    ensures { IfOk result (λ items. AreItems election.now 2 2 items.items) }
{
    let one = first_script(rt, alloc, center, election)?;
    let other = second_script(rt, alloc, center, election)?;
    Ok(vec![in alloc; one, other]?)
}

/// Two items of two events each at most have no more than four, and each may be done.
fn two_items(_election: &Election, _items: &[Item])
    requires { AreItems _election.now 2 2 _items.now }
    ensures { (possible_in_all _items.now ≤ 4) × All (FitsItem _election.now) _items.now }
{}

/// Does two items by a thread each, and closes the center behind them. What is answered beside is the text of the
/// work.
fn do_items<'e, R: Threads + Wait + Sync>(
    rt: &R,
    alloc: Global,
    election: &'e Election,
    plans: &CardPlans,
    center: Center<'e>,
    items: &[Item],
    gate: &Crossing,
) -> Result<(Ended<'e>, Result<Bytes, OutOfMemory>), OutOfMemory>
    requires valid { IsValid election.now }
    requires plans { ArePlansOf election.now plans.now }
    requires same { center.election ≡ election.now }
    requires two { length items.now ≡ 2 }
    requires calls { possible_in_all items.now ≤ 4 }
    requires fits { All (FitsItem election.now) items.now }
{
    let (shared, pass) = SharedCenter::new(alloc, center, 2, 4)?;
    let (pass, answer) = run_items(rt, alloc, election, plans, &shared, pass, items, gate);
    let left = (pass.shares(), pass.calls_left(), pass.seen());
    let (center, history) = shared.close(pass);
    Ok((
        Ended {
            center,
            history,
            left,
        },
        answer,
    ))
}

/// Lets items go, in one place.
fn drop_items(_items: Vec<Item>) {}

/// Both are run by two threads, each held until the other has called.
fn run_both<'e, R: Threads + Wait + Sync + Abort>(
    rt: &R,
    alloc: Global,
    election: &'e Election,
    plans: &CardPlans,
    gate: &Crossing,
) -> Result<(Ended<'e>, Result<Bytes, OutOfMemory>), OutOfMemory>
    requires valid { IsValid election.now }
    requires plans { ArePlansOf election.now plans.now }
{
    let center = Center::new(alloc, election);
    match both(rt, alloc, &center, election) {
        Ok(items) => {
            two_items(election, items.as_slice());
            let done = do_items(rt, alloc, election, plans, center, items.as_slice(), gate);
            drop_items(items);
            done
        }
        Err(no_memory) => {
            drop_center(center);
            Err(no_memory)
        }
    }
}

/// All four calls were made, and are one history.
fn assert_ended<R: Abort>(
    rt: &R,
    alloc: Global,
    election: &Election,
    ended: &Ended<'_>,
    answer: &Result<Bytes, OutOfMemory>,
) -> Result<(), Fail>
    requires { IsValid election.now }
{
    assert!(rt; answer.is_ok());
    assert_eq!(rt; ended.left, (2, 0, 4));
    assert_replayed(rt, alloc, election, ended.history.as_slice())
}

/// Two scripts of a sheet that is added and claimed cross, and all four calls make one history.
fn assert_side_by_side<R: Threads + Wait + Sync + Abort>(
    rt: &R,
    alloc: Global,
    election: &Election,
    plans: &CardPlans,
) -> Result<(), Fail>
    requires valid { IsValid election.now }
    requires plans { ArePlansOf election.now plans.now }
{
    let gate = Crossing::new();
    let (ended, answer) = run_both(rt, alloc, election, plans, &gate)?;
    assert!(rt; gate.is_met());
    let done = assert_ended(rt, alloc, election, &ended, &answer);
    drop_ended(ended);
    done
}

/// The plans of the hall's card.
fn plans_for(alloc: Global, election: &Election) -> Result<CardPlans, Fail>
    requires { IsValid election.now }
    ensures { IfOk result (ArePlansOf election.now) }
{
    match plan_cards(alloc, election) {
        Ok(plans) => Ok(plans),
        Err(_) => Err(Fail::from("no plans")),
    }
}

/// The same with the plans of the hall's card.
fn assert_with_plans<R: Threads + Wait + Sync + Abort>(
    rt: &R,
    alloc: Global,
    election: &Election,
) -> Result<(), Fail>
    requires { IsValid election.now }
{
    let plans = plans_for(alloc, election)?;
    let done = assert_side_by_side(rt, alloc, election, &plans);
    drop_plans(plans);
    done
}

#[test]
fn two_scripts_run_side_by_side(rt: HostRuntime) -> Result<(), Fail> {
    let election = hall(rt.alloc())?;
    let done = assert_with_plans(&rt, rt.alloc(), &election);
    drop_election(election);
    done
}
