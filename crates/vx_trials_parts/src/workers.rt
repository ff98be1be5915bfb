ghost use Rattle.std.specs.Prelude.{◌≡◌, ◌<◌, ◌≤◌, ◌*◌, ◌^◌, length, map, All, IfOk};

use std::alloc::Global;
use std::sync::atomic::{AtomicBool, AtomicU64, Ordering};
use std::test::Fail;
use std::thread::Threads;
use vx_base::OutOfMemory;
use vx_workers::*;

/// The turns for which a gate holds an item, each of them one load.
const TURNS: u32 = 100_000_000;

/// Holds the items up to number `held` until `all` items have entered, and answers so of the others.
#[derive(Drop)]
struct Meeting {
    held: u32,
    all: u64,
    answer: bool,
    entered: AtomicU64,
    is_spent: AtomicBool,
}

impl Meeting {
    fn new(held: u32, all: u64, answer: bool) -> Self {
        Meeting {
            held,
            all,
            answer,
            entered: AtomicU64::new(0),
            is_spent: AtomicBool::new(false),
        }
    }

    /// Lets everybody through.
    fn open() -> Self {
        Meeting::new(0, 0, true)
    }

    /// Never answers true.
    fn shut() -> Self {
        Meeting::new(0, 0, false)
    }

    /// Each item has entered once, and none was held for all its turns.
    fn is_met(&self) -> bool {
        self.entered.load(Ordering::SeqCst) == self.all && !self.is_spent.load(Ordering::SeqCst)
    }
}

impl Gate for Meeting {
    fn enter(&self, call: u32) -> bool {
        self.entered.fetch_add(1, Ordering::SeqCst);
        if call > self.held {
            return self.answer;
        }
        for _ in 0..TURNS {
            if self.entered.load(Ordering::SeqCst) >= self.all {
                return true;
            }
        }
        self.is_spent.store(true, Ordering::SeqCst);
        false
    }
}

fn squares<R: Threads + Sync>(
    rt: &R,
    alloc: Global,
    items: &[u32],
    workers: u32,
    gate: &Meeting,
) -> Result<Vec<u32>, OutOfMemory>
    requires some_worker { 0 < workers }
    requires few_workers { workers ≤ 64 }
    requires few_items { length items.now < 2 ^ 32 }
    requires small { All (λ item. item < 2 ^ 16) items.now }
    ensures { IfOk result (λ answers. answers.items ≡ map (λ item. item * item) items.now) }
{
    let task = |item: &u32| -> Result<u32, OutOfMemory>
        requires { item.now < 2 ^ 16 }
        ensures { IfOk result (λ answer. answer ≡ item.now * item.now) }
    { Ok(*item * *item) };
    map_tasks(rt, alloc, items, workers, gate, &task)
}

/// Sees whether a task begins before the one in front of it has ended, and which numbers come.
#[derive(Drop)]
struct Watch {
    begun: AtomicU64,
    ended: AtomicU64,
    is_crossed: AtomicBool,
    is_out_of_order: AtomicBool,
}

impl Watch {
    fn new() -> Self {
        Watch {
            begun: AtomicU64::new(0),
            ended: AtomicU64::new(0),
            is_crossed: AtomicBool::new(false),
            is_out_of_order: AtomicBool::new(false),
        }
    }

    fn end(&self) {
        self.ended.fetch_add(1, Ordering::SeqCst);
    }
}

impl Gate for Watch {
    fn enter(&self, call: u32) -> bool {
        let before = self.begun.fetch_add(1, Ordering::SeqCst);
        if self.ended.load(Ordering::SeqCst) != before {
            self.is_crossed.store(true, Ordering::SeqCst);
        }
        if before.checked_add(1) != Some(u64::from(call)) {
            self.is_out_of_order.store(true, Ordering::SeqCst);
        }
        true
    }
}

/// The items by one worker, which says when each of them has ended.
fn watched<R: Threads + Sync>(
    rt: &R,
    alloc: Global,
    items: &[u32],
    watch: &Watch,
) -> Result<Vec<u32>, OutOfMemory>
    requires few_items { length items.now < 2 ^ 32 }
{
    let task = |item: &u32| -> Result<u32, OutOfMemory> {
        watch.end();
        Ok(*item)
    };
    map_tasks(rt, alloc, items, 1, watch, &task)
}

#[test]
fn one_worker_does_one_item_at_a_time(rt: HostRuntime) -> Result<(), Fail> {
    let watch = Watch::new();
    let answers = watched(&rt, rt.alloc(), &[9, 8, 7, 6, 5], &watch)?;
    assert_eq!(rt; answers.as_slice(), [9, 8, 7, 6, 5].as_slice());
    assert_eq!(rt; watch.begun.load(Ordering::SeqCst), 5);
    assert!(rt; !watch.is_crossed.load(Ordering::SeqCst));
    assert!(rt; !watch.is_out_of_order.load(Ordering::SeqCst));
    Ok(())
}

#[test]
fn a_gate_that_answers_false_changes_nothing(rt: HostRuntime) -> Result<(), Fail> {
    for workers in [1, 2, 7, 64] {
        let answers = squares(&rt, rt.alloc(), &[1, 2, 3], workers, &Meeting::shut())?;
        assert_eq!(rt; answers.as_slice(), [1, 4, 9].as_slice());
    }
    Ok(())
}

#[test]
fn squares_of_three_and_of_none(rt: HostRuntime) -> Result<(), Fail> {
    for workers in [1, 2, 7, 64] {
        let answers = squares(&rt, rt.alloc(), &[1, 2, 3], workers, &Meeting::open())?;
        assert_eq!(rt; answers.as_slice(), [1, 4, 9].as_slice());
    }
    let none = squares(&rt, rt.alloc(), &[], 2, &Meeting::open())?;
    assert!(rt; none.is_empty());
    Ok(())
}

#[test]
fn two_items_are_done_side_by_side(rt: HostRuntime) -> Result<(), Fail> {
    let meeting = Meeting::new(2, 2, true);
    let answers = squares(&rt, rt.alloc(), &[5, 6], 2, &meeting)?;
    assert_eq!(rt; answers.as_slice(), [25, 36].as_slice());
    assert!(rt; meeting.is_met());
    Ok(())
}

#[test]
fn a_free_worker_takes_the_next_item(rt: HostRuntime) -> Result<(), Fail> {
    let meeting = Meeting::new(1, 4, true);
    let answers = squares(&rt, rt.alloc(), &[5, 6, 7, 8], 2, &meeting)?;
    assert_eq!(rt; answers.as_slice(), [25, 36, 49, 64].as_slice());
    assert!(rt; meeting.is_met());
    Ok(())
}
