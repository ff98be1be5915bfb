ghost use Rattle.std.specs.Prelude.{◌<◌, ◌≤◌, ◌^◌, length, All, IfOk};
ghost use Rattle.vx_workers.specs.Answers.{MayTake, IsShare, AnswersInOrder};

use crate::answer::answer_at;
use crate::gate::Gate;
use crate::places::{Answered, put_in_order};
use std::alloc::Global;
use std::sync::atomic::{AtomicUsize, Ordering};
use std::thread;
use std::thread::Threads;
use vx_base::OutOfMemory;

/// The task's answer of each item, in the items' order, by `workers` threads, the caller's among
/// them, and no more. A worker that is free takes the next item. Each task begins with
/// `gate.enter` of its item's number, counted from 1; nothing hangs on what that answers. A thread
/// that can't be made leaves its work to the caller. Want of memory of one task, or of the call, is
/// want of memory of the whole; then no further item is begun.
pub fn map_tasks<
    R: Threads + Sync,
    T: Sync,
    U: Send + Drop,
    G: Gate,
    F: Fn(&T) -> Result<U, OutOfMemory> + Sync,
>(
    rt: &R,
    alloc: Global,
    items: &[T],
    workers: u32,
    gate: &G,
    task: &F,
) -> Result<Vec<U>, OutOfMemory>
    requires some_worker { 0 < workers }
    requires few_workers { workers ≤ 64 }
    requires few_items { length items.now < 2 ^ 32 }
    requires takes_each { All (MayTake F.Fn task.now) items.now }
    ensures in_order { IfOk result (λ given. AnswersInOrder F.Fn task.now items.now given.items) }
{
    let next = AtomicUsize::new(0);
    let worker = |_: usize| -> Result<Vec<Answered<U>>, OutOfMemory>
        requires { (length items.now < 2 ^ 32) × All (MayTake F.Fn task.now) items.now }
        ensures { IsShare F.Fn task.entry.now items.entry.now result }
    { work(alloc, items, &next, gate, task) };
    let threads = items.len().min(workers as usize);
    let shares = thread::map_indices(rt, alloc, threads, &worker)?;
    put_in_order(alloc, items, shares, gate, task)
}

/// One worker. Where it has no memory it leaves no item to the others.
fn work<T, U: Drop, G: Gate, F: Fn(&T) -> Result<U, OutOfMemory>>(
    alloc: Global,
    items: &[T],
    next: &AtomicUsize,
    gate: &G,
    task: &F,
) -> Result<Vec<Answered<U>>, OutOfMemory>
    requires few_items { length items.now < 2 ^ 32 }
    requires takes_each { All (MayTake F.Fn task.now) items.now }
    ensures { IsShare F.Fn task.now items.now result }
{
    match take_items(alloc, items, next, gate, task) {
        Ok(done) => Ok(done),
        Err(no_memory) => {
            next.store(items.len(), Ordering::SeqCst);
            Err(no_memory)
        }
    }
}

/// Does the next item that nobody has taken, for as long as there is one.
fn take_items<T, U: Drop, G: Gate, F: Fn(&T) -> Result<U, OutOfMemory>>(
    alloc: Global,
    items: &[T],
    next: &AtomicUsize,
    gate: &G,
    task: &F,
) -> Result<Vec<Answered<U>>, OutOfMemory>
    requires few_items { length items.now < 2 ^ 32 }
    requires takes_each { All (MayTake F.Fn task.now) items.now }
    ensures { IsShare F.Fn task.now items.now result }
{
    let mut done = Vec::new(alloc);
    for _ in items {
        let place = next.fetch_add(1, Ordering::SeqCst);
        if place >= items.len() {
            break;
        }
        let answer = answer_at(items, place, gate, task)?;
        done.push(Answered { place, answer })?;
    }
    Ok(done)
}
