//! Work on a list of items at one shared center, by a thread for each item.
ghost use Rattle.std.specs.Prelude.{◌≡◌, ◌+◌, ◌<◌, ◌≤◌, ◌^◌, ◌++◌, length, map, IfOk, IsOkAnd, OnErr};
ghost use Rattle.std.specs.List.{flat_map};
ghost use Rattle.std.specs.Thread.{IsSync};
ghost use Rattle.vx_shared.specs.Gained.{HasDone, HasRun, HasRunFronts, MayRun, calls_in};
ghost use Rattle.vx_shared.specs.Legal.{IsLegal};
ghost use Rattle.vx_shared.specs.Seats.{start_of};

use crate::desk::{Desk, GatedDesk};
use crate::pass::Pass;
use crate::sharing::SharedCenter;
use crate::work::Work;
use std::alloc::Global;
use std::sync::Wait;
use std::thread::{Threads, join};
use vx_base::{Bytes, OutOfMemory};
use vx_workers::Gate;

/// Does each item by a thread of its own, and answers the pass with all its shares, and what the work
/// answers of the items, one after another. A thread asks the gate before each call, with its item's
/// number, counted from 1. Where there is no memory, fronts of the items' events were made.
pub fn run_all<R: Threads + Wait + Sync, T: Sync, W: Work<T>, G: Gate>(
    rt: &R,
    alloc: Global,
    shared: &SharedCenter<'_>,
    pass: Pass,
    work: &W,
    items: &[T],
    gate: &G,
) -> (Pass, Result<Bytes, OutOfMemory>)
    requires few { length items.now < 2 ^ 31 }
    requires may { MayRun shared.now (W.calls work.now) (W.may work.now) pass items.now }
    ensures run { IfOk result.1 (λ _. HasRun pass (map (W.events work.now) items.now) result.0) }
    ensures text { IfOk result.1 (λ text. text ≡ flat_map (W.text work.now) items.now) }
    ensures fronts { OnErr result.1 (HasRunFronts pass (map (W.events work.now) items.now) result.0) }
    ensures legal { IsLegal (start_of pass.origin) result.0.seen }
{
    let (pass, answer) = run_halves(rt, alloc, shared, pass, work, items, gate, 1);
    let _ = pass.seen();
    (pass, answer)
}

/// The same, the first item having this number: by two threads, of which each does a half.
#[cycle(halves)]
fn run_halves<R: Threads + Wait + Sync, S: Desk + Sync, T: Sync, W: Work<T>, G: Gate>(
    rt: &R,
    alloc: Global,
    shared: &S,
    pass: Pass,
    work: &W,
    items: &[T],
    gate: &G,
    number: u32,
) -> (Pass, Result<Bytes, OutOfMemory>)
    requires sync { IsSync R.row × IsSync S.row × IsSync T.row × IsSync W.row × IsSync G.row }
    requires numbers { number + length items.now < 2 ^ 32 }
    requires may { MayRun (S.id shared.now) (W.calls work.now) (W.may work.now) pass items.now }
    ensures { HasDone pass (W.events work.now) (W.text work.now) items.now result.0 result.1 }
{
    if items.len() == 1 {
        let desk = GatedDesk {
            desk: shared,
            gate,
            number,
        };
        return work.run(rt, alloc, &desk, pass, &items[0]);
    }
    let middle = items.len() / 2;
    let (low, high) = items.split_at(middle);
    let (shares, calls) = (pass.shares(), pass.calls_left());
    let (mine, theirs) = shared.split(pass, high.len() as u32, calls_for(work, high));
    let next = number + middle as u32;
    let front = move || -> (Pass, Result<Bytes, OutOfMemory>)
        requires sync { IsSync R.row × IsSync S.row × IsSync T.row × IsSync W.row × IsSync G.row }
        requires numbers { number + length low.now < 2 ^ 32 }
        requires may { MayRun (S.id shared.now) (W.calls work.now) (W.may work.now) mine low.now }
        ensures { HasDone mine (W.events work.entry.now) (W.text work.entry.now) low.entry.now result.0 result.1 }
    { run_halves(rt, alloc, shared, mine, work, low, gate, number) };
    let back = move || -> (Pass, Result<Bytes, OutOfMemory>)
        requires sync { IsSync R.row × IsSync S.row × IsSync T.row × IsSync W.row × IsSync G.row }
        requires numbers { next + length high.now < 2 ^ 32 }
        requires may { MayRun (S.id shared.now) (W.calls work.now) (W.may work.now) theirs high.now }
        ensures { HasDone theirs (W.events work.entry.now) (W.text work.entry.now) high.entry.now result.0 result.1 }
    { run_halves(rt, alloc, shared, theirs, work, high, gate, next) };
    let ((mine, one), (theirs, other)) = join(rt, front, back);
    (shared.join(mine, theirs), both(one, other))
}

/// How many calls the items may need.
fn calls_for<T, W: Work<T>>(work: &W, items: &[T]) -> u64
    requires { calls_in (W.calls work.now) items.now < 2 ^ 64 }
    ensures { result ≡ calls_in (W.calls work.now) items.now }
{
    let mut calls = 0;
    let mut rest = items;
    while let Some((item, others)) = rest.split_first() {
        calls += work.calls(item);
        rest = others;
    }
    calls
}

/// The answers of both, one after the other.
fn both(
    one: Result<Bytes, OutOfMemory>,
    other: Result<Bytes, OutOfMemory>,
) -> Result<Bytes, OutOfMemory>
    ensures { IfOk result (λ text. IsOkAnd one (λ first. IsOkAnd other (λ second. text ≡ first ++ second))) }
{
    let mut text = one?;
    let more = other?;
    text.extend_from_slice(more.as_slice())?;
    Ok(text)
}
