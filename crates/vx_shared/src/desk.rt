//! A shared center as its threads see it, which don't know how long its election lives.
ghost use Rattle.std.specs.Prelude.{◌≡◌, ◌-◌, ◌<◌, ◌≤◌, [], IfOk, OnErr};
ghost use Rattle.vx_events.specs.Fits.{Fits};
ghost use Rattle.vx_shared.specs.Calls.{HasCalled, HasJoined};

use crate::pass::Pass;
use crate::sharing::{Receipt, SharedCenter};
use std::alloc::Global;
use std::sync::Wait;
use vx_base::OutOfMemory;
use vx_events::Event;
use vx_workers::Gate;

/// What threads do at a shared center. The calls are those of `SharedCenter`.
pub trait Desk {
    ghost use Rattle.atomic_table.specs.Seated.{TableId};

    // Which shared center it is.
    ghost id: { Self → TableId };

    /// Calls the center with an event that fits, as `SharedCenter::call`.
    fn call<R: Wait>(
        &self,
        rt: &R,
        alloc: Global,
        pass: Pass,
        event: Event,
    ) -> (Pass, Result<Receipt, OutOfMemory>)
        requires belongs { pass.of ≡ id self.now }
        requires calls { 0 < pass.calls }
        requires fits { Fits pass.origin.election event }
        ensures called { IfOk result.1 (λ receipt. HasCalled pass event receipt.place receipt.reply result.0) }
        ensures refused { OnErr result.1 (result.0 ≡ pass) };

    /// Cuts a pass with so many shares and calls off another, as `SharedCenter::split`.
    fn split(&self, pass: Pass, shares: u32, calls: u64) -> (Pass, Pass)
        requires belongs { pass.of ≡ id self.now }
        requires some_share { 0 < shares }
        requires fewer_shares { shares < pass.shares }
        requires few_calls { calls ≤ pass.calls }
        ensures first { result.0 ≡ record pass { shares = pass.shares - shares; calls = pass.calls - calls } }
        ensures second { result.1 ≡ record pass { own = []; shares = shares; calls = calls } };

    /// Makes one pass of two, as `SharedCenter::join`.
    fn join(&self, keep: Pass, give: Pass) -> Pass
        requires keep { keep.of ≡ id self.now }
        requires give { give.of ≡ id self.now }
        ensures { HasJoined keep give result };
}

impl Desk for SharedCenter<'_> {
    ghost id = { λ center. center };

    fn call<R: Wait>(
        &self,
        rt: &R,
        alloc: Global,
        pass: Pass,
        event: Event,
    ) -> (Pass, Result<Receipt, OutOfMemory>) {
        SharedCenter::call(self, rt, alloc, pass, event)
    }

    fn split(&self, pass: Pass, shares: u32, calls: u64) -> (Pass, Pass) {
        SharedCenter::split(self, pass, shares, calls)
    }

    fn join(&self, keep: Pass, give: Pass) -> Pass {
        SharedCenter::join(self, keep, give)
    }
}

/// A desk at which a gate is asked before each call, with a number, and nothing hangs on what it answers.
#[derive(Drop)]
pub(crate) struct GatedDesk<'a, S, G> {
    pub(crate) desk: &'a S,
    pub(crate) gate: &'a G,
    pub(crate) number: u32,
}

impl<'a, S: Desk, G: Gate> Desk for GatedDesk<'a, S, G> {
    ghost id = { λ gated. S.id gated.desk.now };

    fn call<R: Wait>(
        &self,
        rt: &R,
        alloc: Global,
        pass: Pass,
        event: Event,
    ) -> (Pass, Result<Receipt, OutOfMemory>) {
        let _ = self.gate.enter(self.number);
        self.desk.call(rt, alloc, pass, event)
    }

    fn split(&self, pass: Pass, shares: u32, calls: u64) -> (Pass, Pass) {
        self.desk.split(pass, shares, calls)
    }

    fn join(&self, keep: Pass, give: Pass) -> Pass {
        self.desk.join(keep, give)
    }
}
