ghost use Rattle.std.specs.Prelude.{◌≡◌, ◌+◌, ◌-◌, ◌<◌, ◌≤◌, [], true, length, replicate, IfOk, OnErr};
ghost use Rattle.vx_events.specs.Fits.{Fits};
ghost use Rattle.vx_shared.specs.Calls.{HasCalled, HasJoined, known};
ghost use Rattle.vx_shared.specs.Legal.{IsLegal, after};
ghost use Rattle.vx_shared.specs.Plays.{HasMerged, IsReady, cut_part, kept_part};
ghost use Rattle.vx_shared.specs.Rule.{IsBoard};
ghost use Rattle.vx_shared.specs.Seats.{first_view, origin_of, start_of};

use crate::board::{Board, Place, Start, Steps, TICKET};
use crate::held::Held;
use crate::history::Entries;
use crate::pass::Pass;
use crate::plays::{Both, Cut, Merge, Portion};
use crate::turns::{give_way, take_turn};
use atomic_table::{Refused, Table};
use std::alloc::Global;
use std::marker::{Brand, Model};
use std::snapshot::Snapshot;
use std::sync::Wait;
use vx_base::OutOfMemory;
use vx_center::Center;
use vx_events::{Event, Reply};

/// Where a call stands in the history, counted from 0, and what was answered.
#[derive(Clone, Copy, Debug, PartialEq, Eq)]
pub struct Receipt {
    pub place: u64,
    pub reply: Reply,
}

/// A counting center that threads call at once. Contracts see which one it is.
#[derive(Drop)]
pub struct SharedCenter<'e> {
    board: Board<'e>,
}

impl<'e> Model for SharedCenter<'e> {
    ghost use Rattle.atomic_table.specs.Seated.{TableId};
    ghost use Rattle.vx_shared.specs.Rule.{IsBoard};

    ghost Value = { TableId };

    ghost view = { λ center. center.board.shared.table_id };

    ghost invariant = { λ center. IsBoard center.board.shared.table_id };
}

impl<'e> SharedCenter<'e> {
    /// A center that was not called yet, and the pass that has all shares and calls. Where there is
    /// no memory the center is dropped.
    pub fn new(
        alloc: Global,
        center: Center<'e>,
        shares: u32,
        calls: u64,
    ) -> Result<(SharedCenter<'e>, Pass), OutOfMemory>
        requires some_share { 0 < shares }
        requires few_shares { shares ≤ 64 }
        requires some_call { 0 < calls }
        requires few_calls { calls ≤ 1000000 }
        ensures { IfOk result (λ made. made.1 ≡ known made.0 (first_view (origin_of center.entry shares calls))) }
    {
        let start = Start {
            center: Snapshot::of(&center),
            shares,
            calls,
        };
        let mut slots = Vec::with_capacity(alloc, 1)?;
        slots.push_reserved(Some(Held::new(alloc, center)));
        match Table::new(alloc, &[0, 0, 0], slots, &start) {
            Ok((board, seat)) => {
                let pass = Pass::of_seat(seat, shares, calls, 0, 0);
                Ok((SharedCenter { board }, pass))
            }
            Err(Refused { slots: _ }) => Err(OutOfMemory),
        }
    }

    /// Calls the center with an event that fits. It waits for its turn. Where there is no memory,
    /// nothing is kept and no call is used.
    pub fn call<R: Wait>(
        &self,
        rt: &R,
        alloc: Global,
        pass: Pass,
        event: Event,
    ) -> (Pass, Result<Receipt, OutOfMemory>)
        requires belongs { pass.of ≡ self.now }
        requires calls { 0 < pass.calls }
        requires fits { Fits pass.origin.election event }
        ensures belongs { result.0.of ≡ self.now }
        ensures called { IfOk result.1 (λ receipt. HasCalled pass event receipt.place receipt.reply result.0) }
        ensures refused { OnErr result.1 (result.0 ≡ pass) }
    {
        let (shares, calls, seen) = (pass.shares(), pass.calls_left(), pass.seen());
        let crowd = give_way(rt, pass.crowd(), seen);
        let mut seat = pass.into_seat();
        let mut waits = 0;
        let answer = take_turn(rt, alloc, &self.board.shared, &mut seat, event, &mut waits);
        let crowd = if waits > 0 { crowd + 1 } else { 0 };
        match answer {
            Ok(receipt) => {
                let pass = Pass::of_seat(seat, shares, calls - 1, receipt.place + 1, crowd);
                (pass, Ok(receipt))
            }
            Err(no_memory) => (
                Pass::of_seat(seat, shares, calls, seen, crowd),
                Err(no_memory),
            ),
        }
    }

    /// Cuts a pass with so many shares and calls off another. It has seen the same, and has no calls
    /// of its own yet.
    pub fn split(&self, pass: Pass, shares: u32, calls: u64) -> (Pass, Pass)
        requires belongs { pass.of ≡ self.now }
        requires some_share { 0 < shares }
        requires fewer_shares { shares < pass.shares }
        requires few_calls { calls ≤ pass.calls }
        ensures first { result.0 ≡ record pass { shares = pass.shares - shares; calls = pass.calls - calls } }
        ensures second { result.1 ≡ record pass { own = []; shares = shares; calls = calls } }
    {
        let (all_shares, all_calls, seen) = (pass.shares(), pass.calls_left(), pass.seen());
        let mut seat = pass.into_seat();
        let other = cut::<Brand>(&self.board.shared, &mut seat, shares, calls);
        (
            Pass::of_seat(seat, all_shares - shares, all_calls - calls, seen, 0),
            Pass::of_seat(other, shares, calls, seen, 0),
        )
    }

    /// Makes one pass of two.
    pub fn join(&self, keep: Pass, give: Pass) -> Pass
        requires keep { keep.of ≡ self.now }
        requires give { give.of ≡ self.now }
        ensures { HasJoined keep give result }
    {
        let shares = (keep.shares(), give.shares());
        let calls = (keep.calls_left(), give.calls_left());
        let seen = keep.seen().max(give.seen());
        let mut seat = keep.into_seat();
        let other = give.into_seat();
        merge(&self.board.shared, &mut seat, other);
        Pass::of_seat(seat, shares.0 + shares.1, calls.0 + calls.1, seen, 0)
    }

    /// Ends the shared center: the center, and the history of its calls. The pass has to have all
    /// shares; so all calls are its own.
    pub fn close(self, pass: Pass) -> (Center<'e>, Entries)
        requires belongs { pass.of ≡ self }
        requires all { pass.shares ≡ pass.origin.shares }
        ensures history { result.1 ≡ pass.seen }
        ensures legal { IsLegal (start_of pass.origin) result.1 }
        ensures center { result.0 ≡ after (start_of pass.origin) result.1 }
        ensures own { pass.own ≡ replicate (length result.1) true }
        ensures calls { pass.calls + length result.1 ≡ pass.origin.calls }
    {
        prove!(0 < pass.shares());
        let seat = pass.into_seat();
        let SharedCenter { board } = self;
        let mut closed = board.close_with(seat);
        let held = closed.take(0).unwrap();
        closed.free();
        held.into_parts()
    }
}

/// Cuts a seat with so many shares and calls off another.
fn cut<'e, N: Portion>(
    steps: &Steps<'e>,
    seat: &mut Place<'e>,
    _shares: u32,
    _calls: u64,
) -> Place<'e>
    requires place { seat.old.table_id ≡ steps.now.table_id }
    requires board { IsBoard steps.now.table_id }
    requires ready { IsReady seat.old.me }
    requires picked { (N.shares ≡ _shares) × (N.calls ≡ _calls) }
    requires some { 0 < _shares }
    requires fewer { _shares < seat.old.me.0.shares }
    requires few { _calls ≤ seat.old.me.0.calls }
    ensures place { seat.new.table_id ≡ seat.old.table_id }
    ensures other { result.table_id ≡ seat.old.table_id }
    ensures first { seat.new.me ≡ (kept_part _shares _calls seat.old.me.0, []) }
    ensures second { result.me ≡ (cut_part _shares _calls seat.old.me.0, []) }
{
    steps.split_seat::<Cut<N>>(seat)
}

/// A seat takes over another.
fn merge<'e>(steps: &Steps<'e>, seat: &mut Place<'e>, other: Place<'e>)
    requires place { seat.old.table_id ≡ steps.now.table_id }
    requires there { other.table_id ≡ steps.now.table_id }
    requires board { IsBoard steps.now.table_id }
    requires ready { IsReady seat.old.me }
    requires other { IsReady other.me }
    ensures place { seat.new.table_id ≡ seat.old.table_id }
    ensures merged { HasMerged seat.old.me.0 other.entry.me.0 seat.new.me }
{
    steps.join_seat::<Both>(seat, other);
    steps.load::<Merge>(seat, TICKET);
}
