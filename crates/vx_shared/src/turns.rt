//! A seat's way through a turn: it draws a number, waits for its turn, takes the center, calls it, puts
//! it back, counts the call and gives the turn to the next number.
ghost use Rattle.std.specs.Prelude.{◌≡◌, ◌<◌, ◌≤◌, ◌++◌, ◌∷◌, [], IfOk, OnErr, OnOk};
ghost use Rattle.vx_events.specs.Fits.{Fits};
ghost use Rattle.vx_shared.specs.Calls.{HasTurned};
ghost use Rattle.vx_shared.specs.Legal.{IsLegal, entry};
ghost use Rattle.vx_shared.specs.Plays.{HasTurn, HasWorked, IsCounted, IsReady, IsWaiting, MayLeave, posed};
ghost use Rattle.vx_shared.specs.Rule.{IsBoard};
ghost use Rattle.vx_shared.specs.Seats.{hand, hand_log, start_of};
ghost use Rattle.vx_shared.specs.declared.seats.Role.TheVariants.{Idle};

use crate::board::{COUNT, Place, SERVING, Steps, TICKET};
use crate::plays::{Count, Draw, Leave, Look};
use crate::sharing::Receipt;
use std::alloc::Global;
use std::sync::Wait;
use std::sync::atomic::AtomicU64;
use std::time::Duration;
use vx_base::OutOfMemory;
use vx_events::{Event, Reply};

/// How many calls of a pass have to wait for their turns, one after another, before it lets others go first.
const CROWD: u32 = 8;

/// For how many milliseconds it lets them.
const REST: u64 = 2;

/// Sleeps a while where so many calls had to wait that others call all the time: they need not give the
/// turn away after each call then. Two passes that wait for each other by turns would both sleep at once;
/// so the one that has seen an even history makes one more call. Answers how many had to wait, no more
/// than one more than that many.
pub fn give_way<R: Wait>(rt: &R, crowd: u32, seen: u64) -> u32
    ensures { result ≤ 9 }
{
    if crowd < CROWD || (crowd == CROWD && seen % 2 == 0) {
        return crowd;
    }
    let quiet = AtomicU64::new(0);
    quiet.park_timeout(rt, 0, Duration::from_millis(REST));
    CROWD + 1
}

/// A whole turn. Where there is no memory for the call, nothing is counted and the seat is as before.
pub fn take_turn<'e, R: Wait>(
    rt: &R,
    alloc: Global,
    steps: &Steps<'e>,
    seat: &mut Place<'e>,
    event: Event,
    waits: &mut u32,
) -> Result<Receipt, OutOfMemory>
    requires place { seat.old.table_id ≡ steps.now.table_id }
    requires board { IsBoard steps.now.table_id }
    requires ready { IsReady seat.old.me }
    requires calls { 0 < seat.old.me.0.calls }
    requires fits { Fits seat.old.me.0.origin.election event }
    ensures place { seat.new.table_id ≡ seat.old.table_id }
    ensures called { IfOk result (λ receipt. HasTurned seat.old.me event receipt.place receipt.reply seat.new.me) }
    ensures refused { OnErr result (seat.new.me ≡ seat.old.me) }
{
    enter(rt, steps, seat, waits);
    match work(alloc, steps, seat, event) {
        Ok(reply) => {
            let place = count(steps, seat);
            leave(steps, seat);
            Ok(Receipt { place, reply })
        }
        Err(no_memory) => {
            leave(steps, seat);
            Err(no_memory)
        }
    }
}

/// Draws a number and waits for its turn.
fn enter<'e, R: Wait>(rt: &R, steps: &Steps<'e>, seat: &mut Place<'e>, waits: &mut u32)
    requires place { seat.old.table_id ≡ steps.now.table_id }
    requires board { IsBoard steps.now.table_id }
    requires ready { IsReady seat.old.me }
    ensures place { seat.new.table_id ≡ seat.old.table_id }
    ensures turn { HasTurn seat.old.me seat.new.me }
{
    let number = steps.fetch_add::<Draw>(seat, TICKET, 1);
    wait(rt, steps, seat, number, waits);
}

/// Waits for the turn of the seat's number, asleep while it is another's, and counts how often it slept.
fn wait<'e, R: Wait>(rt: &R, steps: &Steps<'e>, seat: &mut Place<'e>, number: u64, waits: &mut u32)
    requires place { seat.old.table_id ≡ steps.now.table_id }
    requires board { IsBoard steps.now.table_id }
    requires waits { IsWaiting seat.old.me number }
    ensures place { seat.new.table_id ≡ seat.old.table_id }
    ensures turn { HasTurn seat.old.me seat.new.me }
{
    for _ in rt.forever() {
        let serving = steps.load::<Look>(seat, SERVING);
        if serving == number {
            return;
        }
        *waits = waits.saturating_add(1);
        steps.park(rt, SERVING, (serving % (1 << 32)) as u32);
    }
    unreachable!()
}

/// Takes the center, calls it, and puts it back.
fn work<'e>(
    alloc: Global,
    steps: &Steps<'e>,
    seat: &mut Place<'e>,
    event: Event,
) -> Result<Reply, OutOfMemory>
    requires place { seat.old.table_id ≡ steps.now.table_id }
    requires holds { seat.old.me.1 ≡ hand seat.old.me.0.origin (hand_log seat.old.me.1) }
    requires fits { Fits seat.old.me.0.origin.election event }
    ensures place { seat.new.table_id ≡ seat.old.table_id }
    ensures called { IfOk result (λ reply. seat.new.me
        ≡ (seat.old.me.0, hand seat.old.me.0.origin (hand_log seat.old.me.1 ++ entry event reply ∷ []))) }
    ensures legal { OnOk result (IsLegal (start_of seat.old.me.0.origin) (hand_log seat.new.me.1)) }
    ensures as_before { OnErr result (seat.new.me ≡ seat.old.me) }
{
    let mut held = steps.exchange(seat, 0, None).unwrap();
    let reply = held.apply(alloc, event);
    drop(steps.exchange(seat, 0, Some(held)));
    reply
}

/// Counts a call, and answers its place in the history.
fn count<'e>(steps: &Steps<'e>, seat: &mut Place<'e>) -> u64
    requires place { seat.old.table_id ≡ steps.now.table_id }
    requires board { IsBoard steps.now.table_id }
    requires worked { HasWorked seat.old.me }
    ensures place { seat.new.table_id ≡ seat.old.table_id }
    ensures counted { IsCounted seat.old.me result seat.new.me }
{
    steps.fetch_add::<Count>(seat, COUNT, 1)
}

/// Gives the turn to the next number, and wakes those that wait.
fn leave<'e>(steps: &Steps<'e>, seat: &mut Place<'e>)
    requires place { seat.old.table_id ≡ steps.now.table_id }
    requires board { IsBoard steps.now.table_id }
    requires may { MayLeave seat.old.me }
    ensures place { seat.new.table_id ≡ seat.old.table_id }
    ensures idle { seat.new.me ≡ (posed seat.old.me.0 Idle, []) }
{
    steps.fetch_add::<Leave>(seat, SERVING, 1);
    steps.wake_all(SERVING);
}
