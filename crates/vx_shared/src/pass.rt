ghost use Rattle.std.specs.Prelude.{◌≡◌, ◌<◌, [], length};
ghost use Rattle.vx_shared.specs.Calls.{IsSeated, known, view_of};
ghost use Rattle.vx_shared.specs.Legal.{IsLegal};
ghost use Rattle.vx_shared.specs.Seats.{start_of};

use crate::board::Place;
use crate::seats::View;
use atomic_table::Badge;
use std::marker::Model;

/// The right to call a shared center so often, in so many threads. Contracts see which shared center
/// it belongs to, what that was made from, the history that it has seen with the marks of its own
/// calls, and its shares and calls.
#[derive(Drop)]
pub struct Pass {
    badge: Badge<View>,
    shares: u32,
    calls: u64,
    seen: u64,
    /// How many of its last calls, one after another, had to wait for their turns.
    crowd: u32,
}

impl Model for Pass {
    ghost use Rattle.vx_shared.specs.Calls.{IsBadged, Known, known, the_view};

    ghost Value = { Known };

    ghost view = { λ pass. known pass.badge.table_id (the_view pass.badge.views) };

    ghost invariant = { λ pass. IsBadged pass.badge.views pass.shares pass.calls pass.seen };
}

impl Pass {
    /// For how many threads it can be split, its own included.
    pub fn shares(&self) -> u32
        ensures value { result ≡ self.now.shares }
        ensures some { 0 < result }
    {
        self.shares
    }

    /// How often it can still call.
    pub fn calls_left(&self) -> u64
        ensures { result ≡ self.now.calls }
    {
        self.calls
    }

    /// The length of the history that it has seen.
    pub fn seen(&self) -> u64
        ensures value { result ≡ length self.now.seen }
        ensures legal { IsLegal (start_of self.now.origin) self.now.seen }
    {
        self.seen
    }

    /// How many of its last calls, one after another, had to wait for their turns.
    pub(crate) fn crowd(&self) -> u32 {
        self.crowd
    }

    /// The pass as a seat.
    pub(crate) fn into_seat<'e>(self) -> Place<'e>
        ensures place { result.table_id ≡ self.of }
        ensures seat { result.me ≡ (view_of self, []) }
    {
        let Pass { badge, .. } = self;
        badge.into_seat()
    }

    /// The pass of a seat.
    pub(crate) fn of_seat(seat: Place<'_>, shares: u32, calls: u64, seen: u64, crowd: u32) -> Pass
        requires empty { seat.me.1 ≡ [] }
        requires seated { IsSeated seat.me.0 shares calls seen }
        ensures { result ≡ known seat.entry.table_id seat.entry.me.0 }
    {
        Pass {
            badge: seat.into_badge(),
            shares,
            calls,
            seen,
            crowd,
        }
    }
}
