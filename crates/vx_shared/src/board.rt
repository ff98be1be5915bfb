//! The table that the threads share. Word 0 is the number that is drawn next, word 1 the number whose
//! turn it is, both modulo 2^64, and word 2 the length of the history. The one slot holds the center.
use crate::held::Held;
use crate::seats::View;
use atomic_table::{Seat, Shared, Table, TableRule};
use std::alloc::Global;
use std::snapshot::Snapshot;
use vx_center::Center;

/// The number that is drawn next.
pub const TICKET: usize = 0;

/// The number whose turn it is.
pub const SERVING: usize = 1;

/// How many calls the history has.
pub const COUNT: usize = 2;

/// What a table is made from: the center before the first call, and the shares and calls of the
/// first pass.
#[derive(Drop)]
pub struct Start<'e> {
    pub center: Snapshot<Center<'e>>,
    pub shares: u32,
    pub calls: u64,
}

pub struct InTurn;

impl<'e> TableRule<Option<Held<'e>>, View, Start<'e>> for InTurn {
    ghost use Rattle.vx_shared.specs.Rule.{Ruled};
    ghost use Rattle.vx_shared.specs.Seats.{first_view, origin_of};

    ghost holds = { λ _. Ruled };

    ghost first = { λ start. first_view (origin_of start.center.value start.shares start.calls) };
}

pub type Board<'e> = Table<Option<Held<'e>>, View, Start<'e>, InTurn, Global>;

pub type Steps<'e> = Shared<Option<Held<'e>>, View, Start<'e>, InTurn>;

pub type Place<'e> = Seat<Option<Held<'e>>, View>;
