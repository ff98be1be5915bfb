//! What each step on the table tells its seat, and how views are cut in two and put together.

use crate::held::Held;
use crate::seats::View;
use atomic_table::{Join, Play, Split};
use std::marker::{Brand, PhantomData};

/// A number is drawn.
pub struct Draw;

impl<'e> Play<Option<Held<'e>>, View> for Draw {
    ghost use Rattle.vx_shared.specs.Plays.{Drawn};

    ghost then = { Drawn };
}

/// The number whose turn it is, is looked at.
pub struct Look;

impl<'e> Play<Option<Held<'e>>, View> for Look {
    ghost use Rattle.vx_shared.specs.Plays.{Looked};

    ghost then = { Looked };
}

/// A call is put into the history.
pub struct Count;

impl<'e> Play<Option<Held<'e>>, View> for Count {
    ghost use Rattle.vx_shared.specs.Plays.{Counted};

    ghost then = { Counted };
}

/// The turn is given to the next number.
pub struct Leave;

impl<'e> Play<Option<Held<'e>>, View> for Leave {
    ghost use Rattle.vx_shared.specs.Plays.{Left};

    ghost then = { Left };
}

/// A seat and the one that it took over become one.
pub struct Merge;

impl<'e> Play<Option<Held<'e>>, View> for Merge {
    ghost use Rattle.vx_shared.specs.Plays.{Merged};

    ghost then = { Merged };
}

/// How many shares and calls are cut off. They are known where the program runs, and a step's rule is
/// fixed before, so each call picks them.
pub trait Portion {
    ghost use Rattle.std.specs.Prelude.{ℕ};

    ghost shares: { ℕ };

    ghost calls: { ℕ };
}

impl Portion for Brand {
    ghost shares = { 0 };

    ghost calls = { 0 };
}

/// A portion of the shares and calls is cut off.
pub struct Cut<N> {
    portion: PhantomData<N>,
}

impl<N: Portion> Split<View> for Cut<N> {
    ghost use Rattle.vx_shared.specs.Plays.{kept_part, cut_part};

    ghost left = { kept_part N.shares N.calls };

    ghost right = { cut_part N.shares N.calls };
}

/// A seat takes over another.
pub struct Both;

impl Join<View> for Both {
    ghost use Rattle.vx_shared.specs.Plays.{beside};
    ghost use Rattle.vx_shared.specs.Seats.{spent_view};

    ghost both = { beside };

    ghost spent = { spent_view };
}
