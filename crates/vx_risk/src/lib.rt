//! The arithmetic of an audit's risk: whole numbers in, the Kaplan-Markov bound out.
//!
//! `specs/Bound.antt` defines the bound P of a ballot-level comparison audit as a fraction of exact
//! whole numbers, and `specs/Enough.antt` how many draws are enough. `bound_of` and `enough_draws`
//! are proved to answer exactly that: they compute with whole numbers of any size, so that nothing
//! is rounded but the printed millionths, upwards. What follows from the definitions stands in
//! `specs/Laws.antt`.
//!
//! It knows nothing of elections, and stands on `vx_base` alone, for want of memory.
#![tactic(auto)]

mod bound;
mod draws;
mod enough;
mod laws;
mod limbs;
mod natural;

pub use bound::{Bound, bound_of};
pub use draws::Draws;
pub use enough::enough_draws;
pub use laws::{
    draws_never_hurt, enough_is_least, millionths_are_rounded_up, more_never_helps,
    order_is_nothing,
};
