//! The counting of ranked ballots in rounds.
//!
//! In each round a ballot counts for the first candidate of its ranking that stands; the one with
//! the least count goes out, until one has more than half of the ballots that count. `rounds_of`
//! in `specs/Rounds.antt` says so, and counts all ballots anew in every round. `count_rounds` is
//! proved to answer that, while it moves ballots between piles: what is asked of a ballot is
//! counted by `Steps`, and is at most each place of its ranking and once past its end.
//!
//! It stands on no other crate but `vx_base`, for the list of a list (`ListOf`), want of memory and
//! general lemmas; the counter of steps is a total of std's `sync::ledger`.
#![tactic(auto)]

mod ballots;
mod choosing;
mod counting;
mod deciding;
mod laws;
mod laying;
mod outcome;
mod piles;
mod steps;

pub use ballots::{Ballots, Ranking, Rankings};
pub use counting::count_rounds;
pub use laws::{counts_end, rankings_are_short};
pub use outcome::{Counts, Round, RoundList, Rounds};
pub use steps::Steps;
