//! One counting center that several threads call at once, as if one after the other.
//!
//! `SharedCenter` is called under a `Pass`, which can be split for threads and joined again. `run_all`
//! does the items of a list by a thread each: what the pass has gained then is in `specs/Gained.antt`,
//! the events at those places of the history interleave those of the items.
#![tactic(auto)]

mod board;
mod desk;
mod halves;
mod held;
mod history;
mod laws;
mod making;
mod pass;
mod plays;
mod seats;
mod sharing;
mod turns;
mod work;

pub use desk::Desk;
pub use halves::run_all;
pub use history::{Entries, Entry};
pub use laws::{
    center_is_shared, first_adds_are_done, interleavings_are_whole, lists_have_histories,
    pass_is_handed, passes_gain_their_calls,
};
pub use making::{make, make_all};
pub use pass::Pass;
pub use sharing::{Receipt, SharedCenter};
pub use work::{Scripts, Work};
