//! Counts of the dark pixels of a scan in rectangles.
//!
//! A `Counter` keeps a copy of a page and is seen as that page, turned by 180 degrees where it was
//! turned. It answers the count of `vx_plane`'s `specs/Count.antt`; what isn't on the page is
//! light. How it counts is its own: packed rows, read eight bytes at a time, with sums at every
//! 1024th column (`RowSums`). No pixel leaves the crate, only counts do.
#![tactic(auto)]

mod counter;
mod cut;
mod laws;
mod packed;
mod row_sums;

pub use counter::Counter;
pub use laws::turned_twice_is_as_before;
pub use row_sums::{CounterMemory, RowSums};
