//! What a timing mark is in a scan: which places are accepted, which is the corner, which is the best near
//! another, which lists of places are followed from mark to mark, and what the border of a scan is, or its
//! first fault.
//!
//! The definitions stand in `specs/Mark.antt`, `Corner.antt`, `Best.antt`, `Following.antt` and
//! `Border.antt`, and what is proved of them in `Laws.antt`: that a scan has one border, or one first
//! fault, among others. The searches of `vx_mark` and `vx_border` answer to them, and what a reading is
//! and the margin stand on them, so that a new search leaves both as they are. The code here looks at no
//! pixel: it says which mark leads to which, and where the next one is expected.
#![tactic(auto)]

mod fault;
mod laws;
mod steps;

pub use fault::BorderFault;
pub use laws::{
    a_list_is_followed, accepted_places_are_framed, borders_are_one, the_best_place_is_one,
    the_corner_is_one,
};
pub use steps::{expected, first_left, index_of, is_near, leader_of, right_of, side_of};
