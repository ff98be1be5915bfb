//! How a page lies in its scan: moved, and slanted a little.
//!
//! A shear takes each place of the paper to a place of the scan and back. What it does is defined in
//! `specs/Slants.antt`; that slants, of which shears are some, are bijections, almost rigid on small
//! rectangles, and conserve counts, is said in `specs/Laws.antt` and `Back.antt`, each a law that a
//! function here carries.
#![tactic(auto)]

mod laws;
mod shear;

pub use laws::{
    slants_are_bijections, slants_are_rigid, slants_conserve_counts,
    slants_move_back_nearly_as_a_whole, slants_move_nearby, slants_move_nearly_as_a_whole,
};
pub use shear::{Shear, rise};
