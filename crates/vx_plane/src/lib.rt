//! Sets of places in the plane, pages, and counts in rectangles: the words in which every other
//! crate says what it paints, counts or compares. There is no code here.
//!
//! The definitions stand in `specs/Plane.antt` and `specs/Count.antt`, their laws in `proofs/`.
#![tactic(auto)]
