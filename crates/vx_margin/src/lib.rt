//! What a scan shows of a page's timing marks, boxes and bubbles under a slant, and where they are then
//! found. It knows no election.
//!
//! `specs/Marks.antt`, `Flips.antt` and `Shown.antt` say what a scan has to show; `specs/Laws.antt` says where
//! things are found, each a law that a function here carries: what is accepted lies within (4, 2) of a mark's
//! image, predictions within (5, 3), grid places within (6, 4), and windows there hold their boxes.
#![tactic(auto)]

mod laws;

pub use laws::{
    accepted_places_belong, accepted_places_have_low_deficits, borders_are_found,
    chains_lie_at_marks, cores_between_marks_are_light, corner_chains_lie_at_marks,
    followed_places_are_chains, grid_places_lie_near, images_have_no_deficit,
    low_deficits_lie_near, next_marks_are_expected, timing_marks_are_marks,
    turned_chains_lie_at_marks, turned_windows_hold, windows_hold, windows_lie_between,
};
