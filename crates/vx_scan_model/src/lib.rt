//! What a reading of a scan is: the definitions that readers and checkers stand on, and the types
//! that they answer.
//!
//! `specs/Border.antt` says what the border of a scan is, `specs/Named.antt` which page a code names, `specs/Reading.antt` what a scan's reading is, or
//! its first fault, and `specs/FaultTexts.antt` how a fault is printed. Grid places stand in
//! `specs/Fit.antt` of `vx_fit`, scores and states in `specs/Score.antt` of `vx_score`, deficits in
//! `specs/Mark.antt` of `vx_mark_model`: all of them are counts of fixed rectangles of `vx_plane`.
//!
//! `specs/Certificate.antt` says what a certificate of a scan is. What readers and checkers both count stands here
//! once: the counts of code boxes and the scores of bubbles at the places of a border, and the plan
//! that a code names.
//!
//! The border is a function of the page here and a relation in `vx_mark_model`; that both say the same
//! are the laws `a_border_is_the_border` and `every_scan_has_its_border`.
#![tactic(auto)]

mod counts;
mod fault;
mod frame;
mod laws;
mod named;
mod reading;

pub use counts::{box_counts, bubble_score};
pub use fault::PageFault;
pub use frame::allowed_heights;
pub use laws::{
    a_border_is_the_border, bubbles_are_outlined, certificates_say_what_fits, clean_prints_fit,
    codes_name_printed_pages, every_scan_has_its_border, fitting_scans_are_read,
    named_pages_stand_on_the_grid, places_are_tested, readings_are_certificates,
    shown_pages_are_counted, turned_pages_are_none_as_they_lie,
    turned_pages_are_not_certified_as_they_lie,
};
pub use named::find_plan;
pub use reading::{PageReading, Scores};
