//! Finding a timing mark in a scan: this project's own geometry.
//!
//! A place is a mark's centre as far as its core is dark and its four flanks are light: what is
//! wrong there is its deficit, and up to 20 it is accepted. The corner of a scan and the best place
//! near a predicted one are the first of all accepted places of a region, in a stated order. The
//! definitions stand in `specs/Mark.antt`, `specs/Corner.antt` and `specs/Best.antt` of `vx_mark_model`,
//! as counts of `vx_plane`; that the corner and the best place are one are laws there. A search leaves a
//! place as soon as it can't be the answer any more, and the places of a row where one row of pixels
//! shows it of all of them; what it keeps meanwhile stands in `specs/Search.antt`. No call takes memory.
#![tactic(auto)]

mod corner;
mod judge;
mod pixels;
mod search;

pub use corner::first_corner;
pub use judge::{accepted, deficit};
pub use search::best_near;
