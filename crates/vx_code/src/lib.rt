//! The page code: what a ballot page says of itself in 42 pairs of boxes, and how it is read back.
//!
//! A code has a version, a test flag, a kind, a card, a page and a tag of the election. Its bits,
//! its number, its boxes and its reading are defined in `specs/Code.antt`, over the numbers of lists
//! of bits in `specs/Bits.antt`. What `read_boxes` answers for 84 counts is defined whole, and the
//! boxes of a code give that code back.
#![tactic(auto)]

mod boxes;
mod code;
mod laws;
mod reading;

pub use boxes::{boxes_of, place_of_box};
pub use code::{CodeFault, PageCode, number_of, tag_of, version_of};
pub use laws::{codes_are_given_back, no_bit_is_refused, read_codes_are_shown, tags_are_in_range};
pub use reading::read_boxes;
