//! Painting: a planned page as the bitmap that is printed.
//!
//! `paint` makes exactly the page whose dark pixels are `print_of` of `vx_layout`: timing marks,
//! code boxes, the outlines of bubbles and the dots of texts. All of them are shapes of a few
//! rectangles, put at places (`specs/Shape.antt`), so no pixel is visited that no shape covers.
#![tactic(auto)]

mod boxes;
mod marks;
mod outline;
mod painting;
mod round;
mod stamp;
mod text;

pub use painting::paint;
