//! What a page for a browser holds besides its fixed parts: JSON without the bytes that markup is made of.
//!
//! A value's line is `data_line` in `specs/Escaped.antt`: its JSON, in which each byte that markup is made of is
//! written by its number, and a line end. `push_line` adds it; `push_item` and `push_members` add a value of a
//! list and the members of an object by themselves, so that no more than one value is held. `push_pieces` adds the
//! pieces of a fixed part. Values in short are those of `specs/Json.antt`. That no line has markup in it is a law
//! of `specs/Laws.antt`.
#![tactic(auto)]

mod escape;
mod laws;
mod pieces;

pub use escape::{push_item, push_line, push_members};
pub use laws::{lines_have_no_markup, texts_join_without_markup};
pub use pieces::push_pieces;
