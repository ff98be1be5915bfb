//! The font of the printed page: 95 glyphs of five dot columns by seven dot rows.
//!
//! `dots` gives what is drawn for any character, and `has_glyph` whether that is a glyph of the
//! table. Both are defined in `specs/Font.antt`, over the one table in `src/glyphs.rt`.
#![tactic(auto)]

mod glyphs;

pub use glyphs::{dots, has_glyph};
