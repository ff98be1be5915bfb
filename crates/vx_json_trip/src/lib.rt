//! That the text of a JSON value is read back as that value: laws without work over `serde_json`.
//!
//! What is asked of a value, and the laws, stand in `specs/Trips.antt`: its numbers are integers of
//! 64 bits, it nests no deeper than the reader admits, and the names of its objects stand in the
//! order of their bytes, each once. What is read of a text in UTF-8 has its strings in UTF-8:
//! `specs/Strings.antt`. A caller has a law among its facts by calling its function.
#![tactic(auto)]

mod laws;

pub use laws::{lines_are_read_back, strings_are_utf8, texts_are_read, texts_are_read_back};
