//! Typed members of a JSON value, or the first fault with the path of the place where it stands.
//!
//! Each call answers a value of `serde_json` as a text, a whole number, a list or a flag, or a
//! `JsonFault`. What is right and which fault comes is one function of the value for each call, in
//! `specs/Reading.antt`; how a path is spelled stands in `specs/Paths.antt`. A call whose memory
//! runs out answers `OutOfMemory`.
#![tactic(auto)]

mod fault;
mod kinds;
mod path;
mod text;

pub use fault::JsonFault;
pub use kinds::{flag_of, list_of, need, string_of, text_of, whole_of};
pub use path::Path;
pub use text::{Text, Texts, characters_of};
