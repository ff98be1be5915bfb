//! Trials of single crates: of what no clause of theirs says, and of what is worked out by hand.
//!
//! They stand here, one file for each crate, so that no crate is proved twice for its tests.
#![tactic(auto)]

#[cfg(test)]
mod base;
#[cfg(test)]
mod bits;
#[cfg(test)]
mod border;
#[cfg(test)]
mod code;
#[cfg(test)]
mod count;
#[cfg(test)]
mod events;
#[cfg(test)]
mod font;
#[cfg(test)]
mod geom;
#[cfg(test)]
mod io;
#[cfg(test)]
mod json;
#[cfg(test)]
mod mark;
#[cfg(test)]
mod pbm;
#[cfg(test)]
mod readings;
#[cfg(test)]
mod scan_model;
#[cfg(test)]
mod workers;
