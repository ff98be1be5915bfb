//! The walk over the scans of sheets, for the commands that go through them two images at a time.
//!
//! `SheetWork` is what such a command does: its step of a sheet, by the sheet's number and its two images, and what it
//! does at the end. `walk_scans` takes scan after scan, each in the last one's memory, and goes through it image after
//! image; an image that waits for its second at the end of a scan is the first of the next one's. What a walk does is
//! `scans_outcome` in `specs/Walk.antt`.
#![tactic(auto)]

mod images;
mod scans;
mod walked;
mod work;

pub use scans::walk_scans;
pub use work::SheetWork;
