//! The call `run_gray`: the command `gray`, whole. It turns grayscale scans into bitmaps, image by image,
//! which the other commands take.
//!
//! What it does is `gray_outcome` in `specs/Outcome.antt`, acts in order and the status that it ends with;
//! which words are a `gray` stands in `specs/Words.antt`, the numbers and lines of its statuses in
//! `specs/Status.antt`, how far its acts are done when it answers in `specs/Done.antt`. Acts, and how they
//! break off, are those of `vx_command`; the bits of a grayscale page are `bits_of` of `vx_gray`. That what is
//! written is read back as those bits, and fits what the scans fit, stands in `specs/Bitmaps.antt`.
#![tactic(auto)]

mod laws;
mod reading;
mod scans;
mod status;
mod top;
mod writing;

pub use laws::bitmaps_are_written;
pub use status::{GrayMessage, GrayStatus};
pub use top::run_gray;
