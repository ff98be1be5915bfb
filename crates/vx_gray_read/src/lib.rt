//! What stands over the commands `gray` and `read`: that `read` tells, of what `gray` wrote of a grayscale scan, the page
//! that it is a scan of, with its marks. There is no work here; the contract is a law.
//!
//! `specs/Told.antt` says what it is for a file to hold what a `gray` wrote, and what `read` of that file tells. It rests
//! on three laws: `gray` writes bitmaps that are read back as the bits of its images, and those of an image that fits a
//! printed page fit it too (`vx_command_gray`), and what `read` writes tells each image that fits a printed page as that
//! page (`vx_command_read`). That there are such images for every printed page is `shown_prints_fit` of `vx_gray`.
#![tactic(auto)]

mod laws;

pub use laws::gray_scans_are_told;
