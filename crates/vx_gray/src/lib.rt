//! Grayscale pages in netpbm's raw PGM format, and the bitmaps of them.
//!
//! `PgmReader` reads the images of bytes one after another, and `to_bits` makes the bitmap of one:
//! a pixel is dark where it has less than half of the greatest value near it. A `GrayView` is seen as
//! its page, and a reader as what of its bytes is unread. The grammar stands in `specs/Header.antt`
//! and `specs/Images.antt`, the bits of a page in `specs/Gray.antt`, the texts of faults in
//! `specs/FaultTexts.antt`.
//!
//! That the bits of a grayscale scan which fits a printed page with some marks fit that page with those marks is
//! the law `bits_fit`, its statement `specs/Fits.antt`; what light such a scan needs stands in `specs/Light.antt`. That
//! every printed page, shown in such a light, is such a scan is the law `shown_prints_fit`.
#![tactic(auto)]

mod bits;
mod fault;
mod header;
mod image;
mod laws;
mod near;
mod packing;
mod reader;
mod step;
mod view;

pub use bits::to_bits;
pub use fault::PgmFault;
pub use laws::{bits_fit, images_are_sized, shown_prints_fit, shown_scans_fit};
pub use reader::PgmReader;
pub use view::GrayView;
