//! Bitmaps in netpbm's PBM format: `PbmReader` reads the images of bytes one after another, raw
//! (`P4`) and plain (`P1`), and `write_p4` appends a page as a raw bitmap.
//!
//! The reader is seen as what of its bytes is unread. Each answer is the first image of that, by the
//! grammar of `specs/Header.antt`, `specs/Raster.antt` and `specs/Images.antt`, or the fault of the
//! first offset that leaves it. Raw images are lent from the bytes. The text of a raw bitmap that is
//! written is defined in `specs/Raw.antt`; what is written is read back, and raw bitmaps may follow
//! one another.
#![tactic(auto)]

mod fault;
mod header;
mod image;
mod laws;
mod lent;
mod plain;
mod raw;
mod reader;
mod step;

pub use fault::PbmFault;
pub use header::{gap_at, number_at, space_at};
pub use image::Image;
pub use laws::{
    a_walk_gives_all_images, images_are_whole, raw_images_join, what_is_written_reads_back,
};
pub use raw::write_p4;
pub use reader::PbmReader;
