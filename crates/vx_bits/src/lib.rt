//! Pages of dark and light pixels, packed eight to a byte.
//!
//! `BitPage` owns a page and `BitView` borrows the packed rows of one. Contracts see both as a
//! `Page` of `vx_plane`: a width, a height and rows of truth values. Padding bits aren't seen.
//! `append_raster` writes them as 0. `specs/Packed.antt` says what packed rows and rasters are.
#![tactic(auto)]

mod packed;
mod page;
mod raster;
mod run;
mod view;

pub use page::{BitPage, bit_page_is_shared, drop_page};
pub use raster::rasters_show_their_pages;
pub use view::BitView;
pub use vx_base::{Bytes, OutOfMemory};
