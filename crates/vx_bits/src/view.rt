ghost use Rattle.std.specs.Prelude.{◌≡◌, ◌*◌, ◌<◌, ℕ, [], length, slice_index_or};
ghost use Rattle.vx_plane.specs.Plane.{page_of, dark_at};
ghost use Rattle.vx_bits.specs.Packed.{stride_of, unpacked, packed_page};

use crate::packed::{is_dark, stride};
use std::marker::Model;

/// The packed rows of a page, borrowed: most significant bit first, each row padded to a byte.
#[derive(Drop)]
pub struct BitView<'a> {
    width: u32,
    height: u32,
    rows: &'a [u8],
}

impl<'a> Model for BitView<'a> {
    ghost use Rattle.std.specs.Prelude.{◌≡◌, ◌*◌, length};
    ghost use Rattle.vx_plane.specs.Plane.{Page};

    ghost Value = { Page };

    ghost use Rattle.vx_bits.specs.Packed.{stride_of, packed_page};

    ghost view = { λ a. packed_page a.width a.height a.rows.now };

    ghost invariant = { λ a. length a.rows.now ≡ a.height * stride_of a.width };
}

impl<'a> BitView<'a> {
    /// The page of packed rows. Its sides are in pixels.
    pub fn new(width: u32, height: u32, rows: &'a [u8]) -> BitView<'a>
        requires { length rows.now ≡ height * stride_of width }
        ensures { result ≡ packed_page width height rows.now }
    {
        BitView {
            width,
            height,
            rows,
        }
    }

    /// The number of columns.
    pub fn width(&self) -> u32
        ensures value { result ≡ self.now.width }
        ensures whole { self.now ≡ page_of self.now.width self.now.height (dark_at self.now) }
    {
        self.width
    }

    /// The number of rows.
    pub fn height(&self) -> u32
        ensures value { result ≡ self.now.height }
        ensures whole { self.now ≡ page_of self.now.width self.now.height (dark_at self.now) }
    {
        self.height
    }

    /// Whether the place in column `u` and row `v` is dark. Every place outside the page is light.
    pub fn dark(&self, u: i32, v: i32) -> bool
        ensures { result ≡ dark_at self.now u v }
    {
        if u < 0 || v < 0 {
            return false;
        }
        let x = u as u32;
        let y = v as u32;
        if x >= self.width || y >= self.height {
            return false;
        }
        is_dark(self.rows, y as usize * stride(self.width), x)
    }

    /// All packed rows, from the top. The bits that pad a row may be anything.
    pub fn rows(&self) -> &'a [u8]
        ensures size { length result.now ≡ self.now.height * stride_of self.now.width }
        ensures pixels { packed_page self.now.width self.now.height result.now ≡ self.now }
    {
        self.rows
    }

    /// The packed bytes of row `v`. The bits that pad the last byte may be anything.
    pub fn row_bytes(&self, v: u32) -> &'a [u8]
        requires { v < self.now.height }
        ensures size { length result.now ≡ stride_of self.now.width }
        ensures pixels { unpacked self.now.width result.now ≡ slice_index_or self.now.rows v [] }
    {
        let size = stride(self.width);
        let start = v as usize * size;
        &self.rows[start..start + size]
    }
}
