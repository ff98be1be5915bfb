ghost use Rattle.std.specs.Prelude.{◌≡◌, ◌+◌, ◌*◌, ◌<◌, ◌≤◌, length, take, drop};
ghost use Rattle.vx_pbm.specs.Raster.{IsSized};
ghost use Rattle.vx_gray.specs.Gray.{value_at};

use std::marker::Model;

/// A grayscale page of 1 to 4096 pixels each way, borrowed: a byte for each pixel, row by row from the
/// top, 0 for black.
#[derive(Drop)]
pub struct GrayView<'b> {
    width: u32,
    height: u32,
    values: &'b [u8],
}

impl<'b> Model for GrayView<'b> {
    ghost use Rattle.std.specs.Prelude.{◌≡◌, ◌*◌, length};
    ghost use Rattle.vx_pbm.specs.Raster.{IsSized};
    ghost use Rattle.vx_gray.specs.Gray.{Gray};

    ghost Value = { Gray };

    ghost view = { λ a. record { width = a.width; height = a.height; values = a.values.now } };

    ghost invariant = { λ a. IsSized a.width a.height × (length a.values.now ≡ a.height * a.width) };
}

impl<'b> GrayView<'b> {
    /// The page of a raster. Its sides are in pixels.
    pub(crate) fn new(width: u32, height: u32, values: &'b [u8]) -> GrayView<'b>
        requires sized { IsSized width height }
        requires size { length values.now ≡ height * width }
        ensures { result ≡ record { width = width; height = height; values = values.now } }
    {
        GrayView {
            width,
            height,
            values,
        }
    }

    /// The number of columns.
    pub fn width(&self) -> u32
        ensures value { result ≡ self.now.width }
        ensures bound { (0 < result) × (result ≤ 4096) }
    {
        self.width
    }

    /// The number of rows.
    pub fn height(&self) -> u32
        ensures value { result ≡ self.now.height }
        ensures bound { (0 < result) × (result ≤ 4096) }
    {
        self.height
    }

    /// The value of the pixel in column `u` and row `v`, 0 for black.
    pub fn value(&self, u: u32, v: u32) -> u8
        requires column { u < self.now.width }
        requires row { v < self.now.height }
        ensures { result ≡ value_at self.now u v }
    {
        self.values[v as usize * self.width as usize + u as usize]
    }

    /// The values of row `v`.
    pub(crate) fn row(&self, v: usize) -> &'b [u8]
        requires { v < self.now.height }
        ensures size { length result.now ≡ self.now.width }
        ensures values { result.now ≡ take self.now.width (drop (v * self.now.width) self.now.values) }
    {
        let size = self.width as usize;
        let start = v * size;
        &self.values[start..start + size]
    }
}
