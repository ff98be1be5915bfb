ghost use Rattle.std.specs.Prelude.{◌≡◌, ◌*◌, ◌-◌, ◌<◌, ◌≤◌, IfOk, length, pos};
ghost use Rattle.vx_plane.specs.Plane.{page_of, dark_at, nowhere, with_pixel, rectangle, painted};
ghost use Rattle.vx_bits.specs.Packed.{packed_page, stride_of};
ghost use Rattle.vx_bits.specs.Runs.{IsRun};

use crate::packed::{put, stride};
use crate::run::{Run, darken_run};
use crate::view::BitView;
use std::alloc::{AllocError, Global};
use std::marker::Model;
use vx_base::OutOfMemory;

/// A page in memory, of 1 to 4096 pixels each way.
#[derive(Drop)]
pub struct BitPage {
    width: u32,
    height: u32,
    rows: Vec<u8>,
}

impl Model for BitPage {
    ghost use Rattle.std.specs.Prelude.{◌≡◌, ◌*◌, ◌<◌, ◌≤◌, length};
    ghost use Rattle.vx_plane.specs.Plane.{Page};

    ghost Value = { Page };

    ghost use Rattle.vx_bits.specs.Packed.{packed_page, IsPackedPage};

    ghost view = { λ a. packed_page a.width a.height a.rows.items };

    ghost invariant = { λ a. IsPackedPage a.width a.height a.rows.items };
}

impl BitPage {
    /// A light page.
    pub fn new(alloc: Global, width: u32, height: u32) -> Result<BitPage, AllocError>
        requires width { (0 < width) × (width ≤ 4096) }
        requires height { (0 < height) × (height ≤ 4096) }
        ensures { IfOk result (λ page. page ≡ page_of width height nowhere) }
    {
        let size = height as usize * stride(width);
        Ok(BitPage {
            width,
            height,
            rows: vec![in alloc; 0; size]?,
        })
    }

    /// The page of packed rows: most significant bit first, each row padded to a byte, whatever the
    /// padding. Its sides are in pixels.
    pub fn from_rows(width: u32, height: u32, rows: Vec<u8>) -> BitPage
        requires width { (0 < width) × (width ≤ 4096) }
        requires height { (0 < height) × (height ≤ 4096) }
        requires size { length rows.items ≡ height * stride_of width }
        ensures { result ≡ packed_page width height rows.items }
    {
        BitPage {
            width,
            height,
            rows,
        }
    }

    /// A copy, which is the same page.
    pub fn copy(&self, alloc: Global) -> Result<BitPage, OutOfMemory>
        ensures { IfOk result (λ page. page ≡ self.now) }
    {
        let rows = Vec::from_slice(alloc, self.rows.as_slice())?;
        Ok(BitPage {
            width: self.width,
            height: self.height,
            rows,
        })
    }

    /// The number of columns.
    pub fn width(&self) -> u32
        ensures value { result ≡ self.now.width }
        ensures bound { (0 < result) × (result ≤ 4096) }
        ensures whole { self.now ≡ page_of self.now.width self.now.height (dark_at self.now) }
    {
        self.width
    }

    /// The number of rows.
    pub fn height(&self) -> u32
        ensures value { result ≡ self.now.height }
        ensures bound { (0 < result) × (result ≤ 4096) }
        ensures whole { self.now ≡ page_of self.now.width self.now.height (dark_at self.now) }
    {
        self.height
    }

    /// Makes the pixel in column `x` and row `y` dark or light.
    pub fn set_dark(&mut self, x: u32, y: u32, dark: bool)
        requires column { x < self.old.width }
        requires row { y < self.old.height }
        ensures { self.new ≡ page_of self.old.width self.old.height
            (with_pixel (dark_at self.old) (pos x) (pos y) dark) }
    {
        let start = y as usize * stride(self.width);
        put(&mut self.rows, start, x, dark);
    }

    /// The same page, borrowed.
    pub fn view(&self) -> BitView<'_>
        ensures { result ≡ self.now }
    {
        BitView::new(self.width, self.height, self.rows.as_slice())
    }

    /// Makes the pixels of row `y` dark that stand in the columns of a run.
    fn darken_row(&mut self, run: Run, y: u32)
        requires run { IsRun run }
        requires columns { run.right ≤ self.old.width }
        requires row { y < self.old.height }
        ensures { self.new ≡ painted self.old (rectangle (pos run.left) (pos y) (run.right - run.left) 1) }
    {
        let start = y as usize * stride(self.width);
        darken_run(&mut self.rows, start, run);
    }

    /// Makes the rows of a rectangle that lies on the page dark, one after the other.
    fn darken_rows(&mut self, left: u32, right: u32, top: u32, bottom: u32)
        requires order { left < right }
        requires columns { right ≤ self.old.width }
        requires down { top ≤ bottom }
        requires rows { bottom ≤ self.old.height }
        ensures { self.new ≡ painted self.old (rectangle (pos left) (pos top) (right - left) (bottom - top)) }
    {
        // For the proof alone: what this call's clause says of the page.
        let _rows = self.height();
        let run = Run::new(left, right);
        for y in top..bottom {
            self.darken_row(run, y);
        }
    }

    /// Makes every pixel of a rectangle dark, so far as it lies on the page: its left column, its
    /// top row, its sides.
    pub fn darken(&mut self, left: u64, top: u64, width: u32, height: u32)
        ensures { self.new ≡ painted self.old (rectangle (pos left) (pos top) width height) }
    {
        let right = left.saturating_add(width.into()).min(self.width().into());
        let bottom = top.saturating_add(height.into()).min(self.height().into());
        if left < right && top < bottom {
            self.darken_rows(left as u32, right as u32, top as u32, bottom as u32);
        }
    }
}

fn shared<T: Send + Sync>() {}

/// Threads may share a page and hand it over.
pub fn bit_page_is_shared() {
    shared::<BitPage>()
}

/// Lets a page go. That this is safe is proved here; a crate that calls it needn't prove it again.
pub fn drop_page(_page: BitPage) {}
