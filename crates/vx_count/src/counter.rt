ghost use Rattle.std.specs.Prelude.{◌≡◌, ◌+◌, ◌<◌, ◌≤◌, IfOk, pos};
ghost use Rattle.vx_plane.specs.Plane.{page_of, dark_at};
ghost use Rattle.vx_plane.specs.Count.{count_in};
ghost use Rattle.vx_grid.specs.Places.{IsWithin};
ghost use Rattle.vx_count.specs.Turned.{turned_page, IsWhole};

use crate::cut::cut_at_frame;
use crate::row_sums::{CounterMemory, RowSums};
use std::alloc::{AllocError, Global};
use std::marker::Model;
use vx_bits::BitView;
use vx_grid::Rect;

/// A copy of a page, of at most 4096 pixels each way, that counts, and that can be turned.
#[derive(Drop)]
pub struct Counter {
    sums: RowSums,
    turned: bool,
}

impl Model for Counter {
    ghost use Rattle.vx_plane.specs.Plane.{Page};

    ghost Value = { Page };

    ghost use Rattle.vx_count.specs.Turned.{shown_page, IsKept};

    ghost view = { λ a. shown_page a.turned a.sums };

    ghost invariant = { λ a. IsKept a.sums };
}

impl Counter {
    /// A counter of a copy of the page.
    pub fn new(alloc: Global, page: &BitView<'_>) -> Result<Counter, AllocError>
        requires width { page.now.width ≤ 4096 }
        requires height { page.now.height ≤ 4096 }
        ensures { IfOk result (λ counter. counter ≡ page.now) }
    {
        Counter::reusing(CounterMemory::new(alloc), page)
    }

    /// A counter of a copy of the page in the memory of an earlier one, whatever that was of; takes
    /// memory only where it isn't enough.
    pub fn reusing(memory: CounterMemory, page: &BitView<'_>) -> Result<Counter, AllocError>
        requires width { page.now.width ≤ 4096 }
        requires height { page.now.height ≤ 4096 }
        ensures { IfOk result (λ counter. counter ≡ page.now) }
    {
        // For the proof alone: what this call's clause says of the page.
        let _width = page.width();
        Ok(Counter {
            sums: RowSums::reusing(memory, page)?,
            turned: false,
        })
    }

    /// The memory that the counter took; takes none.
    pub fn into_memory(self) -> CounterMemory {
        self.sums.into_memory()
    }

    /// The page's number of columns.
    pub fn width(&self) -> u32
        ensures value { result ≡ self.now.width }
        ensures bound { result ≤ 4096 }
    {
        self.sums.width()
    }

    /// The page's number of rows.
    pub fn height(&self) -> u32
        ensures value { result ≡ self.now.height }
        ensures bound { result ≤ 4096 }
    {
        self.sums.height()
    }

    /// A law of the page, without work: it is made of its dark places.
    pub fn is_a_whole_page(&self)
        ensures { IsWhole self.now }
    {
        // For the proof alone: what the counter keeps.
        let _turned = self.turned;
    }

    /// Turns the page by 180 degrees; takes no memory.
    pub fn turn(&mut self)
        ensures { self.new ≡ turned_page self.old }
    {
        self.turned = !self.turned;
    }

    /// The number of dark pixels among 1 to 57 columns of a row, from column `left` on.
    #[inline(always)]
    pub fn run(&self, left: u32, row: u32, width: u32) -> u32
        requires some { 1 ≤ width }
        requires narrow { width ≤ 57 }
        requires columns { left + width ≤ self.now.width }
        requires row { row < self.now.height }
        ensures { result ≡ count_in (pos left) (pos row) width 1 (dark_at self.now) }
    {
        if self.turned {
            let left = self.sums.width() - left - width;
            let row = self.sums.height() - row - 1;
            self.sums.run(left, row, width)
        } else {
            self.sums.run(left, row, width)
        }
    }

    /// The number of dark pixels in a rectangle that lies in the frame: its left column, its top
    /// row, its sides.
    pub fn dark_in_frame(&self, left: u32, top: u32, width: u32, height: u32) -> u32
        requires columns { left + width ≤ self.now.width }
        requires rows { top + height ≤ self.now.height }
        ensures { result ≡ count_in (pos left) (pos top) width height (dark_at self.now) }
    {
        if self.turned {
            let left = self.sums.width() - left - width;
            let top = self.sums.height() - top - height;
            self.sums.dark_in_frame(left, top, width, height)
        } else {
            self.sums.dark_in_frame(left, top, width, height)
        }
    }

    /// The number of dark pixels in a rectangle; every place outside the page is light.
    pub fn dark_in(&self, rect: Rect) -> u32
        requires left { IsWithin 10000 rect.left }
        requires top { IsWithin 10000 rect.top }
        requires width { rect.width ≤ 4096 }
        requires height { rect.height ≤ 4096 }
        ensures { result ≡ count_in rect.left rect.top rect.width rect.height (dark_at self.now) }
    {
        let columns = cut_at_frame(rect.left, rect.width, self.sums.width());
        let rows = cut_at_frame(rect.top, rect.height, self.sums.height());
        self.dark_in_frame(columns.first, rows.first, columns.count, rows.count)
    }
}
