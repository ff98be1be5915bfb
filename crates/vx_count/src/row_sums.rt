ghost use Rattle.std.specs.Prelude.{◌≡◌, ◌+◌, ◌*◌, ◌<◌, ◌≤◌, IfOk, length, pos};
ghost use Rattle.vx_plane.specs.Plane.{page_of, dark_at};
ghost use Rattle.vx_plane.specs.Count.{count_in};
ghost use Rattle.vx_count.specs.Sums.{AreSums, BeginsWithSums, blocks_of};

use crate::packed::PackedRows;
use std::alloc::{AllocError, Global};
use std::marker::Model;
use vx_bits::BitView;

/// How many columns lie between two sums of a row.
const BLOCK: u32 = 1024;

/// How many words of 64 columns a block has.
const BLOCK_WORDS: u32 = 16;

/// A copy of a page, of at most 4096 columns, with sums: the dark pixels of each row before its
/// 1024th column, before its 2048th, and so on. It takes the memory of the page's packed rows, a
/// 64th more at most, and eight bytes.
#[derive(Drop)]
pub struct RowSums {
    rows: PackedRows,
    sums: Vec<u16>,
}

impl Model for RowSums {
    ghost use Rattle.vx_plane.specs.Plane.{Page};

    ghost Value = { Page };

    ghost use Rattle.vx_count.specs.Sums.{AreSums};

    ghost view = { λ a. a.rows };

    ghost invariant = { λ a. AreSums a.rows a.sums.items };
}

/// The memory of a counter, kept for the next one. What lies in it doesn't matter.
#[derive(Drop)]
pub struct CounterMemory {
    bytes: Vec<u8>,
    sums: Vec<u16>,
}

impl CounterMemory {
    /// No memory yet; takes none.
    pub fn new(alloc: Global) -> CounterMemory {
        CounterMemory {
            bytes: Vec::new(alloc),
            sums: Vec::new(alloc),
        }
    }
}

/// Writes the sums of a row behind those of the rows above it.
fn write_sums(sums: &mut [u16], rows: &PackedRows, row: u32)
    requires row { row < rows.now.height }
    requires size { length sums.old ≡ rows.now.height * blocks_of rows.now }
    requires above { BeginsWithSums rows.now (row * blocks_of rows.now) sums.old }
    ensures size { length sums.new ≡ length sums.old }
    ensures sums { BeginsWithSums rows.now ((row + 1) * blocks_of rows.now) sums.new }
{
    let blocks = rows.width() / BLOCK;
    let start = row as usize * blocks as usize;
    let mut dark = 0;
    for k in 0..blocks {
        dark += rows.in_words(k * BLOCK, row as usize, BLOCK_WORDS);
        sums[start + k as usize] = dark as u16;
    }
}

/// The sums of all rows, in the room of `old`.
fn sums_of(old: Vec<u16>, rows: &PackedRows) -> Result<Vec<u16>, AllocError>
    ensures { IfOk result (λ sums. AreSums rows.now sums.items) }
{
    let size = rows.height() as usize * (rows.width() / BLOCK) as usize;
    let mut sums = old;
    sums.resize(size, 0)?;
    for row in 0..rows.height() {
        write_sums(&mut sums, rows, row);
    }
    Ok(sums)
}

impl RowSums {
    /// The sums of a copy of a page of at most 4096 columns.
    pub fn new(alloc: Global, page: &BitView<'_>) -> Result<RowSums, AllocError>
        requires { page.now.width ≤ 4096 }
        ensures { IfOk result (λ sums. sums ≡ page.now) }
    {
        RowSums::reusing(CounterMemory::new(alloc), page)
    }

    /// The same in the memory of an earlier one, whatever that was of; takes memory only where it
    /// isn't enough.
    pub fn reusing(memory: CounterMemory, page: &BitView<'_>) -> Result<RowSums, AllocError>
        requires { page.now.width ≤ 4096 }
        ensures { IfOk result (λ sums. sums ≡ page.now) }
    {
        let rows = PackedRows::reusing(memory.bytes, page)?;
        let sums = sums_of(memory.sums, &rows)?;
        Ok(RowSums { rows, sums })
    }

    /// The memory that the copy and its sums took; takes none.
    pub fn into_memory(self) -> CounterMemory {
        CounterMemory {
            bytes: self.rows.into_room(),
            sums: self.sums,
        }
    }

    /// The page's number of columns.
    pub fn width(&self) -> u32
        ensures value { result ≡ self.now.width }
        ensures bound { result ≤ 4096 }
        ensures whole { self.now ≡ page_of self.now.width self.now.height (dark_at self.now) }
    {
        self.rows.width()
    }

    /// The page's number of rows.
    pub fn height(&self) -> u32
        ensures { result ≡ self.now.height }
    {
        self.rows.height()
    }

    /// The number of dark pixels of a row before a block of columns.
    fn before_block(&self, row: u32, block: u32) -> u32
        requires row { row < self.now.height }
        requires block { 1024 * block ≤ self.now.width }
        ensures { result ≡ count_in (pos 0) (pos row) (1024 * block) 1 (dark_at self.now) }
    {
        if block == 0 {
            return 0;
        }
        let blocks = (self.rows.width() / BLOCK) as usize;
        self.sums[row as usize * blocks + (block - 1) as usize].into()
    }

    /// The number of dark pixels of a row at the places below `x`.
    pub fn before(&self, row: u32, x: u32) -> u32
        requires row { row < self.now.height }
        requires x { x ≤ self.now.width }
        ensures { result ≡ count_in (pos 0) (pos row) x 1 (dark_at self.now) }
    {
        let block = x / BLOCK;
        let words = x % BLOCK / 64;
        let at = row as usize;
        let dark = self.before_block(row, block) + self.rows.in_words(block * BLOCK, at, words);
        if x % 64 == 0 {
            dark
        } else {
            dark + self.rows.in_word(x - x % 64, at, x % 64)
        }
    }

    /// The number of dark pixels among 1 to 57 columns of a row.
    #[inline(always)]
    pub fn run(&self, left: u32, row: u32, width: u32) -> u32
        requires some { 1 ≤ width }
        requires narrow { width ≤ 57 }
        requires columns { left + width ≤ self.now.width }
        requires row { row < self.now.height }
        ensures { result ≡ count_in (pos left) (pos row) width 1 (dark_at self.now) }
    {
        self.rows.in_word(left, row as usize, width)
    }

    /// The number of dark pixels in a rectangle that lies in the frame, row by row as the
    /// difference of two sums.
    #[inline(never)]
    fn in_wide(&self, left: u32, top: u32, width: u32, height: u32) -> u32
        requires columns { left + width ≤ self.now.width }
        requires rows { top + height ≤ self.now.height }
        requires high { height ≤ 4096 }
        ensures { result ≡ count_in (pos left) (pos top) width height (dark_at self.now) }
    {
        let (_width, _height) = (self.width(), self.height());
        let mut dark = 0;
        for j in 0..height {
            dark += self.before(top + j, left + width) - self.before(top + j, left);
        }
        dark
    }

    /// The number of dark pixels in a rectangle of at most 4096 rows that lies in the frame.
    #[inline(always)]
    pub fn dark_in_frame(&self, left: u32, top: u32, width: u32, height: u32) -> u32
        requires columns { left + width ≤ self.now.width }
        requires rows { top + height ≤ self.now.height }
        requires high { height ≤ 4096 }
        ensures { result ≡ count_in (pos left) (pos top) width height (dark_at self.now) }
    {
        if 1 <= width && width <= 57 {
            self.rows.in_rows(left, top, width, height)
        } else {
            self.in_wide(left, top, width, height)
        }
    }
}
