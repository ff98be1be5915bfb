ghost use Rattle.std.specs.Prelude.{◌≡◌, ◌+◌, ◌*◌, ◌/◌, ◌%◌, ◌<◌, ◌≤◌, IfOk, length, pos};
ghost use Rattle.vx_plane.specs.Plane.{page_of, dark_at};
ghost use Rattle.vx_plane.specs.Count.{count_in};
ghost use Rattle.vx_count.specs.Words.{IsWordAt};

use std::alloc::{AllocError, Global};
use std::marker::Model;
use vx_bits::BitView;

/// A copy of a page's packed rows with eight bytes behind the last one, so that eight bytes can be
/// read from any byte of any row.
#[derive(Drop)]
pub(crate) struct PackedRows {
    width: u32,
    height: u32,
    stride: usize,
    bytes: Vec<u8>,
}

impl Model for PackedRows {
    ghost use Rattle.vx_plane.specs.Plane.{Page};

    ghost Value = { Page };

    ghost use Rattle.vx_bits.specs.Packed.{packed_page};
    ghost use Rattle.vx_count.specs.Words.{HasWords};

    ghost view = { λ a. packed_page a.width a.height a.bytes.items };

    ghost invariant = { λ a. HasWords a.width a.height a.stride a.bytes.items };
}

/// The eight bytes from a place on as one number; the pixel of the first bit is its highest bit.
#[inline(always)]
fn word_at(bytes: &[u8], at: usize) -> u64
    requires { at + 8 ≤ length bytes.now }
    ensures { IsWordAt bytes.now at result }
{
    u64::from_be_bytes([
        bytes[at],
        bytes[at + 1],
        bytes[at + 2],
        bytes[at + 3],
        bytes[at + 4],
        bytes[at + 5],
        bytes[at + 6],
        bytes[at + 7],
    ])
}

impl PackedRows {
    /// A copy of a page of at most 4096 columns, in the room of `old`.
    pub fn reusing(old: Vec<u8>, page: &BitView<'_>) -> Result<PackedRows, AllocError>
        requires { page.now.width ≤ 4096 }
        ensures { IfOk result (λ rows. rows ≡ page.now) }
    {
        let rows = page.rows();
        let mut bytes = old;
        bytes.clear();
        bytes.try_reserve_exact(rows.len() + 8)?;
        bytes.extend_from_slice(rows)?;
        bytes.extend_from_slice(&[0; 8])?;
        Ok(PackedRows {
            width: page.width(),
            height: page.height(),
            stride: (page.width() as usize + 7) / 8,
            bytes,
        })
    }

    /// The room that the rows took.
    pub fn into_room(self) -> Vec<u8> {
        self.bytes
    }

    /// The page's number of columns.
    pub fn width(&self) -> u32
        ensures value { result ≡ self.now.width }
        ensures bound { result ≤ 4096 }
        ensures whole { self.now ≡ page_of self.now.width self.now.height (dark_at self.now) }
    {
        self.width
    }

    /// The page's number of rows.
    pub fn height(&self) -> u32
        ensures { result ≡ self.now.height }
    {
        self.height
    }

    /// The number of dark pixels among some columns of a row that lie in eight bytes: at most 57
    /// from any column on, at most 64 from a column on that begins a byte.
    #[inline(always)]
    pub fn in_word(&self, left: u32, row: usize, width: u32) -> u32
        requires some { 1 ≤ width }
        requires one_word { left % 8 + width ≤ 64 }
        requires columns { left + width ≤ self.now.width }
        requires row { row < self.now.height }
        ensures { result ≡ count_in (pos left) (pos row) width 1 (dark_at self.now) }
    {
        let at = row * self.stride + (left / 8) as usize;
        let word = word_at(self.bytes.as_slice(), at);
        ((word << (left % 8)) >> (64 - width)).count_ones()
    }

    /// The number of dark pixels in so many words of 64 columns of a row, from a column on that
    /// begins a byte.
    #[inline(always)]
    pub fn in_words(&self, left: u32, row: usize, words: u32) -> u32
        requires byte { left % 8 ≡ 0 }
        requires columns { left + 64 * words ≤ self.now.width }
        requires row { row < self.now.height }
        ensures { result ≡ count_in (pos left) (pos row) (64 * words) 1 (dark_at self.now) }
    {
        // For the proof alone: what this call's clause says of the page.
        let _width = self.width();
        let mut dark = 0;
        for k in 0..words {
            dark += self.in_word(left + 64 * k, row, 64);
        }
        dark
    }

    /// The number of dark pixels in a rectangle of 1 to 57 columns and at most 4096 rows that lies
    /// in the frame.
    #[inline(always)]
    pub fn in_rows(&self, left: u32, top: u32, width: u32, height: u32) -> u32
        requires some { 1 ≤ width }
        requires narrow { width ≤ 57 }
        requires columns { left + width ≤ self.now.width }
        requires rows { top + height ≤ self.now.height }
        requires high { height ≤ 4096 }
        ensures { result ≡ count_in (pos left) (pos top) width height (dark_at self.now) }
    {
        let first = top as usize;
        let mut dark = 0;
        for j in 0..height as usize {
            dark += self.in_word(left, first + j, width);
        }
        dark
    }
}
