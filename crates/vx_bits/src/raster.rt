ghost use Rattle.std.specs.Prelude.{◌≡◌, ◌++◌, ◌*◌, ◌^◌, ◌%◌, OnOk, OnErr, length, take, true};
ghost use Rattle.vx_bits.specs.Packed.{RasterLaws, packed_page, packed_row, padding_of, raster_of, stride_of, unpacked};

use crate::packed::stride;
use crate::view::BitView;
use vx_base::{Bytes, OutOfMemory};

/// The bits of a row's last byte that are pixels, where the row isn't empty.
fn pixel_bits(width: u32) -> u8
    ensures { result ≡ 255 * 2 ^ padding_of width % 256 }
{
    0xffu8.wrapping_shl((8 - width % 8) % 8)
}

/// Whether the bits that pad a packed row are 0.
fn is_packed_row(width: u32, row: &[u8]) -> bool
    requires { length row.now ≡ stride_of width }
    ensures { result ≡ true → packed_row (unpacked width row.now) ≡ row.now }
{
    let size = row.len();
    if size == 0 {
        return true;
    }
    let last = row[size - 1];
    last & pixel_bits(width) == last
}

/// Whether packed rows are the raster of their page.
fn is_raster(width: u32, height: u32, rows: &[u8]) -> bool
    requires { length rows.now ≡ height * stride_of width }
    ensures { result ≡ true → raster_of (packed_page width height rows.now) ≡ rows.now }
{
    let size = stride(width);
    for v in 0..height {
        let start = v as usize * size;
        if !is_packed_row(width, &rows[start..start + size]) {
            return false;
        }
    }
    true
}

/// Appends one packed row, with 0 for the bits that pad it.
fn append_row(width: u32, row: &[u8], into: &mut Bytes) -> Result<(), OutOfMemory>
    requires { length row.now ≡ stride_of width }
    ensures ok { OnOk result (into.new ≡ into.old ++ packed_row (unpacked width row.now)) }
    ensures err { OnErr result (take (length into.old) into.new ≡ into.old) }
{
    let size = row.len();
    if size == 0 {
        return Ok(());
    }
    into.extend_from_slice(&row[..size - 1])?;
    into.push(row[size - 1] & pixel_bits(width))?;
    Ok(())
}

/// Appends the raster of a page row by row; after want of memory some of it may stand at the end.
fn append_rows(page: &BitView<'_>, into: &mut Bytes) -> Result<(), OutOfMemory>
    ensures ok { OnOk result (into.new ≡ into.old ++ raster_of page.now) }
    ensures err { OnErr result (take (length into.old) into.new ≡ into.old) }
{
    for v in 0..page.height() {
        append_row(page.width(), page.row_bytes(v), into)?;
    }
    Ok(())
}

impl BitView<'_> {
    /// Appends the page's raster: its packed rows from the top, with 0 for the bits that pad them.
    /// Rows that are padded so are copied in one piece. After want of memory `into` is as before.
    pub fn append_raster(&self, into: &mut Bytes) -> Result<(), OutOfMemory>
        ensures ok { OnOk result (into.new ≡ into.old ++ raster_of self.now) }
        ensures err { OnErr result (into.new ≡ into.old) }
    {
        let rows = self.rows();
        if is_raster(self.width(), self.height(), rows) {
            return into.extend_from_slice(rows);
        }
        let before = into.len();
        match append_rows(self, into) {
            Ok(()) => Ok(()),
            Err(refused) => {
                into.truncate(before);
                Err(refused)
            }
        }
    }
}

/// A raster has its rows' bytes, and shows its page. The function does nothing; its contract is the
/// law.
pub fn rasters_show_their_pages()
    ensures { RasterLaws }
{}
