//! The paper with light margins round it, which hold all that a scan shows.

ghost use Rattle.std.specs.Prelude.{◌≡◌, ◌≤◌, ◌+◌, ◌*◌, ◌++◌, IfOk, OnOk, length, replicate};
ghost use Rattle.vx_plane.specs.Plane.{page_of, dark_at};
ghost use Rattle.vx_simulate.specs.Rows.{in_margins, margined};

use std::alloc::Global;
use vx_base::OutOfMemory;
use vx_bits::BitPage;

/// The columns and the rows that the margins add.
const MORE_COLUMNS: u32 = 412;

const MORE_ROWS: u32 = 312;

/// Appends light rows.
fn append_light(rows: &mut Vec<u8>, many: u32) -> Result<(), OutOfMemory>
    ensures { OnOk result (rows.new.items ≡ rows.old.items ++ replicate (many * 264) 0) }
{
    for n in 0..many {
        rows.extend_from_slice(&[0; 264])?;
    }
    Ok(())
}

/// Appends a row of the paper: 160 light columns, its 1700 columns, 252 light columns.
fn append_row(rows: &mut Vec<u8>, row: &[u8]) -> Result<(), OutOfMemory>
    requires { length row.now ≡ 213 }
    ensures { OnOk result (rows.new.items ≡ rows.old.items ++ margined row.now) }
{
    let whole = &row[..212];
    rows.extend_from_slice(&[0; 20])?;
    rows.extend_from_slice(whole)?;
    rows.push(row[212] & 0xf0)?;
    rows.extend_from_slice(&[0; 31])?;
    Ok(())
}

/// The paper in its margins: 160 columns on its left, 252 on its right, 136 rows above it and 176
/// below.
pub(crate) fn with_margins(alloc: Global, paper: &BitPage) -> Result<BitPage, OutOfMemory>
    requires width { paper.now.width ≡ 1700 }
    requires height { paper.now.height ≤ 2800 }
    ensures { IfOk result (λ page. page ≡ page_of 2112 (paper.now.height + 312) (in_margins (dark_at paper.now))) }
{
    let height = paper.height();
    let mut rows = Vec::new(alloc);
    append_light(&mut rows, 136)?;
    for y in 0..height {
        append_row(&mut rows, paper.view().row_bytes(y))?;
    }
    append_light(&mut rows, 176)?;
    Ok(BitPage::from_rows(paper.width() + MORE_COLUMNS, height + MORE_ROWS, rows))
}
