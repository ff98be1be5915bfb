ghost use Rattle.std.specs.Prelude.{◌≡◌, ◌++◌, OnOk, OnErr, length, take};
ghost use Rattle.vx_pbm.specs.Raw.{header_of, p4_of};

use itoa::Buffer;
use vx_base::{Bytes, OutOfMemory};
use vx_bits::BitView;

/// Appends the header of a raw bitmap.
fn append_header(width: u32, height: u32, into: &mut Bytes) -> Result<(), OutOfMemory>
    ensures ok { OnOk result (into.new ≡ into.old ++ header_of width height) }
    ensures err { OnErr result (take (length into.old) into.new ≡ into.old) }
{
    let mut buffer = Buffer::new();
    into.extend_from_slice(b"P4\n")?;
    into.extend_from_slice(buffer.format(width).as_bytes())?;
    into.extend_from_slice(b" ")?;
    into.extend_from_slice(buffer.format(height).as_bytes())?;
    into.extend_from_slice(b"\n")
}

/// Appends the page as a raw bitmap; after want of memory some of it may stand at the end.
fn append_p4(page: &BitView<'_>, into: &mut Bytes) -> Result<(), OutOfMemory>
    ensures ok { OnOk result (into.new ≡ into.old ++ p4_of page.now) }
    ensures err { OnErr result (take (length into.old) into.new ≡ into.old) }
{
    append_header(page.width(), page.height(), into)?;
    page.append_raster(into)?;
    Ok(())
}

/// Appends the page as a raw bitmap (`P4`): header and raster, its padding bits 0. After want of
/// memory `into` is as before.
pub fn write_p4(page: &BitView<'_>, into: &mut Bytes) -> Result<(), OutOfMemory>
    ensures ok { OnOk result (into.new ≡ into.old ++ p4_of page.now) }
    ensures err { OnErr result (into.new ≡ into.old) }
{
    let before = into.len();
    match append_p4(page, into) {
        Ok(()) => Ok(()),
        Err(refused) => {
            into.truncate(before);
            Err(refused)
        }
    }
}
