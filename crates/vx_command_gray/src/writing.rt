ghost use Rattle.std.specs.Prelude.{Ok, IfErr};
ghost use Rattle.vx_base.specs.Refusals.{Gives};
ghost use Rattle.vx_pbm.specs.Raw.{p4_of};
ghost use Rattle.vx_gray.specs.Gray.{bits_of};
ghost use Rattle.vx_gray.specs.Images.{images_of};
ghost use Rattle.vx_command.specs.Acts.{writing};
ghost use Rattle.vx_command.specs.Devices.{TouchesSink};
ghost use Rattle.vx_command.specs.Done.{IsWritten};
ghost use Rattle.vx_command.specs.Steps.{is_no_memory};
ghost use Rattle.vx_command_gray.specs.Done.{WritesScan};
ghost use Rattle.vx_command_gray.specs.Status.{IsStop};

use std::alloc::Global;
use vx_base::Bytes;
use vx_command::{Halt, acts_in_order, steps_in_order, write_text};
use vx_gray::{GrayView, PgmFault, PgmReader, to_bits};
use vx_io::Sink;
use vx_pbm::write_p4;

/// The most bytes of the header of a raw bitmap.
const HEADER_BYTES: usize = 32;

/// The bitmap of a page, as a raw one.
fn page_text(alloc: Global, page: &GrayView<'_>) -> Result<Bytes, Halt>
    ensures { Gives is_no_memory result (Ok (p4_of (bits_of page.now))) }
{
    let size = page.height() as usize * ((page.width() as usize + 7) / 8);
    let bits = to_bits(alloc, page)?;
    let mut text = Bytes::with_capacity(alloc, HEADER_BYTES + size)?;
    write_p4(&bits.view(), &mut text)?;
    Ok(text)
}

/// Writes the bitmap of a page.
fn write_page<S: Sink>(alloc: Global, page: &GrayView<'_>, out: &mut S) -> Result<(), Halt>
    ensures done { IsWritten (writing (p4_of (bits_of page.now)))
        (S.taken out.old) (S.taken out.new) result }
    ensures sink { TouchesSink S.Sink out.old out.new result }
{
    steps_in_order::<Bytes>();
    let text = page_text(alloc, page)?;
    write_text(out, text.as_slice())
}

/// Writes the images of the scan of a word as bitmaps, each before the next is read. Answers the fault that
/// ended them, if any.
pub(crate) fn write_scan<S: Sink>(
    alloc: Global,
    word: u32,
    bytes: &[u8],
    out: &mut S,
) -> Result<Option<PgmFault>, Halt>
    ensures written { WritesScan word (images_of bytes.now) (S.taken out.old) (S.taken out.new) result }
    ensures sink { TouchesSink S.Sink out.old out.new result }
    ensures stops { IfErr result IsStop }
{
    acts_in_order();
    let mut reader = PgmReader::new(bytes);
    'images: loop {
        match reader.next() {
            Err(fault) => return Ok(Some(fault)),
            Ok(None) => return Ok(None),
            Ok(Some(page)) => write_page(alloc, &page, out)?,
        }
    }
}
