ghost use Rattle.std.specs.Prelude.{◌≡◌, ◌≤◌, ◌<◌, ◌+◌, ◌^◌, IfOk, Some, false, length};
ghost use Rattle.vx_pbm.specs.Images.{images_of};
ghost use Rattle.vx_pbm.specs.Raster.{IsSized};
ghost use Rattle.vx_command.specs.Devices.{TouchesSink, writes_nothing};
ghost use Rattle.vx_walk.specs.Steps.{WalksImage, WalksScan, WalksSheet};
ghost use Rattle.vx_walk.specs.Walked.{images_in};

use crate::walked::{First, Walked};
use crate::work::SheetWork;
use std::alloc::Global;
use vx_command::{Halt, acts_in_order, halt_of_bitmap};
use vx_io::Sink;
use vx_pbm::{Image, PbmReader};

/// Does the sheet with a number, and lets its images go.
fn end_sheet<W: SheetWork, S: Sink>(
    alloc: Global,
    work: &mut W,
    scan: &str,
    number: u64,
    first: First<'_>,
    second: Image<'_>,
    out: &mut S,
) -> Result<(), Halt>
    requires may { W.may work.old }
    requires some { 0 < number }
    requires few { number < 2 ^ 62 }
    ensures done { WalksSheet (W.step work.old scan.now number first.entry second.entry)
        (S.taken out.old) (S.taken out.new) result }
    ensures same { work.new ≡ work.old }
    ensures sink { TouchesSink S.Sink out.old out.new result }
    ensures late { writes_nothing false result ≡ false }
{
    let front = first.view();
    let back = second.view();
    work.sheet(alloc, scan, number, &front, &back, out)
}

/// Goes over the next image: it waits for its second, or is the second of one that waits, and their sheet is
/// done.
fn walk_image<'b, W: SheetWork, S: Sink>(
    alloc: Global,
    work: &mut W,
    scan: &str,
    walked: Walked<'b>,
    image: Image<'b>,
    out: &mut S,
) -> Result<Walked<'b>, Halt>
    requires may { W.may work.old }
    requires few { images_in walked < 2 ^ 62 }
    requires sized { IsSized image.width image.height }
    ensures done { WalksImage (W.step work.old scan.now) walked.entry image.entry
        (S.taken out.old) (S.taken out.new) result }
    ensures same { work.new ≡ work.old }
    ensures one_more { IfOk result (λ now. images_in now ≡ images_in walked.entry + 1) }
    ensures sink { TouchesSink S.Sink out.old out.new result }
    ensures late { writes_nothing false result ≡ false }
{
    let Walked { sheets, waiting } = walked;
    match waiting {
        None => Ok(Walked {
            sheets,
            waiting: Some(First::lent(image)),
        }),
        Some(first) => {
            let number = sheets + 1;
            end_sheet(alloc, work, scan, number, first, image, out)?;
            Ok(Walked {
                sheets: number,
                waiting: None,
            })
        }
    }
}

/// Goes through the images of the scan of a word with a name, behind those of the scans before.
pub(crate) fn walk_scan<'n, W: SheetWork, S: Sink>(
    alloc: Global,
    work: &mut W,
    scan: &str,
    word: u32,
    walked: Walked<'_>,
    bytes: &[u8],
    out: &mut S,
) -> Result<Walked<'n>, Halt>
    requires may { W.may work.old }
    requires few { images_in walked + length bytes.now < 2 ^ 62 }
    ensures done { WalksScan (W.step work.old scan.now) word walked.entry (images_of bytes.now)
        (S.taken out.old) (S.taken out.new) result }
    ensures same { work.new ≡ work.old }
    // An image takes a byte at least.
    ensures bound { IfOk result (λ now. images_in now ≤ images_in walked.entry + length bytes.now) }
    ensures sink { TouchesSink S.Sink out.old out.new result }
    ensures late { writes_nothing false result ≡ false }
{
    acts_in_order();
    let mut reader = PbmReader::new(alloc, bytes);
    let mut now = walked;
    'images: loop {
        match reader.next() {
            Err(fault) => return Err(halt_of_bitmap(word, fault)),
            Ok(None) => return Ok(now.copied(alloc)?),
            Ok(Some(image)) => now = walk_image(alloc, work, scan, now, image, out)?,
        }
    }
}
