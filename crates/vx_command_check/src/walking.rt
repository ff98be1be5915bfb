ghost use Rattle.std.specs.Prelude.{◌≡◌, ◌<◌, ◌≤◌, [], None, IfOk, IfSome, OnSome, MatchOption, MatchResult, length};
ghost use Rattle.vx_base.specs.Refusals.{Gives};
ghost use Rattle.vx_pbm.specs.Images.{images_left, images_of, with_page};
ghost use Rattle.vx_pbm.specs.Raster.{IsSized};
ghost use Rattle.vx_command.specs.Steps.{is_no_memory};
ghost use Rattle.vx_command.specs.declared.halt.Halt.TheVariants as halts;
ghost use Rattle.vx_command_check.specs.Answers as answers;
ghost use Rattle.vx_command_check.specs.Outcome as outcome;
ghost use Rattle.vx_command_check.specs.Walks.{pages_counted};

use std::alloc::Global;
use vx_command::{Halt, halt_of_bitmap};
use vx_pbm::{Image, PbmReader};
use vx_readings::{ReadingsFault, ReadingsReader};
use vx_refusals::CertFault;

/// Why `check` halts where a line of the readings leaves the grammar.
pub(crate) fn halt_of_readings(fault: ReadingsFault) -> Halt
    ensures { result ≡ answers.readings_halt fault }
{
    match fault {
        ReadingsFault::Line(line) => Halt::NotCertified(CertFault::Line(line)),
        ReadingsFault::OutOfMemory => Halt::NoMemory,
    }
}

/// How many images the bytes of a scan have.
pub(crate) fn count_images(alloc: Global, bytes: &[u8]) -> Result<u32, Halt>
    requires { length bytes.now ≤ 67108864 }
    ensures { Gives is_no_memory result (outcome.images_counted (images_of bytes.now)) }
{
    let mut reader = PbmReader::new(alloc, bytes);
    let mut count = 0;
    'images: loop {
        match reader.next() {
            Err(fault) => return Err(halt_of_bitmap(2, fault)),
            Ok(None) => return Ok(count),
            Ok(Some(_)) => count += 1,
        }
    }
}

/// The next image of a scan whose images were walked before.
pub(crate) fn next_image<'b>(reader: &mut PbmReader<'b>) -> Result<Option<Image<'b>>, Halt>
    requires { (images_left reader.old).fault ≡ None }
    ensures walks { MatchResult result
        (λ found. MatchOption found
        (((images_left reader.old).pages ≡ []) × (reader.new ≡ reader.old))
        (λ page. images_left reader.old ≡ with_page page (images_left reader.new)))
        (λ cause. cause ≡ halts.NoMemory) }
    ensures less { IfOk result (λ image. OnSome image (length reader.new.text < length reader.old.text)) }
    ensures sized { IfOk result (λ image. IfSome image (λ page. IsSized page.width page.height)) }
{
    match reader.next() {
        Ok(image) => Ok(image),
        Err(fault) => Err(halt_of_bitmap(2, fault)),
    }
}

/// How many pages readings have, of which some are left to be read.
pub(crate) fn count_pages(said: &mut ReadingsReader<'_>) -> Result<u32, Halt>
    ensures { Gives is_no_memory result (pages_counted said.old) }
{
    'pages: loop {
        match said.next() {
            Err(fault) => return Err(halt_of_readings(fault)),
            Ok(None) => return Ok(said.pages()),
            Ok(Some(_)) => {}
        }
    }
}
